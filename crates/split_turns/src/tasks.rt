//! The processor and the priority of each task, by its number.
ghost use Rattle.std.specs.Prelude.{◌≡◌, ◌≤◌, ◌<◌, ◌^◌, length, sum_by, IfOk};
ghost use Rattle.rt_base.specs.declared.TheConstants.{MOST_CPUS, MOST_TASKS};
ghost use Rattle.rt_task.specs.declared.Cluster as sets;
ghost use Rattle.rt_model.specs.Group as model;
ghost use Rattle.rt_plays.specs.Plays.{group_with};
ghost use Rattle.rt_plays.specs.Room.{processor_count};
ghost use Rattle.split_rules.specs.SemHistories.{seat_of};
ghost use Rattle.set_books.specs.SetBooks as books;

use rt_base::NoMemory;
use rt_task::{Cluster, Parts};
use std::alloc::Global;

/// How many processors the clusters have.
pub(crate) fn cpu_count(rows: &[Cluster]) -> u32
    requires { sum_by (λ (k : sets.Cluster). k.cpus) rows.now ≤ MOST_CPUS }
    ensures { result ≡ sum_by (λ (k : sets.Cluster). k.cpus) rows.now }
{
    rows.iter().map(|row| row.cpus).sum()
}

/// The first processor of a cluster.
fn first_cpu(rows: &[Cluster], cluster: usize) -> u32
    requires { sum_by (λ (k : sets.Cluster). k.cpus) rows.now ≤ MOST_CPUS }
    ensures { result ≡ model.first_in rows.now cluster }
{
    let mut first = 0;
    for (c, row) in rows.iter().enumerate() {
        if c == cluster {
            break;
        }
        first += row.cpus;
    }
    first
}

/// The processor of a task; that of 0 stands for nothing.
fn home_of(parts: &Parts, task: usize) -> u32
    requires { processor_count parts.now ≤ MOST_CPUS }
    ensures { result ≡ seat_of (group_with parts.now 0) task }
{
    let rows = parts.clusters.as_slice();
    match parts.tasks.as_slice().get(task.saturating_sub(1)) {
        None => first_cpu(rows, 0),
        Some(row) => first_cpu(rows, row.cluster.0 as usize),
    }
}

/// The priority number of a task; that of 0 stands for nothing.
fn prio_of(parts: &Parts, task: usize) -> u32
    ensures { result ≡ (model.task (group_with parts.now 0) task).prio }
{
    match parts.tasks.as_slice().get(task.saturating_sub(1)) {
        None => 0,
        Some(row) => row.prio,
    }
}

/// The processor of each task, by its number, from 0 on.
pub(crate) fn homes(alloc: Global, parts: &Parts) -> Result<Vec<u32>, NoMemory>
    requires cpus { processor_count parts.now ≤ MOST_CPUS }
    requires tasks { length parts.now.tasks ≤ MOST_TASKS }
    ensures { IfOk result (λ v. v.items ≡ books.homes parts.now) }
{
    let mut homes = Vec::new(alloc);
    for task in 0..parts.tasks.as_slice().len() + 1 {
        homes.push(home_of(parts, task))?;
    }
    Ok(homes)
}

/// The priority number of each task, by its number, from 0 on.
pub(crate) fn prios(alloc: Global, parts: &Parts) -> Result<Vec<u32>, NoMemory>
    requires { length parts.now.tasks ≤ MOST_TASKS }
    ensures { IfOk result (λ v. v.items ≡ books.prios parts.now) }
{
    let mut prios = Vec::new(alloc);
    for task in 0..parts.tasks.as_slice().len() + 1 {
        prios.push(prio_of(parts, task))?;
    }
    Ok(prios)
}
