//! The set of a load.
ghost use Rattle.std.specs.Prelude.{◌≡◌, IfOk, map};
ghost use Rattle.rt_rules.specs.Numbers.{numbers_from};
ghost use Rattle.rt_task.specs.Validity.{IsValid};
ghost use Rattle.load_set.specs.Load as load;

use crate::tasks::{name_of, tasks_of};
use rt_base::{GroupNo, NoMemory};
use rt_task::{
    Cluster, ClusterList, Drive, Parts, PluginKind, Protocol, ResvList, Sem, SemList, SetStop,
    Setup, TaskList,
};
use set_rules::setup_of_parts;
use std::alloc::{AllocError, Global};

const TASKS: u32 = 40;

const HORIZON: u64 = 1000;

fn cluster_in(group: u32) -> Cluster
    ensures { result ≡ load.cluster_in group }
{
    Cluster {
        cpus: 4,
        group: GroupNo(group),
    }
}

fn sem_named(alloc: Global, n: u32) -> Result<Sem, AllocError>
    ensures { IfOk result (λ s. s ≡ load.sem_named n) }
{
    let name = name_of(alloc, b's', n)?;
    Ok(Sem {
        name,
        protocol: Protocol::Omlp,
    })
}

fn sems_of(alloc: Global) -> Result<Vec<Sem>, AllocError>
    ensures { IfOk result (λ v. v.items ≡ map load.sem_named (numbers_from 1 6)) }
{
    let sems = vec![in alloc;
        sem_named(alloc, 1)?,
        sem_named(alloc, 2)?,
        sem_named(alloc, 3)?,
        sem_named(alloc, 4)?,
        sem_named(alloc, 5)?,
        sem_named(alloc, 6)?,
    ]?;
    Ok(sems)
}

fn parts_of(alloc: Global, n: u64) -> Result<Parts, AllocError>
    ensures { IfOk result (λ p. p ≡ load.load_of n) }
{
    let clusters = vec![in alloc; cluster_in(0), cluster_in(1)]?;
    let sems = sems_of(alloc)?;
    let tasks = tasks_of(alloc, TASKS, n)?;
    Ok(Parts {
        plugin: PluginKind::CEdf,
        clusters: ClusterList::from_vec(clusters),
        sems: SemList::from_vec(sems),
        resvs: ResvList::from_vec(Vec::new(alloc)),
        tasks: TaskList::from_vec(tasks),
        drive: Drive::Horizon(HORIZON),
    })
}

/// The set of a load: forty periodic tasks under C-EDF in two clusters of four processors, of which about half lock one of
/// their cluster's three OMLP semaphores for all their work, through 1,000 ticks. The set of each number is valid.
///
/// Example: task 1 of `load_set(alloc, 1)` has period 490.
pub fn load_set(alloc: Global, n: u64) -> Result<Setup, NoMemory>
    ensures set { IfOk result (λ s. s ≡ load.load_of n) }
    ensures valid { IsValid (load.load_of n) }
{
    let parts = parts_of(alloc, n)?;
    match setup_of_parts(alloc, parts) {
        Ok(setup) => Ok(setup),
        Err(SetStop::NoMemory) => Err(NoMemory),
        Err(SetStop::Bad(_)) => unreachable!(),
    }
}
