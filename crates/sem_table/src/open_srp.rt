//! The SRP semaphores of a group as they are at first.
ghost use Rattle.std.specs.Prelude.{◌≡◌, ◌<◌, ◌∷◌, length, map, IfOk};
ghost use Rattle.rt_base.specs.TaskNos.{numbers};
ghost use Rattle.rt_base.specs.declared.TheConstants as base;
ghost use Rattle.rt_rules.specs.Numbers.{numbers_from};
ghost use Rattle.rt_rules.specs.Srp.{least};
ghost use Rattle.rt_model.specs.Group.{sems, task};
ghost use Rattle.sem_table.specs.Opened.{group_in, new_srp, srp_home, srp_row, srp_rows};

use crate::open::has_home;
use crate::parts::{home_of, is_of_group, protocol_of, users_of};
use rt_base::{ClusterNo, GroupNo, NoMemory, TICK_END, TaskNo};
use rt_task::{Parts, Protocol};
use srp_sem::SrpSet;
use std::alloc::Global;

// The relative deadline of a task.
#[tactic(auto, unfolding(rt_model::specs::Group::task))]
fn deadline_of(parts: &Parts, group: GroupNo, of: TaskNo) -> u64
    ensures { result ≡ (task (group_in parts.now group.0) of.0).rel_deadline }
{
    let position = (of.0 as usize).saturating_sub(1);
    match parts.tasks.as_slice().get(position) {
        Some(row) => row.rel_deadline,
        None => 0,
    }
}

// The smallest of the relative deadlines of these tasks.
fn least_deadline(parts: &Parts, group: GroupNo, users: &[TaskNo]) -> u64
    ensures { let g = group_in parts.now group.0 in
        result ≡ least base.TICK_END (map (λ t. (task g t).rel_deadline) (numbers users.now)) }
{
    let mut smallest = TICK_END;
    for t in users {
        smallest = smallest.min(deadline_of(parts, group, *t));
    }
    smallest
}

// The ceiling of the semaphore of that number where it is an SRP semaphore, else 0.
#[tactic(auto, unfolding(rt_model::specs::StackPolicy::srp_ceiling))]
fn row_of(
    alloc: Global,
    parts: &Parts,
    group: GroupNo,
    count: u32,
    sem: u32,
) -> Result<u64, NoMemory>
    requires { count ≡ length parts.now.tasks }
    ensures { IfOk result (λ c. c ≡ srp_row (group_in parts.now group.0) sem) }
{
    match protocol_of(parts, group, sem) {
        Protocol::Srp => {
            let users = users_of(alloc, parts, group, count, sem)?;
            Ok(least_deadline(parts, group, users.as_slice()))
        }
        _ => Ok(0),
    }
}

// The cluster of the semaphore of that number, where it is an SRP semaphore.
#[tactic(auto, unfolding(rt_model::specs::Semaphores::cluster_of))]
fn home_at(
    alloc: Global,
    parts: &Parts,
    group: GroupNo,
    count: u32,
    sem: u32,
) -> Result<Option<u32>, NoMemory>
    requires { count ≡ length parts.now.tasks }
    ensures { IfOk result (λ h. h ≡ srp_home (group_in parts.now group.0) sem) }
{
    match protocol_of(parts, group, sem) {
        Protocol::Srp => {
            let users = users_of(alloc, parts, group, count, sem)?;
            Ok(Some(home_of(parts, group, users.as_slice()).0))
        }
        _ => Ok(None),
    }
}

// The ceilings of the SRP semaphores, behind one of a semaphore that stands for none.
#[tactic(auto, using(crate::proofs::Opening::mores), unfolding(rt_model::specs::Group::sems))]
fn all_rows(
    alloc: Global,
    parts: &Parts,
    group: GroupNo,
    count: u32,
    semaphores: u32,
) -> Result<Vec<u64>, NoMemory>
    requires count { count ≡ length parts.now.tasks }
    requires sems { semaphores ≡ length parts.now.sems }
    ensures { IfOk result (λ v. v.items ≡ srp_rows (group_in parts.now group.0)) }
{
    let mut rows = Vec::new(alloc);
    rows.push(0)?;
    for i in 0..semaphores {
        let row = row_of(alloc, parts, group, count, i + 1)?;
        rows.push(row)?;
    }
    Ok(rows)
}

// The cluster of each semaphore that is an SRP semaphore.
#[tactic(auto, using(crate::proofs::Opening::mores), unfolding(rt_model::specs::Group::sems))]
fn all_homes(
    alloc: Global,
    parts: &Parts,
    group: GroupNo,
    count: u32,
    semaphores: u32,
) -> Result<Vec<Option<u32>>, NoMemory>
    requires count { count ≡ length parts.now.tasks }
    requires sems { semaphores ≡ length parts.now.sems }
    ensures { let g = group_in parts.now group.0 in
        IfOk result (λ v. v.items ≡ map (srp_home g) (sems g)) }
{
    let mut homes = Vec::new(alloc);
    for i in 0..semaphores {
        let home = home_at(alloc, parts, group, count, i + 1)?;
        homes.push(home)?;
    }
    Ok(homes)
}

// The SRP semaphores of a cluster; a cluster that has none takes no memory.
fn new_set_of(
    alloc: Global,
    parts: &Parts,
    group: GroupNo,
    homes: &[Option<u32>],
    rows: &[u64],
    count: u32,
    c: u32,
) -> Result<SrpSet, NoMemory>
    requires homes { let g = group_in parts.now group.0 in homes.now ≡ map (srp_home g) (sems g) }
    requires rows { rows.now ≡ srp_rows (group_in parts.now group.0) }
    requires count { count ≡ length parts.now.tasks }
    requires small { count < 4294967295 }
    ensures { IfOk result (λ s. s ≡ new_srp (group_in parts.now group.0) c) }
{
    if is_of_group(parts, group, ClusterNo(c)) && has_home(homes, c) {
        SrpSet::new(alloc, rows, count + 1)
    } else {
        SrpSet::new(alloc, &[], 0)
    }
}

/// The SRP semaphores of each cluster.
#[tactic(auto, using(crate::proofs::Opening::mores))]
pub fn all_sets(
    alloc: Global,
    parts: &Parts,
    group: GroupNo,
    count: u32,
    semaphores: u32,
    clusters: u32,
) -> Result<Vec<SrpSet>, NoMemory>
    requires count { count ≡ length parts.now.tasks }
    requires small { count < 4294967295 }
    requires sems { semaphores ≡ length parts.now.sems }
    requires clusters { clusters ≡ length parts.now.clusters }
    ensures { let g = group_in parts.now group.0 in
        IfOk result (λ v. v.items ≡ map (new_srp g) (numbers_from 0 clusters)) }
{
    let homes = all_homes(alloc, parts, group, count, semaphores)?;
    let rows = all_rows(alloc, parts, group, count, semaphores)?;
    let mut sets = Vec::new(alloc);
    for i in 0..clusters {
        let set = new_set_of(
            alloc,
            parts,
            group,
            homes.as_slice(),
            rows.as_slice(),
            count,
            i,
        )?;
        sets.push(set)?;
    }
    Ok(sets)
}
