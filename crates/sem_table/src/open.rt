//! The semaphores of a group as they are at first.
ghost use Rattle.std.specs.Prelude.{◌≡◌, ◌+◌, ◌<◌, ◌∷◌, ℕ, length, map, IfOk};
ghost use Rattle.std.specs.List.{list_any};
ghost use Rattle.rt_rules.specs.Numbers.{is, numbers_from};
ghost use Rattle.rt_model.specs.Group.{sems};
ghost use Rattle.sem_table.specs.SemTable.{no_row, sem_at};
ghost use Rattle.sem_table.specs.Opened.{group_in, ceilings, pcp_home, new_set, new_row, IsNew, IsNewAt};

use crate::any_sem::AnySem;
use crate::parts::{ceiling, cpus_of, home_of, is_of_group, pcp_home_of, protocol_of, users_of};
use crate::row::Row;
use fmlp_sem::FmlpSem;
use mpcp_sem::MpcpSem;
use omlp_sem::OmlpSem;
use pcp_sem::PcpSet;
use rt_base::{ClusterNo, GroupNo, NoMemory};
use rt_rules::Key;
use rt_task::{Parts, Protocol, Task};
use std::alloc::Global;

// A semaphore that nobody holds.
#[tactic(auto, unfolding(rt_model::specs::Semaphores::cluster_of))]
fn new_sem(
    alloc: Global,
    parts: &Parts,
    group: GroupNo,
    count: u32,
    sem: u32,
    protocol: Protocol,
) -> Result<AnySem, NoMemory>
    requires count { count ≡ length parts.now.tasks }
    requires small { count < 4294967295 }
    ensures { IfOk result (λ k. IsNew (group_in parts.now group.0) sem protocol k) }
{
    let users = users_of(alloc, parts, group, count, sem)?;
    let room = if users.is_empty() { 0 } else { count + 1 };
    let home = home_of(parts, group, users.as_slice());
    match protocol {
        Protocol::Fmlp => Ok(AnySem::Fmlp(FmlpSem::new(alloc, room)?)),
        Protocol::Omlp => {
            let cap = cpus_of(parts, group, home).max(1);
            Ok(AnySem::Omlp(OmlpSem::new(alloc, cap, room)?))
        }
        Protocol::Mpcp => Ok(AnySem::Mpcp(MpcpSem::new(alloc, room)?)),
        Protocol::Pcp => Ok(AnySem::Pcp(home)),
        Protocol::Srp => Ok(AnySem::Srp(home)),
    }
}

/// The semaphores, behind one that stands for none; `count` is the number of tasks.
pub fn all_sems(
    alloc: Global,
    parts: &Parts,
    group: GroupNo,
    count: u32,
    sems: u32,
) -> Result<Vec<AnySem>, NoMemory>
    requires count { count ≡ length parts.now.tasks }
    requires small { count < 4294967295 }
    requires sems { sems ≡ length parts.now.sems }
    ensures count { IfOk result (λ v. length v.items ≡ sems + 1) }
    ensures each { IfOk result (λ v. (s : ℕ) → s < length v.items →
        IsNewAt (group_in parts.now group.0) s (sem_at v.items s)) }
{
    let mut all = Vec::new(alloc);
    let none = AnySem::Fmlp(FmlpSem::new(alloc, 0)?);
    all.push(none)?;
    for i in 0..sems {
        let protocol = protocol_of(parts, group, i + 1);
        let one = new_sem(alloc, parts, group, count, i + 1, protocol)?;
        all.push(one)?;
    }
    Ok(all)
}

// The ceilings of all semaphores, behind one that stands for none.
#[tactic(auto, using(crate::proofs::Opening::mores), unfolding(rt_model::specs::Group::sems))]
fn ceilings_of(
    alloc: Global,
    parts: &Parts,
    group: GroupNo,
    count: u32,
    sems: u32,
) -> Result<Vec<Key>, NoMemory>
    requires count { count ≡ length parts.now.tasks }
    requires sems { sems ≡ length parts.now.sems }
    ensures { IfOk result (λ v. v.items ≡ ceilings (group_in parts.now group.0)) }
{
    let mut keys = Vec::new(alloc);
    keys.push(Key::LOWEST)?;
    for i in 0..sems {
        let users = users_of(alloc, parts, group, count, i + 1)?;
        keys.push(ceiling(parts, group, users.as_slice()))?;
    }
    Ok(keys)
}

// The cluster of each semaphore that is a PCP semaphore.
#[tactic(auto, using(crate::proofs::Opening::mores), unfolding(rt_model::specs::Group::sems))]
fn pcp_homes(
    alloc: Global,
    parts: &Parts,
    group: GroupNo,
    count: u32,
    semaphores: u32,
) -> Result<Vec<Option<u32>>, NoMemory>
    requires count { count ≡ length parts.now.tasks }
    requires sems { semaphores ≡ length parts.now.sems }
    ensures { let g = group_in parts.now group.0 in
        IfOk result (λ v. v.items ≡ map (pcp_home g) (sems g)) }
{
    let mut homes = Vec::new(alloc);
    for i in 0..semaphores {
        let home = pcp_home_of(alloc, parts, group, count, i + 1)?;
        homes.push(home)?;
    }
    Ok(homes)
}

/// Whether one of them is that cluster.
pub fn has_home(homes: &[Option<u32>], c: u32) -> bool
    ensures { result ≡ list_any (is c) homes.now }
{
    for home in homes {
        if *home == Some(c) {
            return true;
        }
    }
    false
}

// The PCP semaphores of a cluster; a cluster that has none takes no memory.
fn new_set_of(
    alloc: Global,
    parts: &Parts,
    group: GroupNo,
    homes: &[Option<u32>],
    keys: &[Key],
    count: u32,
    c: u32,
) -> Result<PcpSet, NoMemory>
    requires homes { let g = group_in parts.now group.0 in homes.now ≡ map (pcp_home g) (sems g) }
    requires keys { keys.now ≡ ceilings (group_in parts.now group.0) }
    requires count { count ≡ length parts.now.tasks }
    requires small { count < 4294967295 }
    ensures { IfOk result (λ s. s ≡ new_set (group_in parts.now group.0) c) }
{
    if is_of_group(parts, group, ClusterNo(c)) && has_home(homes, c) {
        PcpSet::new(alloc, keys, count + 1)
    } else {
        PcpSet::new(alloc, &[], 0)
    }
}

/// The PCP semaphores of each cluster.
#[tactic(auto, using(crate::proofs::Opening::mores))]
pub fn all_sets(
    alloc: Global,
    parts: &Parts,
    group: GroupNo,
    count: u32,
    sems: u32,
    clusters: u32,
) -> Result<Vec<PcpSet>, NoMemory>
    requires count { count ≡ length parts.now.tasks }
    requires small { count < 4294967295 }
    requires sems { sems ≡ length parts.now.sems }
    requires clusters { clusters ≡ length parts.now.clusters }
    ensures { let g = group_in parts.now group.0 in
        IfOk result (λ v. v.items ≡ map (new_set g) (numbers_from 0 clusters)) }
{
    let homes = pcp_homes(alloc, parts, group, count, sems)?;
    let keys = ceilings_of(alloc, parts, group, count, sems)?;
    let mut sets = Vec::new(alloc);
    for i in 0..clusters {
        let set = new_set_of(
            alloc,
            parts,
            group,
            homes.as_slice(),
            keys.as_slice(),
            count,
            i,
        )?;
        sets.push(set)?;
    }
    Ok(sets)
}

/// The tasks, behind one that stands for none.
pub fn all_rows(alloc: Global, tasks: &[Task]) -> Result<Vec<Row>, NoMemory>
    ensures { IfOk result (λ v. v.items ≡ no_row ∷ map new_row tasks.now) }
{
    let mut rows = Vec::new(alloc);
    rows.push(Row::new(ClusterNo(0)))?;
    for task in tasks {
        rows.push(Row::new(task.cluster))?;
    }
    Ok(rows)
}
