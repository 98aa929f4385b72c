//! The bound of a request.
ghost use Rattle.std.specs.Prelude.{◌≡◌, ◌+◌, ◌&&◌, ◌==◌, ◌^◌, ◌<◌, ◌≤◌, IfOk, None, length, map, replicate, slice_index_or};
ghost use Rattle.rt_base.specs.declared.SemNo.{SemNo};
ghost use Rattle.rt_base.specs.declared.TheConstants.{MOST_CPUS};
ghost use Rattle.rt_rules.specs.Numbers.{has};
ghost use Rattle.rt_model.specs.Blocking.{bound};
ghost use Rattle.rt_model.specs.Group.{cpus, home, no_cluster, users};
ghost use Rattle.block_counts.specs.Bounding.{AreUserCounts, CanBound, IsSemOf, IsTaskOf};

use rt_base::{ClusterNo, GroupNo, NoMemory, SemNo, TaskNo};
use rt_task::{Cluster, Parts, Protocol, Task};
use std::alloc::Global;

fn is_in_group(clusters: &[Cluster], cluster: ClusterNo, group: GroupNo) -> bool
    requires { cluster.0 < length clusters.now }
    ensures { result ≡ ((slice_index_or clusters.now cluster.0 no_cluster).group.0 == group.0) }
{
    clusters[cluster.0 as usize].group.0 == group.0
}

fn declares(uses: &[SemNo], sem: SemNo) -> bool
    ensures { result ≡ has sem.0 (map (λ (n : SemNo). n.0) uses.now) }
{
    for used in uses {
        if sem.0 == used.0 {
            return true;
        }
    }
    false
}

// Whether the task is of the group and declares the semaphore.
fn is_user(clusters: &[Cluster], task: &Task, group: GroupNo, sem: SemNo) -> bool
    requires { task.now.cluster.0 < length clusters.now }
    ensures { result
        ≡ ((slice_index_or clusters.now task.now.cluster.0 no_cluster).group.0 == group.0
        && has sem.0 (map (λ (n : SemNo). n.0) task.now.uses)) }
{
    is_in_group(clusters, task.cluster, group) && declares(task.uses.as_slice(), sem)
}

/// How many tasks of the group declare the semaphore.
fn count_users(parts: &Parts, group: GroupNo, sem: SemNo) -> u32
    requires { CanBound parts.now }
    ensures { result ≡ length (users (record { setup = parts.now; number = group.0 }) sem.0) }
{
    let mut count = 0;
    for task in parts.tasks.as_slice() {
        if is_user(parts.clusters.as_slice(), task, group, sem) {
            count += 1;
        }
    }
    count
}

/// A count of users for each of `sems` semaphores, which are numbered from 1; none is counted yet.
pub(crate) fn no_user_counts(alloc: Global, sems: usize) -> Result<Vec<Option<u32>>, NoMemory>
    requires { sems < 2 ^ 63 }
    ensures { IfOk result (λ v. v.items ≡ replicate (sems + 1) None) }
{
    Ok(vec![in alloc; None; sems + 1]?)
}

/// How many tasks of the group declare the semaphore, which is counted at the first call for it alone.
fn users_of(counts: &mut [Option<u32>], parts: &Parts, group: GroupNo, sem: SemNo) -> u32
    requires can { CanBound parts.now }
    requires sem { IsSemOf parts.now sem.0 }
    requires counts { AreUserCounts (record { setup = parts.now; number = group.0 }) counts.old }
    ensures users { result
        ≡ length (users (record { setup = parts.now; number = group.0 }) sem.0) }
    ensures counts { AreUserCounts (record { setup = parts.now; number = group.0 }) counts.new }
{
    if let Some(count) = counts[sem.0 as usize] {
        return count;
    }
    let count = count_users(parts, group, sem);
    counts[sem.0 as usize] = Some(count);
    count
}

/// How many processors the task's cluster has.
fn count_cpus(parts: &Parts, group: GroupNo, task: TaskNo) -> u32
    requires can { CanBound parts.now }
    requires task { IsTaskOf parts.now task.0 }
    ensures cpus { result ≡ cpus (record { setup = parts.now; number = group.0 })
        (home (record { setup = parts.now; number = group.0 }) task.0) }
    ensures few { result ≤ MOST_CPUS }
{
    let position = task.0 as usize - 1;
    let cluster = parts.tasks.as_slice()[position].cluster;
    parts.clusters.as_slice()[cluster.0 as usize].cpus
}

/// The bound of a request of the task for the semaphore, by the users that were counted before.
pub(crate) fn bound_of(
    counts: &mut [Option<u32>],
    parts: &Parts,
    group: GroupNo,
    task: TaskNo,
    sem: SemNo,
) -> Option<u32>
    requires can { CanBound parts.now }
    requires task { IsTaskOf parts.now task.0 }
    requires sem { IsSemOf parts.now sem.0 }
    requires counts { AreUserCounts (record { setup = parts.now; number = group.0 }) counts.old }
    ensures bound { result ≡ bound (record { setup = parts.now; number = group.0 }) task.0 sem.0 }
    ensures counts { AreUserCounts (record { setup = parts.now; number = group.0 }) counts.new }
{
    let position = sem.0 as usize - 1;
    match parts.sems.as_slice()[position].protocol {
        Protocol::Omlp => {
            let cpus = count_cpus(parts, group, task);
            Some((2 * cpus).saturating_sub(1))
        }
        Protocol::Fmlp => {
            let users = users_of(counts, parts, group, sem);
            Some(users.saturating_sub(1))
        }
        _ => None,
    }
}
