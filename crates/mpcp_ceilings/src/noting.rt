//! The rows of all semaphores, made of the tasks that declare them.
ghost use Rattle.std.specs.Prelude.{◌≡◌, ◌+◌, ◌<◌, ◌==◌, IfOk, length, if◌then◌else◌, slice_index_or};
ghost use Rattle.rt_plays.specs.Plays.{group_with};
ghost use Rattle.rt_model.specs.Group.{no_cluster};
ghost use Rattle.mpcp_ceilings.specs.Ceilings.{AreCeilings};
ghost use Rattle.mpcp_ceilings.specs.inside.Noting.{AreKnown, HaveRows, noted_uses};

use crate::user_prios::{UserPrios, with_user};
use rt_base::{GroupNo, NoMemory};
use rt_task::{Cluster, Parts, Task};
use std::alloc::Global;

// Notes a task with each semaphore that it declares.
fn note_uses(rows: &mut [Option<UserPrios>], task: &Task)
    requires { HaveRows task.now.uses (length rows.old) }
    ensures { rows.new ≡ noted_uses task.now.prio task.now.cluster task.now.uses rows.old }
{
    for sem in task.uses.as_slice() {
        let position = sem.0 as usize;
        rows[position] = Some(with_user(rows[position], task.prio, task.cluster));
    }
}

// Notes a task, where it is of the group.
fn note_task(rows: &mut [Option<UserPrios>], clusters: &[Cluster], task: &Task, group: GroupNo)
    requires home { task.now.cluster.0 < length clusters.now }
    requires uses { HaveRows task.now.uses (length rows.old) }
    ensures { rows.new
        ≡ (if (slice_index_or clusters.now task.now.cluster.0 no_cluster).group.0 == group.0
        then noted_uses task.now.prio task.now.cluster task.now.uses rows.old
        else rows.old) }
{
    if clusters[task.cluster.0 as usize].group.0 == group.0 {
        note_uses(rows, task);
    }
}

/// What is kept of the users of each semaphore, at its number.
pub(crate) fn noted_rows(
    alloc: Global,
    parts: &Parts,
    group: GroupNo,
) -> Result<Vec<Option<UserPrios>>, NoMemory>
    requires { AreKnown parts.now }
    ensures { IfOk result (λ r. AreCeilings (group_with parts.now group.0)
        (record { rows = r.items })) }
{
    let count = parts.sems.as_slice().len() + 1;
    let mut rows = vec![in alloc; None; count]?;
    let clusters = parts.clusters.as_slice();
    for task in parts.tasks.as_slice() {
        note_task(rows.as_mut_slice(), clusters, task, group);
    }
    Ok(rows)
}
