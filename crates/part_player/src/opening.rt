//! What is made of a set when a partition is opened.
ghost use Rattle.std.specs.Prelude.{◌≡◌, ◌≤◌, length, slice_index_or, IfOk};
ghost use Rattle.rt_model.specs.Group.{no_cluster};
ghost use Rattle.rt_base.specs.TaskNos.{numbers};
ghost use Rattle.rt_base.specs.declared.TheConstants.{MOST_TASKS};
ghost use Rattle.rt_plays.specs.Drives.{steps_given};
ghost use Rattle.rt_plays.specs.Scripts.{script};
ghost use Rattle.part_player.specs.inside.Openings.{tasks_at};

use rt_base::{ClusterNo, CpuNo, GroupNo, NoMemory, TaskNo};
use rt_task::{Cluster, Drive, Parts, Step, Task};
use std::alloc::Global;

/// The steps that the set gives for the processor, in order.
pub(crate) fn script_of(alloc: Global, parts: &Parts, cpu: CpuNo) -> Result<Vec<Step>, NoMemory>
    ensures { IfOk result (λ v. v.items ≡ script (steps_given parts.now.drive) cpu.0) }
{
    let mut own = Vec::new(alloc);
    let steps = match &parts.drive {
        Drive::Steps(steps) => steps.as_slice(),
        Drive::Horizon(_) => &[],
    };
    for step in steps {
        if step.cpu == cpu {
            own.push(*step)?;
        }
    }
    Ok(own)
}

/// The tasks of a cluster, by rising number.
pub(crate) fn tasks_of(
    alloc: Global,
    tasks: &[Task],
    cluster: ClusterNo,
) -> Result<Vec<TaskNo>, NoMemory>
    requires { length tasks.now ≤ MOST_TASKS }
    ensures { IfOk result (λ v. numbers v.items ≡ tasks_at tasks.now cluster.0) }
{
    let mut own = Vec::new(alloc);
    for (i, task) in tasks.iter().enumerate() {
        if task.cluster == cluster {
            own.push(TaskNo(i as u32 + 1))?;
        }
    }
    Ok(own)
}

/// The group of the cluster of this number.
pub(crate) fn group_of(rows: &[Cluster], cluster: ClusterNo) -> GroupNo
    ensures { result ≡ (slice_index_or rows.now cluster.0 no_cluster).group }
{
    match rows.get(cluster.0 as usize) {
        Some(row) => row.group,
        None => GroupNo(0),
    }
}
