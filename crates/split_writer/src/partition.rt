//! A partition of a split set: its tasks, and the ceilings of its semaphores.
ghost use Rattle.std.specs.Prelude.{◌≡◌, IfOk};
ghost use Rattle.rt_base.specs.TaskNos.{numbers};
ghost use Rattle.mpcp_ceilings.specs.Ceilings.{AreCeilings};
ghost use Rattle.split_rules.specs.PartLinks.{tasks};
ghost use Rattle.split_rules.specs.Partitions.{part_group};
ghost use Rattle.split_writer.specs.PartPlays.{IsPartition};

use mpcp_ceilings::MpcpCeilings;
use rt_base::{CpuNo, NoMemory, TaskNo};
use rt_task::Parts;
use std::alloc::Global;

/// The tasks of the processor's partition, by rising number. Each cluster has one processor.
pub(crate) fn tasks_of(alloc: Global, parts: &Parts, cpu: CpuNo) -> Result<Vec<TaskNo>, NoMemory>
    requires { IsPartition parts.now cpu.0 }
    ensures { IfOk result (λ v. numbers v.items ≡ tasks (part_group parts.now cpu.0) cpu.0) }
{
    let mut tasks = Vec::new(alloc);
    for (i, task) in parts.tasks.as_slice().iter().enumerate() {
        if task.cluster.0 == cpu.0 {
            tasks.push(TaskNo(i as u32 + 1))?;
        }
    }
    Ok(tasks)
}

/// The ceilings in the group of the processor's partition.
pub(crate) fn ceilings_of(
    alloc: Global,
    parts: &Parts,
    cpu: CpuNo,
) -> Result<MpcpCeilings, NoMemory>
    requires { IsPartition parts.now cpu.0 }
    ensures { IfOk result (λ c. AreCeilings (part_group parts.now cpu.0) c) }
{
    let group = parts.clusters.as_slice()[cpu.0 as usize].group;
    MpcpCeilings::open(alloc, parts, group)
}
