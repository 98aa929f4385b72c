//! The rows of a group before its first column.
ghost use Rattle.std.specs.Prelude.{◌≡◌, [], IfOk, map};
ghost use Rattle.rt_base.specs.TaskNos.{numbers};
ghost use Rattle.rt_model.specs.Group.{Group};
ghost use Rattle.chart_cells.specs.Cells.{cpu_numbers};
ghost use Rattle.chart_rows.specs.Rows.{cpu_kept, resv_kept, task_kept};
ghost use Rattle.chart_rows.specs.Strips.{blank};
ghost use Rattle.chart_rows.specs.Units.{resv_numbers};

use crate::cpus::CpuFeed;
use crate::resvs::ResvFeed;
use crate::tasks::TaskFeed;
use rt_base::{CpuNo, NoMemory, ResvNo, TaskNo};
use std::alloc::Global;

/// The rows of these tasks.
pub(crate) fn task_rows(alloc: Global, tasks: &[TaskNo]) -> Result<Vec<TaskFeed>, NoMemory>
    ensures { IfOk result
        (λ v. (g : Group) → v.items ≡ map (task_kept g [] blank) (numbers tasks.now)) }
{
    let mut rows = Vec::new(alloc);
    for task in tasks {
        rows.push(TaskFeed::new(alloc, *task))?;
    }
    Ok(rows)
}

/// The rows of these processors.
pub(crate) fn cpu_rows(alloc: Global, cpus: &[CpuNo]) -> Result<Vec<CpuFeed>, NoMemory>
    ensures { IfOk result
        (λ v. (g : Group) → v.items ≡ map (cpu_kept g [] blank) (cpu_numbers cpus.now)) }
{
    let mut rows = Vec::new(alloc);
    for cpu in cpus {
        rows.push(CpuFeed::new(alloc, *cpu))?;
    }
    Ok(rows)
}

/// The rows of these reservations.
pub(crate) fn resv_rows(alloc: Global, resvs: &[ResvNo]) -> Result<Vec<ResvFeed>, NoMemory>
    ensures { IfOk result
        (λ v. (g : Group) → v.items ≡ map (resv_kept g [] blank) (resv_numbers resvs.now)) }
{
    let mut rows = Vec::new(alloc);
    for resv in resvs {
        rows.push(ResvFeed::new(alloc, *resv))?;
    }
    Ok(rows)
}
