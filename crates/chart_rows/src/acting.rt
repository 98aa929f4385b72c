//! What an act makes of the rows.
ghost use Rattle.std.specs.Prelude.{◌≡◌, OnOk, true};
ghost use Rattle.rt_base.specs.TaskNos.{number_of_task};
ghost use Rattle.rt_rules.specs.Numbers.{has};
ghost use Rattle.rt_model.specs.Group.{Group};
ghost use Rattle.rt_changes.specs.Touched.{arriving};
ghost use Rattle.trace_views.specs.Moments.{Moment};
ghost use Rattle.chart_texts.specs.Charts.{group_resvs};
ghost use Rattle.chart_rows.specs.inside.Acted.{task_worked};
ghost use Rattle.chart_rows.specs.Rows.{cpu_acted, resv_acted};
ghost use Rattle.chart_rows.specs.Units.{IsTold, IsUnitOf};

use crate::cpus::CpuFeed;
use crate::resvs::ResvFeed;
use crate::tasks::TaskFeed;
use crate::units::Unit;
use chart_cells::{Cell, CpuCell, Playing};
use rt_base::{CpuNo, NoMemory, TaskNo};
use rt_task::Act;
use std::alloc::Global;
use std::mem;

/// A unit for the row of its task, which takes the cell.
pub(crate) fn work_task(
    row: &mut TaskFeed,
    alloc: Global,
    cpu: CpuNo,
    unit: &mut Unit,
) -> Result<(), NoMemory>
    ensures { OnOk result ((g : Group) (m : Moment) → cpu.0 ≡ m.act.cpu → IsUnitOf g m unit.old
        → row.old.task ≡ unit.old.task.0 → row.new ≡ task_worked g m row.old) }
{
    let before = mem::replace(&mut unit.cell, Cell::away(alloc));
    row.work(alloc, cpu, before)
}

/// A unit of a processor, for the row of one.
#[inline(always)]
pub(crate) fn act_cpu(row: &mut CpuFeed, cpu: CpuNo, unit: &Unit)
    ensures { (g : Group) (m : Moment) → cpu.0 ≡ m.act.cpu → IsUnitOf g m unit.now
        → row.new ≡ cpu_acted g m row.old }
{
    if cpu == row.cpu() {
        row.work(CpuCell {
            playing: Playing::WorksFor(unit.task),
            link: unit.link,
        });
    }
}

/// An act for the row of a reservation.
pub(crate) fn act_resv(row: &mut ResvFeed, unit: &Option<Unit>)
    ensures { (g : Group) (m : Moment) → has row.old.resv (group_resvs g) ≡ true
        → IsTold g m unit.now → row.new ≡ resv_acted g m row.old }
{
    if let Some(unit) = unit {
        if unit.resv == Some(row.resv()) {
            row.work(unit.left);
        }
    }
}

/// The task that arrives by the act.
pub fn arriving(act: Act) -> Option<TaskNo>
    ensures { number_of_task result ≡ arriving act }
{
    match act {
        Act::Arrive(task) => Some(task),
        _ => None,
    }
}
