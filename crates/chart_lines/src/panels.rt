//! The rows of a group.
ghost use Rattle.std.specs.Prelude.{◌≡◌, ◌-◌, ◌++◌, map, flat_map, slice_index_or, OnOk};
ghost use Rattle.rt_model.specs.Group.{no_resv, no_task, resv, task};
ghost use Rattle.chart_texts.specs.ChartText as spec;
ghost use Rattle.chart_texts.specs.Charts as charts;
ghost use Rattle.chart_texts.specs.CpuLines.{cpu_lines, resv_line};
ghost use Rattle.chart_texts.specs.TaskLines.{task_lines};
ghost use Rattle.chart_cells.specs.Charts.{cpu_row_shown, panel_shown, resv_row_shown, task_row_shown};

use crate::cpus::{put_cpu, put_resv};
use crate::rows::{put, put_number};
use crate::rulers::put_rulers;
use crate::tasks::put_task;
use chart_cells::{CpuRow, Panel, ResvRow, TaskRow};
use chart_texts::Axis;
use rt_base::{NoMemory, ResvNo, TaskNo};
use rt_task::{Parts, Resv, Task};
use std::alloc::Global;

/// A task's name, by its number.
fn task_name(tasks: &[Task], task: TaskNo) -> &[u8]
    ensures { result.now ≡ (slice_index_or tasks.now (task.0 - 1) no_task).name }
{
    match tasks.get(task.0.saturating_sub(1) as usize) {
        Some(task) => task.name.as_slice(),
        None => &[],
    }
}

/// Whether a task declares a semaphore.
fn declares(tasks: &[Task], task: TaskNo) -> bool
    ensures { result ≡ spec.declares_any (slice_index_or tasks.now (task.0 - 1) no_task) }
{
    match tasks.get(task.0.saturating_sub(1) as usize) {
        Some(task) => !task.uses.as_slice().is_empty(),
        None => false,
    }
}

/// A reservation's name, by its number.
fn resv_name(resvs: &[Resv], resv: ResvNo) -> &[u8]
    ensures { result.now ≡ (slice_index_or resvs.now (resv.0 - 1) no_resv).name }
{
    match resvs.get(resv.0.saturating_sub(1) as usize) {
        Some(resv) => resv.name.as_slice(),
        None => &[],
    }
}

#[tactic(auto, using(std::proofs::Common::append_assoc))]
fn put_tasks(
    alloc: Global,
    out: &mut Vec<u8>,
    tasks: &[Task],
    width: usize,
    rows: &[TaskRow],
) -> Result<(), NoMemory>
    ensures { OnOk result (out.new.items
        ≡ out.old.items ++ flat_map (λ (r : charts.TaskRow). spec.task_text
        (slice_index_or tasks.now (r.task - 1) no_task) width r)
        (map task_row_shown rows.now)) }
{
    for row in rows {
        let name = task_name(tasks, row.task);
        put_task(alloc, out, name, declares(tasks, row.task), width, row)?;
    }
    Ok(())
}

#[tactic(auto, using(std::proofs::Common::append_assoc))]
fn put_cpus(alloc: Global, out: &mut Vec<u8>, width: usize, rows: &[CpuRow]) -> Result<(), NoMemory>
    ensures { OnOk result (out.new.items
        ≡ out.old.items ++ flat_map (cpu_lines width) (map cpu_row_shown rows.now)) }
{
    for row in rows {
        put_cpu(alloc, out, width, row)?;
    }
    Ok(())
}

#[tactic(auto, using(std::proofs::Common::append_assoc))]
fn put_resvs(
    alloc: Global,
    out: &mut Vec<u8>,
    resvs: &[Resv],
    width: usize,
    rows: &[ResvRow],
) -> Result<(), NoMemory>
    ensures { OnOk result (out.new.items
        ≡ out.old.items ++ flat_map (λ (r : charts.ResvRow). resv_line
        (slice_index_or resvs.now (r.resv - 1) no_resv).name width r)
        (map resv_row_shown rows.now)) }
{
    for row in rows {
        put_resv(alloc, out, resv_name(resvs, row.resv), width, row)?;
    }
    Ok(())
}

/// An empty line and the number of a group.
#[tactic(auto, using(std::proofs::Common::append_assoc))]
fn put_heading(out: &mut Vec<u8>, group: u32) -> Result<(), NoMemory>
    ensures { OnOk result (out.new.items ≡ out.old.items ++ spec.heading group) }
{
    put(out, b"\ngroup ")?;
    put_number(out, u64::from(group))?;
    put(out, b"\n")?;
    Ok(())
}

/// The lines of a group.
#[tactic(auto, using(std::proofs::Common::append_assoc), unfolding(chart_texts::specs::ChartText::panel_text, rt_model::specs::Group::task, rt_model::specs::Group::resv))]
pub fn put_panel(
    alloc: Global,
    out: &mut Vec<u8>,
    parts: &Parts,
    axis: Axis,
    width: usize,
    panel: &Panel,
) -> Result<(), NoMemory>
    ensures { OnOk result (out.new.items
        ≡ out.old.items ++ spec.panel_text parts.now axis width (panel_shown panel.now)) }
{
    put_heading(out, panel.group.0)?;
    put_rulers(alloc, out, axis, width, panel)?;
    put_tasks(alloc, out, parts.tasks.as_slice(), width, &panel.tasks)?;
    put_cpus(alloc, out, width, &panel.cpus)?;
    put_resvs(alloc, out, parts.resvs.as_slice(), width, &panel.resvs)
}
