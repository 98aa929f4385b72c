//! What an act, and the end of a column, makes of all rows.
ghost use Rattle.std.specs.Prelude.{◌≡◌, All, IfOk, OnOk, map, true};
ghost use Rattle.rt_base.specs.TaskNos.{number_of_task};
ghost use Rattle.rt_rules.specs.Distinct.{IsDistinct};
ghost use Rattle.rt_rules.specs.Numbers.{has};
ghost use Rattle.rt_model.specs.Group.{Group};
ghost use Rattle.trace_views.specs.Cells.{runs_no_unit};
ghost use Rattle.trace_views.specs.Moments.{Moment};
ghost use Rattle.chart_texts.specs.Charts.{group_resvs};
ghost use Rattle.view_acts.specs.ShownActs.{act_shown};
ghost use Rattle.chart_cells.specs.Cells.{cpu_numbers, playing_shown};
ghost use Rattle.chart_rows.specs.inside.Acted.{task_done, task_worked};
ghost use Rattle.chart_rows.specs.inside.Finding.{only};
ghost use Rattle.chart_rows.specs.inside.Plays.{idly_run, played_shown};
ghost use Rattle.chart_rows.specs.Listed.{cpus_listed, tasks_listed};
ghost use Rattle.chart_rows.specs.Rows as rows;
ghost use Rattle.chart_rows.specs.Units.{IsTold, IsUnitOf};

use crate::acting::{act_cpu, act_resv, work_task};
use crate::cpus::CpuFeed;
use crate::finding::{place_of, position_of};
use crate::resvs::ResvFeed;
use crate::tasks::TaskFeed;
use crate::units::Unit;
use chart_cells::Playing;
use rt_base::{CpuNo, NoMemory, TaskNo};
use std::alloc::Global;
use view_acts::ShownAct;

/// What a processor does in a column that is over.
#[derive(Clone, Copy)]
pub(crate) struct Played {
    pub(crate) cpu: CpuNo,
    pub(crate) playing: Playing,
}

/// The unit, if there is one, for the rows of tasks: that of its task alone changes, and takes the cell.
fn work_tasks(
    tasks: &mut [TaskFeed],
    alloc: Global,
    cpu: CpuNo,
    unit: &mut Option<Unit>,
) -> Result<(), NoMemory>
    ensures { OnOk result ((g : Group) (m : Moment) → IsDistinct (tasks_listed tasks.old)
        → cpu.0 ≡ m.act.cpu → IsTold g m unit.old
        → tasks.new ≡ map (task_worked g m) tasks.old) }
{
    let Some(unit) = unit else {
        return Ok(());
    };
    if let Some(position) = position_of(tasks, unit.task) {
        work_task(&mut tasks[position], alloc, cpu, unit)?;
    }
    Ok(())
}

/// The end of a job, if an act ended one, for the rows of tasks: that of its task alone changes.
fn end_tasks(tasks: &mut [TaskFeed], ended: Option<TaskNo>)
    ensures { (m : Moment) → IsDistinct (tasks_listed tasks.old)
        → number_of_task ended ≡ m.act.ended → tasks.new ≡ map (task_done m) tasks.old }
{
    let Some(task) = ended else {
        return;
    };
    if let Some(position) = position_of(tasks, task) {
        tasks[position].end(true);
    }
}

/// An act for the rows of tasks, with its unit, if it is one, whose cell is taken.
pub(crate) fn act_tasks(
    tasks: &mut [TaskFeed],
    alloc: Global,
    act: &ShownAct,
    unit: &mut Option<Unit>,
) -> Result<(), NoMemory>
    ensures { OnOk result ((g : Group) (m : Moment) → IsDistinct (tasks_listed tasks.old)
        → act_shown act.now ≡ m.act → IsTold g m unit.old
        → tasks.new ≡ map (rows.task_acted g m) tasks.old) }
{
    work_tasks(tasks, alloc, act.cpu, unit)?;
    end_tasks(tasks, act.ended);
    Ok(())
}

/// A unit of a processor, for the rows of processors that need not stand by number.
fn act_each_cpu(cpus: &mut [CpuFeed], cpu: CpuNo, unit: &Unit)
    ensures { (g : Group) (m : Moment) → cpu.0 ≡ m.act.cpu → IsUnitOf g m unit.now
        → cpus.new ≡ map (rows.cpu_acted g m) cpus.old }
{
    for row in cpus.iter_mut() {
        act_cpu(row, cpu, unit);
    }
}

/// An act for the rows of processors: of a unit that of its processor alone changes.
pub(crate) fn act_cpus(cpus: &mut [CpuFeed], cpu: CpuNo, unit: &Option<Unit>)
    ensures { (g : Group) (m : Moment) → IsDistinct (cpus_listed cpus.old)
        → cpu.0 ≡ m.act.cpu → IsTold g m unit.now
        → cpus.new ≡ map (rows.cpu_acted g m) cpus.old }
{
    let Some(done) = unit else {
        return;
    };
    match place_of(cpus, cpu) {
        Some(place) => act_cpu(&mut cpus[place], cpu, done),
        None => act_each_cpu(cpus, cpu, done),
    }
}

/// An act for the rows of reservations.
pub(crate) fn act_resvs(resvs: &mut [ResvFeed], unit: &Option<Unit>)
    ensures { (g : Group) (m : Moment)
        → All (λ (k : rows.ResvKept). has k.resv (group_resvs g) ≡ true) resvs.old
        → IsTold g m unit.now → resvs.new ≡ map (rows.resv_acted g m) resvs.old }
{
    for row in resvs.iter_mut() {
        act_resv(row, unit);
    }
}

fn runs(playing: Playing, task: TaskNo) -> bool
    ensures { (g : Group) → result ≡ runs_no_unit g task.0 (playing_shown playing) }
{
    match playing {
        Playing::RunsTask(other) => task == other,
        _ => false,
    }
}

/// The processors that run the task and do no unit.
pub(crate) fn running(alloc: Global, plays: &[Played], task: TaskNo) -> Result<Vec<CpuNo>, NoMemory>
    ensures { IfOk result (λ v. (g : Group) → cpu_numbers v.items
        ≡ rows.running g task.0 (map played_shown plays.now)) }
{
    let mut cpus = Vec::new(alloc);
    for played in plays {
        if runs(played.playing, task) {
            cpus.push(played.cpu)?;
        }
    }
    Ok(cpus)
}

/// The task that is run without a unit.
fn idly_run(playing: Playing) -> Option<TaskNo>
    ensures { number_of_task result ≡ idly_run (playing_shown playing) }
{
    match playing {
        Playing::RunsTask(task) => Some(task),
        _ => None,
    }
}

fn finish_task(row: &mut TaskFeed, alloc: Global, plays: &[Played]) -> Result<(), NoMemory>
    ensures { OnOk result ((g : Group)
        → row.new ≡ rows.task_finished g (map played_shown plays.now) row.old) }
{
    let cpus = running(alloc, plays, row.task())?;
    row.finish(cpus);
    Ok(())
}

/// Ends a column for the row of this task, if there is one.
fn finish_row(
    tasks: &mut [TaskFeed],
    alloc: Global,
    plays: &[Played],
    task: Option<TaskNo>,
) -> Result<(), NoMemory>
    ensures { OnOk result ((g : Group) → IsDistinct (tasks_listed tasks.old) → tasks.new ≡ map
        (only (number_of_task task) (rows.task_finished g (map played_shown plays.now)))
        tasks.old) }
{
    let Some(task) = task else {
        return Ok(());
    };
    if let Some(position) = position_of(tasks, task) {
        finish_task(&mut tasks[position], alloc, plays)?;
    }
    Ok(())
}

/// Ends a column, in which the processors do this, for the cells that are kept of tasks: only those change that a processor runs and
/// does no unit of.
pub(crate) fn finish_tasks(
    tasks: &mut [TaskFeed],
    alloc: Global,
    plays: &[Played],
) -> Result<(), NoMemory>
    ensures { OnOk result ((g : Group) → IsDistinct (tasks_listed tasks.old)
        → tasks.new ≡ map (rows.task_finished g (map played_shown plays.now)) tasks.old) }
{
    for played in plays {
        finish_row(tasks, alloc, plays, idly_run(played.playing))?;
    }
    Ok(())
}

/// Begins the next column, and puts what was kept of tasks behind the columns that are over.
fn put_tasks(tasks: &mut [TaskFeed], alloc: Global) -> Result<(), NoMemory>
    ensures { OnOk result ((g : Group) → tasks.new ≡ map (rows.task_put g) tasks.old) }
{
    for row in tasks.iter_mut() {
        row.close(alloc)?;
    }
    Ok(())
}

/// Ends a column for the rows of tasks, in which the processors do this.
pub(crate) fn close_tasks(
    tasks: &mut [TaskFeed],
    alloc: Global,
    plays: &[Played],
) -> Result<(), NoMemory>
    ensures { OnOk result ((g : Group) → IsDistinct (tasks_listed tasks.old)
        → tasks.new ≡ map (rows.task_closed g (map played_shown plays.now)) tasks.old) }
{
    finish_tasks(tasks, alloc, plays)?;
    put_tasks(tasks, alloc)
}
