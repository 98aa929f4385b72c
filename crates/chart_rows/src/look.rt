//! What a state of a group shows.
ghost use Rattle.std.specs.Prelude.{◌≡◌, [], IfOk, IfSome, OnOk, not, true};
ghost use Rattle.rt_base.specs.TaskNos.{number_of_task};
ghost use Rattle.rt_rules.specs.Numbers.{has};
ghost use Rattle.rt_model.specs.Group.{Group, tasks};
ghost use Rattle.rt_model.specs.Past.{Past};
ghost use Rattle.rt_plays.specs.Homes.{IsProcessorOf};
ghost use Rattle.rank_afresh.specs.Standing.{IsAt, group_of};
ghost use Rattle.trace_views.specs.Cells as views;
ghost use Rattle.trace_views.specs.Cells.{cell_at, same_key};
ghost use Rattle.chart_cells.specs.Cells.{cell_shown, cpu_cell_shown, doing_shown, playing_shown};
ghost use Rattle.chart_cells.specs.Kept.{later, state_cell};
ghost use Rattle.chart_cells.specs.KeptFirst.{cpu_at_end};
ghost use Rattle.chart_rows.specs.Looks as looks;
ghost use Rattle.chart_rows.specs.Looks.{state_doing};
ghost use Rattle.chart_rows.specs.ReadyJobs.{IsReadyWith, ready_cell};

use crate::ready_jobs::ReadyJob;
use chart_cells::{Cell, CpuCell, Doing, Playing};
use rank_afresh::Afresh;
use rt_base::{CpuNo, NoMemory, SemNo, TaskNo};
use rt_rules::Key;
use std::alloc::Global;

fn waiting_by(blocked: bool, sem: SemNo) -> Doing
    ensures { doing_shown result ≡ looks.waiting_by blocked sem.0 }
{
    if blocked {
        Doing::Blocked(sem)
    } else {
        Doing::Waits(sem)
    }
}

fn there_by(sleeping: bool, there: bool) -> Doing
    ensures { doing_shown result ≡ looks.there_by sleeping there }
{
    if sleeping {
        Doing::Sleeping
    } else if there {
        Doing::Ready
    } else {
        Doing::Away
    }
}

/// What the task does in a state, apart from units of work and from running.
#[inline(always)]
fn doing_in(afresh: &Afresh, task: TaskNo) -> Doing
    requires task { has task.0 (tasks (group_of afresh.now)) ≡ true }
    requires at { (past : Past) × IsAt afresh.now past }
    ensures { (past : Past) → IsAt afresh.now past
        → doing_shown result ≡ state_doing (group_of afresh.now) task.0 past }
{
    match afresh.waits(task) {
        Some(sem) => waiting_by(afresh.blocked(task), sem),
        None => there_by(afresh.sleeps(task), afresh.exists(task)),
    }
}

fn is_raised(key: Key, base: Key) -> bool
    ensures { result ≡ not (same_key key base) }
{
    key != base
}

/// Makes a cell that of a task that does this in a state, where it stands.
#[inline(never)]
fn set_cell(
    cell: &mut Cell,
    alloc: Global,
    afresh: &Afresh,
    task: TaskNo,
    doing: Doing,
) -> Result<(), NoMemory>
    requires { has task.0 (tasks (group_of afresh.now)) ≡ true }
    ensures { OnOk result ((past : Past) → IsAt afresh.now past → cell_shown cell.new
        ≡ cell_at (group_of afresh.now) (doing_shown doing) task.0 past) }
{
    let held = afresh.held(alloc, task)?;
    let job = afresh.done(task) + 1;
    cell.doing = doing;
    cell.job = job;
    cell.held = held;
    cell.non_preemptive = afresh.non_preemptive(task);
    cell.raised = is_raised(afresh.effective_key(task), afresh.base_key(task));
    Ok(())
}

/// The cell of a task that does this in a state.
pub(crate) fn cell_with(
    alloc: Global,
    afresh: &Afresh,
    task: TaskNo,
    doing: Doing,
) -> Result<Cell, NoMemory>
    requires { has task.0 (tasks (group_of afresh.now)) ≡ true }
    ensures { IfOk result (λ c. (past : Past) → IsAt afresh.now past → cell_shown c
        ≡ cell_at (group_of afresh.now) (doing_shown doing) task.0 past) }
{
    let mut cell = Cell::away(alloc);
    set_cell(&mut cell, alloc, afresh, task, doing)?;
    Ok(cell)
}

/// The job of a cell that shows a task as ready and without a semaphore.
fn ready_job(cell: &Cell) -> Option<ReadyJob>
    ensures { IfSome result (λ j. cell_shown cell.now ≡ ready_cell j) }
{
    if matches!(cell.doing, Doing::Ready) && cell.held.is_empty() && !cell.raised {
        return Some(ReadyJob {
            number: cell.job,
            non_preemptive: cell.non_preemptive,
        });
    }
    None
}

/// Takes what a state of the column shows of a task, if that is more than what was so before. The rest of its cell is read only then;
/// and where it is ready and without a semaphore, that is its job.
#[inline(always)]
pub(crate) fn see_state(
    kept: &mut Cell,
    alloc: Global,
    afresh: &Afresh,
    task: TaskNo,
) -> Result<Option<ReadyJob>, NoMemory>
    requires task { has task.0 (tasks (group_of afresh.now)) ≡ true }
    requires at { (past : Past) × IsAt afresh.now past }
    ensures seen { OnOk result ((past : Past) → IsAt afresh.now past → cell_shown kept.new
        ≡ later (cell_shown kept.old) (state_cell (group_of afresh.now) task.0 past)) }
    ensures ready { IfOk result (λ o. IfSome o (λ j. (past : Past) → IsAt afresh.now past
        → IsReadyWith (group_of afresh.now) past task.0 j)) }
{
    let doing = doing_in(afresh, task);
    if kept.gives_way_to(&doing) {
        set_cell(kept, alloc, afresh, task, doing)?;
        return Ok(ready_job(kept));
    }
    Ok(None)
}

/// Whether the task is ready.
#[inline(always)]
pub(crate) fn shows_ready(cell: &Cell) -> bool
    ensures { result ≡ true → (cell_shown cell.now).doing ≡ views.ready }
{
    matches!(cell.doing, Doing::Ready)
}

/// Whether the job of the task is not there.
#[inline(always)]
pub(crate) fn shows_away(cell: &Cell) -> bool
    ensures { result ≡ true → (cell_shown cell.now).doing ≡ views.away }
{
    matches!(cell.doing, Doing::Away)
}

/// The same of a task that is known to be ready, with this job.
#[inline(always)]
pub(crate) fn see_ready(kept: &mut Cell, job: ReadyJob)
    ensures { cell_shown kept.new ≡ later (cell_shown kept.old) (ready_cell job) }
{
    if kept.gives_way_to(&Doing::Ready) {
        kept.doing = Doing::Ready;
        kept.job = job.number;
        kept.held.clear();
        kept.non_preemptive = job.non_preemptive;
        kept.raised = false;
    }
}

fn playing_by(task: Option<TaskNo>) -> Playing
    ensures { (g : Group) → playing_shown result ≡ views.playing_by g [] (number_of_task task) }
{
    match task {
        Some(task) => Playing::RunsTask(task),
        None => Playing::Idle,
    }
}

/// What a processor does in a column without a unit of its own, in the state in which that ends.
pub(crate) fn cpu_at_end(afresh: &Afresh, cpu: CpuNo) -> CpuCell
    requires { IsProcessorOf (group_of afresh.now) cpu.0 }
    ensures { (past : Past) → IsAt afresh.now past
        → cpu_cell_shown result ≡ cpu_at_end (group_of afresh.now) cpu.0 past }
{
    CpuCell {
        playing: playing_by(afresh.runs(cpu)),
        link: afresh.linked(cpu),
    }
}
