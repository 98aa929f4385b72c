//! What a task goes on to do from one tick to the next.
ghost use Rattle.std.specs.Prelude.{◌≡◌, Some, true};
ghost use Rattle.trace_views.specs.Cells.{TaskCell};
ghost use Rattle.chart_cells.specs.Cells.{cell_shown};
ghost use Rattle.chart_rows.specs.ReadyJobs.{ready_cell};
ghost use Rattle.span_feed.specs.Lane.{gone, lasting};

use chart_cells::{Cell, Doing};
use chart_rows::ReadyJob;

/// What a task goes on to do, so far as is known.
#[derive(Clone, Copy)]
pub(crate) enum Stay {
    /// That is not known.
    Changes,
    /// Its job is not there.
    Away,
    /// Its job is known to be there and ready, and the task has nothing to do with semaphores.
    Rests(ReadyJob),
    /// It rested, and an act has touched it since.
    Touched(ReadyJob),
}

/// Whether a cell shows a task ready, without a semaphore and with this job.
fn shows(cell: &Cell, job: ReadyJob) -> bool
    ensures { result ≡ true → cell_shown cell.now ≡ ready_cell job }
{
    matches!(cell.doing, Doing::Ready)
        && cell.job == job.number
        && cell.held.is_empty()
        && cell.non_preemptive == job.non_preemptive
        && !cell.raised
}

/// Whether a cell is that of a task whose job is not there.
#[inline(always)]
pub(crate) fn is_gone(cell: &Cell) -> bool
    ensures { result ≡ true → cell_shown cell.now ≡ gone }
{
    matches!(cell.doing, Doing::Away)
        && cell.job == 0
        && cell.held.is_empty()
        && !cell.non_preemptive
        && !cell.raised
}

/// What a cell shows, if a task may go on so: with the job that is known of it, or without a job.
pub(crate) fn stay_of(cell: &Cell, known: Option<ReadyJob>) -> Stay
    ensures cell { (c : TaskCell) → lasting result ≡ Some c → cell_shown cell.now ≡ c }
    ensures known { (j : ReadyJob) → result ≡ Stay.Rests j → known ≡ Some j }
{
    match known {
        Some(job) if shows(cell, job) => Stay::Rests(job),
        _ if is_gone(cell) => Stay::Away,
        _ => Stay::Changes,
    }
}
