//! The rows of a chart, once the columns are over.
ghost use Rattle.std.specs.Prelude.{◌≡◌, ◌+◌, ◌<◌, All, List, map};
ghost use Rattle.rt_base.specs.declared.TheConstants.{TICK_END};
ghost use Rattle.rt_model.specs.Group.{Group};
ghost use Rattle.rt_model.specs.Past.{Past};
ghost use Rattle.trace_views.specs.Columns.{Column};
ghost use Rattle.chart_texts.specs.Charts.{cpu_row_in, resv_row_in, task_row_in};
ghost use Rattle.chart_cells.specs.Charts.{cpu_row_shown, resv_row_shown, task_row_shown};
ghost use Rattle.chart_feed.specs.declared.times.Edges as seen_edges;
ghost use Rattle.chart_feed.specs.Finished.{IsFinished};
ghost use Rattle.chart_feed.specs.inside.Marked.{edges_shown};
ghost use Rattle.chart_rows.specs.Rows.{cpu_kept, resv_kept, task_kept};
ghost use Rattle.chart_rows.specs.Strips.{blank, strip_of};

use crate::clocks::TaskClocks;
use crate::marking::set_marks;
use crate::times::Edges;
use chart_cells::{CpuRow, ResvRow, TaskRow};
use chart_rows::{CpuFeed, ResvFeed, TaskFeed};
use rt_task::Task;

/// The row of a task, whose columns are over, at the clock.
pub(crate) fn task_row(
    row: TaskFeed,
    task: &Task,
    clocks: &TaskClocks,
    now: u64,
    edges: &[Edges],
) -> TaskRow
    requires deadline { task.now.rel_deadline < TICK_END }
    requires now { now < TICK_END }
    requires low { All (λ (e : seen_edges.Edges).
        (e.first < TICK_END + 1) × (e.high < TICK_END + 1)) edges.now }
    requires finished { (g : Group) × (past : Past) × (cs : List Column)
        × IsFinished g past cs row task.now clocks.now now (map edges_shown edges.now) }
    ensures { (g : Group) (past : Past) (cs : List Column)
        → IsFinished g past cs row task.now clocks.now now (map edges_shown edges.now)
        → task_row_shown result ≡ task_row_in g past cs row.task }
{
    let TaskFeed {
        task: number,
        mut closed,
        ..
    } = row;
    set_marks(
        closed.as_mut_slice(),
        task,
        clocks.arrivals.as_slice(),
        clocks.ends.as_slice(),
        now,
        edges,
    );
    TaskRow {
        task: number,
        runs: closed,
    }
}

/// The row of a processor.
pub(crate) fn cpu_row(row: CpuFeed) -> CpuRow
    ensures { (g : Group) (cs : List Column) → row ≡ cpu_kept g (map strip_of cs) blank row.cpu
        → cpu_row_shown result ≡ cpu_row_in g cs row.cpu }
{
    CpuRow {
        cpu: row.cpu,
        cells: row.closed,
    }
}

/// The row of a reservation.
pub(crate) fn resv_row(row: ResvFeed) -> ResvRow
    ensures { (g : Group) (cs : List Column) → row ≡ resv_kept g (map strip_of cs) blank row.resv
        → resv_row_shown result ≡ resv_row_in g cs row.resv }
{
    ResvRow {
        resv: row.resv,
        left: row.closed,
    }
}
