//! What a chart shows of a group, once the columns are over.
ghost use Rattle.std.specs.Prelude.{◌≡◌, ◌+◌, ◌<◌, All, IfOk, List, map};
ghost use Rattle.rt_base.specs.declared.TheConstants.{TICK_END};
ghost use Rattle.rt_task.specs.Validity.{IsValid};
ghost use Rattle.rt_model.specs.Group.{Group};
ghost use Rattle.rt_model.specs.Past.{Past};
ghost use Rattle.trace_views.specs.Columns.{Column};
ghost use Rattle.chart_cells.specs.Charts.{cpu_row_shown, panel_shown, resv_row_shown, task_row_shown};
ghost use Rattle.chart_texts.specs.Charts.{cpu_row_in, panel_of, resv_row_in, task_row_in};
ghost use Rattle.chart_texts.specs.Windows.{columns_in};
ghost use Rattle.chart_texts.specs.declared.window.Axis as axes;
ghost use Rattle.chart_texts.specs.declared.window.Window as windows;
ghost use Rattle.chart_rows.specs.Rows.{CpuKept, ResvKept, TaskKept};
ghost use Rattle.chart_feed.specs.declared.times.Edges as seen_edges;
ghost use Rattle.chart_feed.specs.inside.Marked.{edges_shown};
ghost use Rattle.chart_feed.specs.inside.Panels.{CanShow, IsCpuRow, IsResvRow, IsTaskRow};

use crate::clocks::TaskClocks;
use crate::finish::{cpu_row, resv_row, task_row};
use crate::times::Edges;
use crate::window_columns::Columns;
use chart_cells::{CpuRow, Panel, ResvRow, TaskRow};
use chart_rows::{CpuFeed, ResvFeed, Rows, TaskFeed};
use rt_base::{GroupNo, NoMemory, Tick};
use rt_task::{Parts, Task};
use std::alloc::Global;

/// The row of one of the tasks, whose clocks are in the list, where number 0 stands first.
fn row_of(
    row: TaskFeed,
    tasks: &[Task],
    clocks: &[TaskClocks],
    now: u64,
    edges: &[Edges],
) -> TaskRow
    requires now { now < TICK_END }
    requires low { All (λ (e : seen_edges.Edges).
        (e.first < TICK_END + 1) × (e.high < TICK_END + 1)) edges.now }
    requires row { (g : Group) × (past : Past) × (cs : List Column)
        × IsTaskRow g past cs tasks.now clocks.now now (map edges_shown edges.now) row }
    ensures { (g : Group) (past : Past) (cs : List Column)
        → IsTaskRow g past cs tasks.now clocks.now now (map edges_shown edges.now) row
        → task_row_shown result ≡ task_row_in g past cs row.task }
{
    let number = row.task.0 as usize;
    task_row(row, &tasks[number - 1], &clocks[number], now, edges)
}

/// The rows of tasks, at the clock.
pub(crate) fn finish_tasks(
    alloc: Global,
    rows: Vec<TaskFeed>,
    tasks: &[Task],
    clocks: &[TaskClocks],
    now: u64,
    edges: &[Edges],
) -> Result<Vec<TaskRow>, NoMemory>
    requires now { now < TICK_END }
    requires low { All (λ (e : seen_edges.Edges).
        (e.first < TICK_END + 1) × (e.high < TICK_END + 1)) edges.now }
    requires rows { (g : Group) × (past : Past) × (cs : List Column)
        × All (IsTaskRow g past cs tasks.now clocks.now now (map edges_shown edges.now))
        rows.items }
    ensures { IfOk result (λ v. (g : Group) (past : Past) (cs : List Column)
        → All (IsTaskRow g past cs tasks.now clocks.now now (map edges_shown edges.now)) rows.items
        → map task_row_shown v.items
        ≡ map (λ (k : TaskKept). task_row_in g past cs k.task) rows.items) }
{
    let mut made = Vec::new(alloc);
    for row in rows {
        made.push(row_of(row, tasks, clocks, now, edges))?;
    }
    Ok(made)
}

/// The rows of processors.
pub(crate) fn finish_cpus(alloc: Global, rows: Vec<CpuFeed>) -> Result<Vec<CpuRow>, NoMemory>
    ensures { IfOk result (λ v. (g : Group) (cs : List Column)
        → All (IsCpuRow g cs) rows.items → map cpu_row_shown v.items
        ≡ map (λ (k : CpuKept). cpu_row_in g cs k.cpu) rows.items) }
{
    let mut made = Vec::new(alloc);
    for row in rows {
        made.push(cpu_row(row))?;
    }
    Ok(made)
}

/// The rows of reservations.
pub(crate) fn finish_resvs(alloc: Global, rows: Vec<ResvFeed>) -> Result<Vec<ResvRow>, NoMemory>
    ensures { IfOk result (λ v. (g : Group) (cs : List Column)
        → All (IsResvRow g cs) rows.items → map resv_row_shown v.items
        ≡ map (λ (k : ResvKept). resv_row_in g cs k.resv) rows.items) }
{
    let mut made = Vec::new(alloc);
    for row in rows {
        made.push(resv_row(row))?;
    }
    Ok(made)
}

/// What a chart shows of a group at the clock: its columns, its rows, and the clocks of its tasks, where number 0 stands first.
pub(crate) fn panel_with(
    alloc: Global,
    parts: &Parts,
    group: GroupNo,
    now: Tick,
    columns: Columns,
    rows: Rows,
    clocks: &[TaskClocks],
) -> Result<Panel, NoMemory>
    requires valid { IsValid parts.now }
    requires now { now.0 < TICK_END }
    requires shown { (axis : axes.Axis) × (window : windows.Window) × (past : Past)
        × CanShow (record { setup = parts.now; number = group.0 }) axis window past
        now.0 columns rows clocks.now }
    ensures { let g : Group = record { setup = parts.now; number = group.0 } in
        IfOk result (λ p. (axis : axes.Axis) (window : windows.Window) (past : Past)
        → CanShow g axis window past now.0 columns rows clocks.now
        → panel_shown p ≡ panel_of g (columns_in axis window past) past) }
{
    let Rows { tasks, cpus, resvs } = rows;
    let listed = parts.tasks.as_slice();
    let edges = columns.edges.as_slice();
    let tasks = finish_tasks(alloc, tasks, listed, clocks, now.0, edges)?;
    let cpus = finish_cpus(alloc, cpus)?;
    let resvs = finish_resvs(alloc, resvs)?;
    Ok(Panel {
        group,
        labels: columns.labels,
        clocks: columns.clocks,
        last: now,
        tasks,
        cpus,
        resvs,
    })
}
