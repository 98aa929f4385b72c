//! The clocks of the columns of a window.
ghost use Rattle.std.specs.Prelude.{◌≡◌, ◌+◌, ◌<◌, ◌≤◌, All, IfOk, drop, length, map};
ghost use Rattle.rt_base.specs.declared.TheConstants.{TICK_END};
ghost use Rattle.chart_feed.specs.declared.times.Edges as seen_edges;
ghost use Rattle.chart_cells.specs.Cells.{cell_shown, column_shown, run_shown, runs_shown};
ghost use Rattle.chart_cells.specs.declared.cells.Marks as seen_marks;
ghost use Rattle.chart_rows.specs.RunCells.{cells_of_run, cells_of_runs, ends_of_run, ends_of_runs};
ghost use Rattle.chart_feed.specs.inside.Counts.{IsCounted};
ghost use Rattle.chart_feed.specs.inside.Marked.{edges_shown, marked_in};
ghost use Rattle.chart_feed.specs.Times as seen;

use crate::times::{Counted, Edges, first_counted, marks};
use chart_cells::{Cell, Marks, Run};
use rt_base::NoMemory;
use rt_task::Task;
use std::alloc::Global;

/// Where the column behind one begins that has this last clock.
fn next_of(high: u64, clocks: &[u64], i: usize, after: Option<u64>) -> u64
    requires high { high < TICK_END }
    requires inside { i < length clocks.now }
    ensures { result ≡ seen.next_in high (drop (i + 1) clocks.now) after }
{
    match clocks.get(i + 1) {
        Some(clock) => *clock,
        None => match after {
            Some(clock) => clock,
            None => high + 1,
        },
    }
}

/// The clocks of columns with these last clocks, where the first begins at one, and behind the last this column follows, if any.
pub(crate) fn edges_of(
    alloc: Global,
    first: u64,
    clocks: &[u64],
    after: Option<u64>,
) -> Result<Vec<Edges>, NoMemory>
    requires first { first < TICK_END + 1 }
    requires clocks { All (λ c. c < TICK_END) clocks.now }
    ensures edges { IfOk result
        (λ v. map edges_shown v.items ≡ seen.edges_in first clocks.now after) }
    ensures low { IfOk result (λ v. All (λ (e : seen_edges.Edges).
        (e.first < TICK_END + 1) × (e.high < TICK_END + 1)) v.items) }
{
    let mut edges = Vec::new(alloc);
    let mut begins = first;
    for i in 0..clocks.len() {
        let high = clocks[i];
        let next = next_of(high, clocks, i, after);
        edges.push(Edges {
            first: begins,
            high,
            next,
        })?;
        begins = high + 1;
    }
    Ok(edges)
}

/// Sets the marks of a task with these arrivals and ends of jobs in columns side by side, of which these are the edges, with those
/// behind. What is counted passes from column to column.
fn mark_columns(
    columns: &mut [Marks],
    task: &Task,
    arrivals: &[u64],
    ends: &[u64],
    now: u64,
    edges: &[Edges],
    counted: &mut Counted,
)
    requires period { 0 < task.now.period }
    requires deadline { task.now.rel_deadline < TICK_END }
    requires now { now < TICK_END }
    requires low { All (λ (e : seen_edges.Edges).
        (e.first < TICK_END + 1) × (e.high < TICK_END + 1)) edges.now }
    requires size { length columns.old ≤ length edges.now }
    requires counted { IsCounted task.now arrivals.now now counted.old }
    ensures marked { (c : Cell) → map (column_shown c) columns.new
        ≡ marked_in task.now arrivals.now ends.now now (map (λ (m : seen_marks.Marks).
        cell_shown c) columns.old) (map (λ (m : seen_marks.Marks). m.end) columns.old)
        (map edges_shown edges.now) }
    ensures counted { IsCounted task.now arrivals.now now counted.new }
{
    for i in 0..columns.len() {
        let end = columns[i].end;
        columns[i] = marks(task, arrivals, ends, now, edges[i], end, counted);
    }
}

/// Sets the marks in the columns of a run.
fn mark_run(
    run: &mut Run,
    task: &Task,
    arrivals: &[u64],
    ends: &[u64],
    now: u64,
    edges: &[Edges],
    counted: &mut Counted,
)
    requires period { 0 < task.now.period }
    requires deadline { task.now.rel_deadline < TICK_END }
    requires now { now < TICK_END }
    requires low { All (λ (e : seen_edges.Edges).
        (e.first < TICK_END + 1) × (e.high < TICK_END + 1)) edges.now }
    requires size { length run.old.marks.items ≤ length edges.now }
    requires counted { IsCounted task.now arrivals.now now counted.old }
    ensures marked { run_shown run.new ≡ marked_in task.now arrivals.now ends.now now
        (cells_of_run run.old) (ends_of_run run.old) (map edges_shown edges.now) }
    ensures counted { IsCounted task.now arrivals.now now counted.new }
{
    mark_columns(
        run.marks.as_mut_slice(),
        task,
        arrivals,
        ends,
        now,
        edges,
        counted,
    );
}

/// Sets the marks of a task with these arrivals and ends of jobs in its columns.
pub(crate) fn set_marks(
    runs: &mut [Run],
    task: &Task,
    arrivals: &[u64],
    ends: &[u64],
    now: u64,
    edges: &[Edges],
)
    requires period { 0 < task.now.period }
    requires deadline { task.now.rel_deadline < TICK_END }
    requires now { now < TICK_END }
    requires low { All (λ (e : seen_edges.Edges).
        (e.first < TICK_END + 1) × (e.high < TICK_END + 1)) edges.now }
    requires size { length (cells_of_runs runs.old) ≡ length edges.now }
    ensures { runs_shown runs.new ≡ marked_in task.now arrivals.now ends.now now
        (cells_of_runs runs.old) (ends_of_runs runs.old) (map edges_shown edges.now) }
{
    let mut counted = first_counted(task, arrivals);
    let mut at = 0;
    for i in 0..runs.len() {
        let columns = runs[i].marks.len();
        let here = &edges[at..];
        mark_run(&mut runs[i], task, arrivals, ends, now, here, &mut counted);
        at += columns;
    }
}
