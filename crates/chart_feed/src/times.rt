//! The arrivals of a task and the ends of its jobs, and the marks that they make.
ghost use Rattle.std.specs.Prelude.{◌≡◌, ◌+◌, ◌<◌, ℕ};
ghost use Rattle.rt_base.specs.declared.TheConstants.{TICK_END};
ghost use Rattle.chart_cells.specs.Cells.{marks_shown};
ghost use Rattle.chart_feed.specs.Times as seen;
ghost use Rattle.chart_feed.specs.inside.Counts.{IsCounted};

use chart_cells::Marks;
use rt_base::NoMemory;
use rt_task::{Kind, Task};
use std::alloc::Global;

/// The clocks of a column: its first and its last, and that at which the column behind it begins.
#[derive(Clone, Copy)]
pub(crate) struct Edges {
    pub(crate) first: u64,
    pub(crate) high: u64,
    pub(crate) next: u64,
}

/// What was counted for a column: how many jobs are released by its last clock, and how many of those that are released by now have
/// their deadline before the column behind it begins.
#[derive(Clone, Copy)]
pub(crate) struct Counted {
    pub(crate) high: u64,
    pub(crate) released: u64,
    pub(crate) next: u64,
    pub(crate) due: u64,
}

/// How many of these clocks are no later than one.
fn up_to(clocks: &[u64], clock: u64) -> u64
    ensures { result ≡ seen.up_to clock clocks.now }
{
    let mut count = 0;
    for other in clocks {
        if *other <= clock {
            count += 1;
        }
    }
    count
}

/// How many jobs of a task with these arrivals are released by the clock.
fn released(task: &Task, arrivals: &[u64], clock: u64) -> u64
    requires period { 0 < task.now.period }
    requires clock { clock < TICK_END + 1 }
    ensures { result ≡ seen.released_in task.now.kind task.now arrivals.now clock }
{
    match task.kind {
        Kind::Periodic if task.phase <= clock => (clock - task.phase) / task.period + 1,
        Kind::Periodic => 0,
        Kind::Sporadic => up_to(arrivals, clock),
    }
}

/// The same, where it was counted for a column.
fn released_by(task: &Task, arrivals: &[u64], clock: u64, counted: Counted) -> u64
    requires period { 0 < task.now.period }
    requires clock { clock < TICK_END + 1 }
    requires counted { counted.released
        ≡ seen.released_in task.now.kind task.now arrivals.now counted.high }
    ensures { result ≡ seen.released_in task.now.kind task.now arrivals.now clock }
{
    if clock == counted.high {
        counted.released
    } else {
        released(task, arrivals, clock)
    }
}

/// How many are released before it.
fn released_before(task: &Task, arrivals: &[u64], clock: u64, counted: Counted) -> u64
    requires period { 0 < task.now.period }
    requires clock { clock < TICK_END + 1 }
    requires counted { counted.released
        ≡ seen.released_in task.now.kind task.now arrivals.now counted.high }
    ensures { result ≡ seen.released_before_in task.now arrivals.now clock }
{
    if clock == 0 {
        return 0;
    }
    released_by(task, arrivals, clock - 1, counted)
}

/// How many of those that are released by now have their deadline before a clock.
fn due(task: &Task, arrivals: &[u64], now: u64, before: u64) -> u64
    requires period { 0 < task.now.period }
    requires now { now < TICK_END }
    requires deadline { task.now.rel_deadline < TICK_END }
    ensures { result ≡ seen.due_in task.now arrivals.now now before }
{
    if task.rel_deadline < before {
        released(task, arrivals, (before - (task.rel_deadline + 1)).min(now))
    } else {
        0
    }
}

/// The same, where it was counted for a column.
fn due_by(task: &Task, arrivals: &[u64], now: u64, before: u64, counted: Counted) -> u64
    requires period { 0 < task.now.period }
    requires now { now < TICK_END }
    requires deadline { task.now.rel_deadline < TICK_END }
    requires counted { counted.due ≡ seen.due_in task.now arrivals.now now counted.next }
    ensures { result ≡ seen.due_in task.now arrivals.now now before }
{
    if before == counted.next {
        counted.due
    } else {
        due(task, arrivals, now, before)
    }
}

/// What is counted before the first column.
pub(crate) fn first_counted(task: &Task, arrivals: &[u64]) -> Counted
    requires period { 0 < task.now.period }
    ensures { (now : ℕ) → IsCounted task.now arrivals.now now result }
{
    Counted {
        high: 0,
        released: released(task, arrivals, 0),
        next: 0,
        due: 0,
    }
}

/// The marks of a task with these arrivals and ends of jobs in a column, at the end of which it ended a job or not. What was
/// counted for the column before is mostly needed again.
pub(crate) fn marks(
    task: &Task,
    arrivals: &[u64],
    ends: &[u64],
    now: u64,
    edges: Edges,
    end: bool,
    counted: &mut Counted,
) -> Marks
    requires period { 0 < task.now.period }
    requires deadline { task.now.rel_deadline < TICK_END }
    requires now { now < TICK_END }
    requires first { edges.first < TICK_END + 1 }
    requires high { edges.high < TICK_END + 1 }
    requires counted { IsCounted task.now arrivals.now now counted.old }
    ensures marks { marks_shown result ≡ seen.marks_in task.now arrivals.now ends.now now
        (record { first = edges.first; high = edges.high; next = edges.next }) end }
    ensures counted { IsCounted task.now arrivals.now now counted.new }
{
    let earlier = released_before(task, arrivals, edges.first, *counted);
    let released = released_by(task, arrivals, edges.high, *counted);
    let before = due_by(task, arrivals, now, edges.high, *counted);
    let due = due_by(task, arrivals, now, edges.next, *counted);
    *counted = Counted {
        high: edges.high,
        released,
        next: edges.next,
        due,
    };
    let deadline = before < due;
    Marks {
        release: earlier < released,
        deadline,
        missed: deadline && up_to(ends, edges.high) < due && edges.next <= now,
        end,
    }
}
