//! The first state of a tick: of tasks that rest nothing is read, nor of those whose job is known not to be there.
ghost use Rattle.std.specs.Prelude.{◌≡◌, All, None, OnOk, length, map, slice_index_or, true};
ghost use Rattle.rt_rules.specs.Numbers.{has};
ghost use Rattle.rt_model.specs.Group as groups;
ghost use Rattle.rt_model.specs.Past.{Past, now};
ghost use Rattle.rank_afresh.specs.Standing.{IsAt, group_of};
ghost use Rattle.chart_rows.specs.Listed.{AreListed};
ghost use Rattle.chart_rows.specs.ReadyJobs.{KnowsMore};
ghost use Rattle.chart_rows.specs.Rows.{TaskKept, rows_seen, task_seen};
ghost use Rattle.span_feed.specs.Still.{AreKnown, AreStill, IsStill};

use crate::lane::TaskLane;
use crate::lanes::GroupLanes;
use chart_rows::{AwayTasks, ReadyJobs, Rows, TaskFeed, see_task_knowing};
use rank_afresh::Afresh;
use rt_base::{NoMemory, Tick};
use std::alloc::Global;

/// A task that rests goes on to show what its row does.
#[inline(always)]
fn see_task(
    row: &mut TaskFeed,
    lane: &TaskLane,
    alloc: Global,
    afresh: &Afresh,
    clock: Tick,
    ready: &mut ReadyJobs,
    away: &mut AwayTasks,
) -> Result<(), NoMemory>
    requires task { has row.old.task (groups.tasks (group_of afresh.now)) ≡ true }
    requires at { (past : Past) × IsAt afresh.now past }
    ensures row { OnOk result ((past : Past) → IsAt afresh.now past → clock.0 ≡ now past
        → AreKnown (group_of afresh.now) past ready.old away.old
        → IsStill (slice_index_or ready.old row.old.task None) lane.now row.old
        → row.new ≡ task_seen (group_of afresh.now) past row.old) }
    ensures knows { OnOk result ((past : Past) → IsAt afresh.now past
        → AreKnown (group_of afresh.now) past ready.old away.old
        → AreKnown (group_of afresh.now) past ready.new away.new) }
    ensures known { KnowsMore ready.old ready.new }
{
    if lane.is_at_rest() {
        return Ok(());
    }
    see_task_knowing(row, alloc, afresh, clock, ready, away)?;
    Ok(())
}

fn see_tasks(
    tasks: &mut [TaskFeed],
    lanes: &[TaskLane],
    alloc: Global,
    afresh: &Afresh,
    clock: Tick,
    ready: &mut ReadyJobs,
    away: &mut AwayTasks,
) -> Result<(), NoMemory>
    requires long { length lanes.now ≡ length tasks.old }
    requires tasks { All (λ (k : TaskKept).
        has k.task (groups.tasks (group_of afresh.now)) ≡ true) tasks.old }
    requires at { (past : Past) × IsAt afresh.now past × (clock.0 ≡ now past)
        × AreKnown (group_of afresh.now) past ready.old away.old }
    requires still { AreStill ready.old lanes.now tasks.old }
    ensures tasks { OnOk result ((past : Past) → IsAt afresh.now past → clock.0 ≡ now past
        → AreKnown (group_of afresh.now) past ready.old away.old
        → tasks.new ≡ map (task_seen (group_of afresh.now) past) tasks.old) }
    ensures knows { OnOk result ((past : Past) → IsAt afresh.now past
        → AreKnown (group_of afresh.now) past ready.old away.old
        → AreKnown (group_of afresh.now) past ready.new away.new) }
    ensures known { OnOk result (KnowsMore ready.old ready.new) }
{
    for (i, row) in tasks.iter_mut().enumerate() {
        see_task(row, &lanes[i], alloc, afresh, clock, ready, away)?;
    }
    Ok(())
}

/// Takes the first state of a tick, at this clock, with what is known of tasks; what is found of others is written down.
pub(crate) fn see_first(
    rows: &mut Rows,
    lanes: &GroupLanes,
    alloc: Global,
    afresh: &Afresh,
    clock: Tick,
    ready: &mut ReadyJobs,
    away: &mut AwayTasks,
) -> Result<(), NoMemory>
    requires listed { AreListed (group_of afresh.now) rows.old }
    requires long { length lanes.now.tasks.items ≡ length rows.old.tasks }
    requires at { (past : Past) × IsAt afresh.now past × (clock.0 ≡ now past)
        × AreKnown (group_of afresh.now) past ready.old away.old }
    requires still { AreStill ready.old lanes.now.tasks.items rows.old.tasks }
    ensures rows { OnOk result ((past : Past) → IsAt afresh.now past → clock.0 ≡ now past
        → AreKnown (group_of afresh.now) past ready.old away.old
        → rows.new ≡ rows_seen (group_of afresh.now) past rows.old) }
    ensures knows { OnOk result ((past : Past) → IsAt afresh.now past
        → AreKnown (group_of afresh.now) past ready.old away.old
        → AreKnown (group_of afresh.now) past ready.new away.new) }
    ensures known { OnOk result (KnowsMore ready.old ready.new) }
{
    see_tasks(
        rows.tasks.as_mut_slice(),
        lanes.tasks.as_slice(),
        alloc,
        afresh,
        clock,
        ready,
        away,
    )?;
    Ok(())
}
