//! What each move makes of the rows, by both axes.
ghost use Rattle.std.specs.Prelude.{◌≡◌, ◌+◌, ◌<◌, ◌≤◌, ◌∷◌, [], ℕ, OnOk, map, true};
ghost use Rattle.rt_base.specs.declared.TheConstants.{TICK_END};
ghost use Rattle.rt_model.specs.Past.{Acted, Clock, Past};
ghost use Rattle.rt_model.specs.Past as pasts;
ghost use Rattle.rank_afresh.specs.Standing.{IsAt, group_of};
ghost use Rattle.chart_texts.specs.declared.window.Axis as axes;
ghost use Rattle.chart_texts.specs.declared.window.Window as windows;
ghost use Rattle.chart_texts.specs.Windows.{columns_in};
ghost use Rattle.view_acts.specs.ShownActs.{act_shown};
ghost use Rattle.chart_rows.specs.Rows.{rows_of};
ghost use Rattle.chart_feed.specs.inside.Stands.{CanAct, CanSee, HasRows};
ghost use Rattle.chart_feed.specs.WindowStrips as strips;
ghost use Rattle.chart_rows.specs.Strips.{blank, strip_of};
ghost use Rattle.chart_feed.specs.WindowStrips.{closed, closed_below, open_at, open_moved, open_turned};

use crate::entry_clocks::is_in;
use chart_rows::{Rows, Unit};
use chart_texts::{Axis, Window};
use rank_afresh::Afresh;
use rt_base::NoMemory;
use std::alloc::Global;
use view_acts::ShownAct;

/// By ticks: takes the state at opening, where that is in the window.
fn begin_ticks(
    rows: &mut Rows,
    alloc: Global,
    window: Window,
    afresh: &Afresh,
) -> Result<(), NoMemory>
    requires at { IsAt afresh.now [] }
    requires rows { rows.old ≡ rows_of (group_of afresh.now) [] blank }
    ensures { OnOk result (rows.new ≡ rows_of (group_of afresh.now)
        (closed Axis.Ticks window []) (open_at Axis.Ticks window [])) }
{
    if is_in(window, 0) {
        rows.see(alloc, afresh)?;
    }
    Ok(())
}

/// Takes the state at opening, where that has a column.
pub(crate) fn begin(
    rows: &mut Rows,
    alloc: Global,
    axis: Axis,
    window: Window,
    afresh: &Afresh,
) -> Result<(), NoMemory>
    requires at { IsAt afresh.now [] }
    requires rows { rows.old ≡ rows_of (group_of afresh.now) [] blank }
    ensures { OnOk result (rows.new ≡ rows_of (group_of afresh.now)
        (closed axis window []) (open_at axis window [])) }
{
    match axis {
        Axis::Ticks => begin_ticks(rows, alloc, window, afresh),
        Axis::Entries => Ok(()),
    }
}

/// Ends the newest tick.
pub(crate) fn end_tick(
    rows: &mut Rows,
    alloc: Global,
    window: Window,
    afresh: &Afresh,
    now: u64,
) -> Result<(), NoMemory>
    requires { (past : Past) × HasRows afresh.now past now
        (closed Axis.Ticks window past) (open_at Axis.Ticks window past) rows.old }
    ensures { OnOk result ((past : Past) → HasRows afresh.now past now
        (closed Axis.Ticks window past) (open_at Axis.Ticks window past) rows.old
        → HasRows afresh.now past now (closed_below window past (now + 1)) blank rows.new) }
{
    if is_in(window, now) {
        rows.close(alloc, afresh)?;
    }
    Ok(())
}

/// Shows the newest state in a tick that has none of its own.
fn pass_tick(rows: &mut Rows, alloc: Global, afresh: &Afresh) -> Result<(), NoMemory>
    requires { (past : Past) × (window : Window) × (now : ℕ) × (tick : ℕ)
        × HasRows afresh.now past now (closed_below window past tick) blank rows.old }
    ensures { OnOk result ((past : Past) (window : Window) (now tick : ℕ)
        → HasRows afresh.now past now (closed_below window past tick) blank rows.old
        → now < tick → strips.is_in window tick ≡ true
        → HasRows afresh.now past now (closed_below window past (tick + 1)) blank rows.new) }
{
    rows.see(alloc, afresh)?;
    rows.close(alloc, afresh)
}

/// Shows the newest state in the ticks that have none of their own, from one on up to another.
fn pass_ticks(
    rows: &mut Rows,
    alloc: Global,
    window: Window,
    afresh: &Afresh,
    from: u64,
    to: u64,
) -> Result<(), NoMemory>
    requires { (past : Past) × (now : ℕ) × (now < from)
        × HasRows afresh.now past now (closed_below window past from) blank rows.old }
    ensures { OnOk result ((past : Past) (now : ℕ) → now < from → from ≤ to
        → HasRows afresh.now past now (closed_below window past from) blank rows.old
        → HasRows afresh.now past now (closed_below window past to) blank rows.new) }
{
    for _ in from.max(window.from)..to.min(window.to) {
        pass_tick(rows, alloc, afresh)?;
    }
    Ok(())
}

/// By ticks: ends those before one to which the clock is to be moved.
fn turn_ticks(
    rows: &mut Rows,
    alloc: Global,
    window: Window,
    afresh: &Afresh,
    now: u64,
    tick: u64,
) -> Result<(), NoMemory>
    requires now { now < TICK_END }
    requires rows { (past : Past) × HasRows afresh.now past now
        (closed Axis.Ticks window past) (open_at Axis.Ticks window past) rows.old }
    ensures { OnOk result ((past : Past) → HasRows afresh.now past now
        (closed Axis.Ticks window past) (open_at Axis.Ticks window past) rows.old
        → HasRows afresh.now past now (closed Axis.Ticks window (Clock tick ∷ past))
        (open_turned Axis.Ticks window tick past) rows.new) }
{
    if now < tick {
        end_tick(rows, alloc, window, afresh, now)?;
        pass_ticks(rows, alloc, window, afresh, now + 1, tick)?;
    }
    Ok(())
}

/// Ends the columns before a tick to which the clock is to be moved.
pub(crate) fn turn(
    rows: &mut Rows,
    alloc: Global,
    axis: Axis,
    window: Window,
    afresh: &Afresh,
    now: u64,
    tick: u64,
) -> Result<(), NoMemory>
    requires now { now < TICK_END }
    requires rows { (past : Past) × HasRows afresh.now past now
        (closed axis window past) (open_at axis window past) rows.old }
    ensures { OnOk result ((past : Past) → HasRows afresh.now past now
        (closed axis window past) (open_at axis window past) rows.old
        → HasRows afresh.now past now (closed axis window (Clock tick ∷ past))
        (open_turned axis window tick past) rows.new) }
{
    match axis {
        Axis::Ticks => turn_ticks(rows, alloc, window, afresh, now, tick),
        Axis::Entries => Ok(()),
    }
}

/// Whether the column that goes on has states, as the clock is to be moved from one tick to another.
pub(crate) fn has_begun(axis: Axis, now: u64, tick: u64) -> bool
    ensures { (past : Past) → now ≡ pasts.now past → result ≡ strips.has_begun axis tick past }
{
    match axis {
        Axis::Ticks => tick <= now,
        Axis::Entries => false,
    }
}

/// Takes the state after a move of the clock, where the column that it is of is in the window. One that has begun shows no less
/// already.
pub(crate) fn take_state(
    rows: &mut Rows,
    alloc: Global,
    afresh: &Afresh,
    inside: bool,
    begun: bool,
) -> Result<(), NoMemory>
    requires { (axis : axes.Axis) × (window : windows.Window) × (tick : ℕ) × (past : Past)
        × CanSee afresh.now axis window tick past inside begun rows.old }
    ensures { OnOk result ((axis : axes.Axis) (window : windows.Window) (tick : ℕ) (past : Past)
        → CanSee afresh.now axis window tick past inside begun rows.old
        → rows.new ≡ rows_of (group_of afresh.now) (closed axis window (Clock tick ∷ past))
        (open_moved axis window (Clock tick ∷ past))) }
{
    if inside && !begun {
        rows.see(alloc, afresh)?;
    }
    Ok(())
}

/// Takes an act and the state after it.
fn put_act(
    rows: &mut Rows,
    alloc: Global,
    axis: Axis,
    afresh: &Afresh,
    act: &ShownAct,
    unit: &mut Option<Unit>,
) -> Result<(), NoMemory>
    requires { (window : windows.Window) × (past : Past)
        × CanAct afresh.now axis window past (act_shown act.now) true unit.old rows.old }
    ensures { OnOk result ((window : windows.Window) (past : Past)
        → CanAct afresh.now axis window past (act_shown act.now) true unit.old rows.old
        → rows.new ≡ rows_of (group_of afresh.now)
        (closed axis window (Acted (act_shown act.now) ∷ past))
        (open_at axis window (Acted (act_shown act.now) ∷ past))) }
{
    rows.act(alloc, act, unit)?;
    rows.see_after(alloc, afresh, act)?;
    match axis {
        Axis::Ticks => Ok(()),
        Axis::Entries => rows.close(alloc, afresh),
    }
}

/// Takes an act and the state after it, where the column that they are of is in the window.
pub(crate) fn take_act(
    rows: &mut Rows,
    alloc: Global,
    axis: Axis,
    afresh: &Afresh,
    inside: bool,
    act: &ShownAct,
    unit: &mut Option<Unit>,
) -> Result<(), NoMemory>
    requires { (window : windows.Window) × (past : Past)
        × CanAct afresh.now axis window past (act_shown act.now) inside unit.old rows.old }
    ensures { OnOk result ((window : windows.Window) (past : Past)
        → CanAct afresh.now axis window past (act_shown act.now) inside unit.old rows.old
        → rows.new ≡ rows_of (group_of afresh.now)
        (closed axis window (Acted (act_shown act.now) ∷ past))
        (open_at axis window (Acted (act_shown act.now) ∷ past))) }
{
    if inside {
        put_act(rows, alloc, axis, afresh, act, unit)?;
    }
    Ok(())
}

/// Ends the last column.
pub(crate) fn end(
    rows: &mut Rows,
    alloc: Global,
    axis: Axis,
    window: Window,
    afresh: &Afresh,
    now: u64,
) -> Result<(), NoMemory>
    requires { (past : Past) × HasRows afresh.now past now
        (closed axis window past) (open_at axis window past) rows.old }
    ensures { OnOk result ((past : Past) → HasRows afresh.now past now
        (closed axis window past) (open_at axis window past) rows.old
        → rows.new ≡ rows_of (group_of afresh.now)
        (map strip_of (columns_in axis window past)) blank) }
{
    match axis {
        Axis::Ticks => end_tick(rows, alloc, window, afresh, now),
        Axis::Entries => Ok(()),
    }
}
