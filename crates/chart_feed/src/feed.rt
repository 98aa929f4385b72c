//! What a chart shows of a group, gathered while the group's steps are taken again.
ghost use Rattle.std.specs.Prelude.{◌≡◌, ◌+◌, ◌<◌, ◌≤◌, ◌∷◌, [], ℕ, IfOk, OnOk};
ghost use Rattle.rt_base.specs.TaskNos.{numbers};
ghost use Rattle.rt_base.specs.declared.TheConstants.{TICK_END};
ghost use Rattle.rt_task.specs.Validity.{IsValid};
ghost use Rattle.rt_model.specs.Group as groups;
ghost use Rattle.rt_model.specs.Past.{Acted, Clock, Past, entries_in, now};
ghost use Rattle.rt_plays.specs.Homes.{IsProcessorOf};
ghost use Rattle.rank_afresh.specs.Standing.{IsAt, group_of};
ghost use Rattle.chart_cells.specs.Cells.{cpu_numbers};
ghost use Rattle.chart_cells.specs.Charts.{panel_shown};
ghost use Rattle.chart_texts.specs.declared.window.Axis as axes;
ghost use Rattle.chart_texts.specs.declared.window.Window as windows;
ghost use Rattle.chart_texts.specs.Charts.{group_resvs, panel_of};
ghost use Rattle.chart_texts.specs.Windows.{columns_in};
ghost use Rattle.view_acts.specs.ShownActs.{act_shown};
ghost use Rattle.chart_rows.specs.Foretold.{moment_of};
ghost use Rattle.chart_rows.specs.Units.{resv_numbers};
ghost use Rattle.chart_feed.specs.Feeds.{IsActed, IsClocked, IsExpected, IsFed, IsMoved, IsTurned};
ghost use Rattle.chart_feed.specs.Over.{is_over};
ghost use Rattle.chart_feed.specs.WindowStrips.{is_in, position};

use crate::clocks::{TaskClocks, no_clocks, note_act};
use crate::columns::{begin, end, has_begun, take_act, take_state, turn};
use crate::entry_clocks::{EntryClocks, is_before, is_in};
use crate::panel::panel_with;
use crate::window_columns::columns_of;
use chart_cells::Panel;
use chart_rows::{ResvFeed, Rows, Unit, foretell, keep_if_done};
use chart_texts::{Axis, Window};
use rank_afresh::Afresh;
use rt_base::{CpuNo, GroupNo, NoMemory, ResvNo, TaskNo, Tick};
use rt_task::{Act, Parts};
use std::alloc::Global;
use view_acts::ShownAct;

/// What a group has, each by rising number.
#[derive(Clone, Copy)]
pub struct Members<'a> {
    pub tasks: &'a [TaskNo],
    pub cpus: &'a [CpuNo],
    pub resvs: &'a [ResvNo],
}

/// A group in the columns of a window, while its steps are taken again. Each step is shown by four calls, in this order: `turn`
/// before the clock is moved, `see` after that, `foretell` before the act, and `act` after it. All tasks are looked at once a column,
/// and after an act those alone that it touches.
#[derive(Drop)]
pub struct Feed {
    axis: Axis,
    window: Window,
    rows: Rows,
    tasks: Vec<TaskClocks>,
    entries: EntryClocks,
    /// After `turn`: whether the column that goes on has states before the move of the clock.
    begun: bool,
}

/// The rows of reservations.
fn resvs_of(rows: &Rows) -> &[ResvFeed]
    ensures { result.now ≡ rows.now.resvs }
{
    rows.resvs.as_slice()
}

impl Feed {
    /// A group at opening.
    pub fn open(
        alloc: Global,
        axis: Axis,
        window: Window,
        members: &Members,
        parts: &Parts,
        afresh: &Afresh,
    ) -> Result<Feed, NoMemory>
        requires valid { IsValid parts.now }
        requires parts { parts.now ≡ afresh.now.setup }
        requires tasks { numbers members.now.tasks.now ≡ groups.tasks (group_of afresh.now) }
        requires cpus { cpu_numbers members.now.cpus.now
            ≡ groups.group_processors (group_of afresh.now) }
        requires resvs { resv_numbers members.now.resvs.now ≡ group_resvs (group_of afresh.now) }
        requires at { IsAt afresh.now [] }
        ensures { IfOk result (IsFed axis window (group_of afresh.now) []) }
    {
        let mut rows = Rows::open(alloc, members.tasks, members.cpus, members.resvs)?;
        begin(&mut rows, alloc, axis, window, afresh)?;
        let tasks = no_clocks(alloc, parts.tasks.as_slice().len() as u32 + 1)?;
        let entries = EntryClocks::new(alloc);
        Ok(Feed {
            axis,
            window,
            rows,
            tasks,
            entries,
            begun: true,
        })
    }

    /// Ends the columns before a tick to which the clock is to be moved from this one.
    pub fn turn(
        &mut self,
        alloc: Global,
        afresh: &Afresh,
        clock: Tick,
        tick: Tick,
    ) -> Result<(), NoMemory>
        requires clock { clock.0 < TICK_END }
        requires fed { (axis : axes.Axis) × (window : windows.Window) × (past : Past)
            × IsClocked afresh.now clock.0 past
            × IsFed axis window (group_of afresh.now) past self.old }
        ensures { OnOk result ((axis : axes.Axis) (window : windows.Window) (past : Past)
            → IsClocked afresh.now clock.0 past
            → IsFed axis window (group_of afresh.now) past self.old
            → IsTurned axis window (group_of afresh.now) tick.0 past self.new) }
    {
        self.begun = has_begun(self.axis, clock.0, tick.0);
        turn(
            &mut self.rows,
            alloc,
            self.axis,
            self.window,
            afresh,
            clock.0,
            tick.0,
        )
    }

    /// Whether the column that goes on is in the window, at the clock.
    fn is_inside(&self, clock: Tick) -> bool
        ensures { (past : Past) → clock.0 ≡ now past → self.now.entries.count ≡ entries_in past
            → result ≡ is_in self.now.window (position self.now.axis past) }
    {
        match self.axis {
            Axis::Ticks => is_in(self.window, clock.0),
            Axis::Entries => is_in(self.window, self.entries.count),
        }
    }

    /// Whether the columns of the window are over, at the clock after whole steps: no later step changes them, or what they show.
    pub fn is_over(&self, clock: Tick) -> bool
        ensures { (axis : axes.Axis) (window : windows.Window) (g : groups.Group) (past : Past)
            → clock.0 ≡ now past → IsFed axis window g past self.now
            → result ≡ is_over axis window past }
    {
        match self.axis {
            Axis::Ticks => self.window.to <= clock.0,
            Axis::Entries => is_before(clock.0, self.entries.after),
        }
    }

    /// Takes the state after the clock was moved, which is this one then.
    pub fn see(&mut self, alloc: Global, afresh: &Afresh, clock: Tick) -> Result<(), NoMemory>
        requires { (axis : axes.Axis) × (window : windows.Window) × (past : Past) × (tick : ℕ)
            × IsClocked afresh.now clock.0 (Clock tick ∷ past)
            × IsTurned axis window (group_of afresh.now) tick past self.old }
        ensures { OnOk result ((axis : axes.Axis) (window : windows.Window) (past : Past) (tick : ℕ)
            → IsClocked afresh.now clock.0 (Clock tick ∷ past)
            → IsTurned axis window (group_of afresh.now) tick past self.old
            → IsMoved axis window (group_of afresh.now) tick past self.new) }
    {
        let inside = self.is_inside(clock);
        take_state(&mut self.rows, alloc, afresh, inside, self.begun)
    }

    /// The unit that an act of a processor would be, at the clock; none where it can be none, or the column that goes on is not in the
    /// window.
    pub fn foretell(
        &self,
        alloc: Global,
        parts: &Parts,
        afresh: &Afresh,
        clock: Tick,
        cpu: CpuNo,
        act: Act,
    ) -> Result<Option<Unit>, NoMemory>
        requires valid { IsValid parts.now }
        requires parts { parts.now ≡ afresh.now.setup }
        requires cpu { IsProcessorOf (group_of afresh.now) cpu.0 }
        requires moved { (axis : axes.Axis) × (window : windows.Window) × (past : Past) × (tick : ℕ)
            × IsClocked afresh.now clock.0 (Clock tick ∷ past)
            × IsMoved axis window (group_of afresh.now) tick past self.now }
        ensures { IfOk result (λ o. (axis : axes.Axis) (window : windows.Window) (past : Past)
            (tick : ℕ) → IsClocked afresh.now clock.0 (Clock tick ∷ past)
            → IsMoved axis window (group_of afresh.now) tick past self.now
            → IsExpected axis window (group_of afresh.now)
            (moment_of (group_of afresh.now) cpu.0 act (Clock tick ∷ past)) o) }
    {
        if !self.is_inside(clock) {
            return Ok(None);
        }
        foretell(alloc, parts, afresh, resvs_of(&self.rows), cpu, act)
    }

    /// Takes an act, the unit that it was foretold to be, which is used up, and the state after it, whose clock is this one.
    pub fn act(
        &mut self,
        alloc: Global,
        afresh: &Afresh,
        clock: Tick,
        act: &ShownAct,
        unit: &mut Option<Unit>,
    ) -> Result<(), NoMemory>
        requires clock { clock.0 < TICK_END }
        requires acted { (axis : axes.Axis) × (window : windows.Window) × (past : Past) × (tick : ℕ)
            × IsActed axis window afresh.now clock.0 (act_shown act.now) tick past unit.old self.old }
        ensures { OnOk result ((axis : axes.Axis) (window : windows.Window) (past : Past) (tick : ℕ)
            → IsActed axis window afresh.now clock.0 (act_shown act.now) tick past unit.old self.old
            → IsFed axis window (group_of afresh.now)
            (Acted (act_shown act.now) ∷ Clock tick ∷ past) self.new) }
    {
        let inside = self.is_inside(clock);
        keep_if_done(unit, act);
        take_act(&mut self.rows, alloc, self.axis, afresh, inside, act, unit)?;
        note_act(self.tasks.as_mut_slice(), clock.0, act)?;
        self.entries.note(self.window, clock.0)
    }

    /// What the chart shows of the group, at the clock.
    pub fn close(
        self,
        alloc: Global,
        parts: &Parts,
        group: GroupNo,
        afresh: &Afresh,
        clock: Tick,
    ) -> Result<Panel, NoMemory>
        requires valid { IsValid parts.now }
        requires parts { parts.now ≡ afresh.now.setup }
        requires group { group.0 ≡ afresh.now.group }
        requires clock { clock.0 < TICK_END }
        requires from { self.window.from < TICK_END + 1 }
        requires window { self.window.from ≤ self.window.to }
        requires fed { (axis : axes.Axis) × (window : windows.Window) × (past : Past)
            × IsClocked afresh.now clock.0 past
            × IsFed axis window (group_of afresh.now) past self }
        ensures { IfOk result (λ p. (axis : axes.Axis) (window : windows.Window) (past : Past)
            → IsClocked afresh.now clock.0 past
            → IsFed axis window (group_of afresh.now) past self
            → panel_shown p ≡ panel_of (group_of afresh.now) (columns_in axis window past) past) }
    {
        let Feed {
            axis,
            window,
            mut rows,
            tasks,
            entries,
            ..
        } = self;
        end(&mut rows, alloc, axis, window, afresh, clock.0)?;
        let columns = columns_of(alloc, axis, window, clock.0, entries)?;
        panel_with(alloc, parts, group, clock, columns, rows, tasks.as_slice())
    }
}
