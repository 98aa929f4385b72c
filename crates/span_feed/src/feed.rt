//! A group's spans over the ticks, while its steps are taken again.
ghost use Rattle.std.specs.Prelude.{◌≡◌, ◌≢◌, ◌+◌, ◌-◌, ◌<◌, ◌∷◌, ◌++◌, [], ℕ, IfOk, List, OnOk, length, replicate, true};
ghost use Rattle.rt_base.specs.TaskNos.{numbers};
ghost use Rattle.rt_base.specs.declared.TheConstants.{TICK_END};
ghost use Rattle.rt_task.specs.Validity.{IsValid};
ghost use Rattle.rt_model.specs.Answers.{last_work};
ghost use Rattle.rt_model.specs.Group as groups;
ghost use Rattle.rt_model.specs.Group.{Group};
ghost use Rattle.rt_model.specs.Past.{Acted, Clock, Past};
ghost use Rattle.rt_model.specs.Past as pasts;
ghost use Rattle.rt_plays.specs.Homes.{IsProcessorOf};
ghost use Rattle.rank_afresh.specs.Standing.{IsAt, group_of};
ghost use Rattle.trace_views.specs.Cells.{newest};
ghost use Rattle.chart_cells.specs.Cells.{cpu_numbers};
ghost use Rattle.chart_texts.specs.Charts.{group_resvs};
ghost use Rattle.view_acts.specs.ShownActs.{act_shown};
ghost use Rattle.chart_rows.specs.Foretold.{IsForetold, moment_of};
ghost use Rattle.chart_rows.specs.ReadyJobs.{AreReady};
ghost use Rattle.chart_rows.specs.Strips.{Strip, blank, seen};
ghost use Rattle.chart_rows.specs.Units.{resv_numbers};
ghost use Rattle.event_lines.specs.Shown.{group_tracks_shown};
ghost use Rattle.event_lines.specs.TracksOf.{tracks_of};
ghost use Rattle.span_feed.specs.Feeds.{Begins, Holds, IsFed, IsTurned};
ghost use Rattle.span_feed.specs.Spanned.{unmarked};

use crate::lanes::GroupLanes;
use crate::opening::{cpu_tracks, resv_tracks, task_lanes};
use crate::seeing::see_first;
use crate::taking::{close_lanes, take_column};
use crate::waking::wake_touched;
use chart_rows::{AwayTasks, CpuFeed, ReadyJobs, Rows, Unit, foretell, keep_if_done, place_of};
use event_lines::GroupTracks;
use rank_afresh::Afresh;
use rt_base::{CpuNo, GroupNo, NoMemory, ResvNo, TaskNo, Tick};
use rt_task::{Act, Parts};
use std::alloc::Global;
use view_acts::ShownAct;

/// What a group has, each by rising number.
#[derive(Clone, Copy)]
pub struct Members<'a> {
    pub group: GroupNo,
    pub tasks: &'a [TaskNo],
    pub cpus: &'a [CpuNo],
    pub resvs: &'a [ResvNo],
}

/// The spans of a group over the ticks that are over, and what there is of the newest tick, while its steps are taken again. Each
/// step is shown by four calls, in this order: `turn` before the clock is moved, `see` after that, `foretell` before the act, and
/// `act` after it. Memory is taken for the spans, and not for ticks. All tasks are looked at once a tick, but for those that are known to
/// be ready still or to have no job yet, and after an act those alone that it touches.
#[derive(Drop)]
pub struct SpanFeed {
    rows: Rows,
    lanes: GroupLanes,
    ready: ReadyJobs,
    away: AwayTasks,
    /// After `turn`: whether the tick that goes on has states before the move of the clock.
    begun: bool,
}

/// Whether the row of a processor has a unit of the column that goes on.
fn has_unit(row: &CpuFeed) -> bool
    ensures { result ≡ true → row.now.kept ≢ None }
{
    row.kept.is_some()
}

impl SpanFeed {
    /// A group at opening, which may take so many steps.
    pub fn open(
        alloc: Global,
        parts: &Parts,
        members: &Members,
        afresh: &Afresh,
        steps: u32,
    ) -> Result<SpanFeed, NoMemory>
        requires valid { IsValid parts.now }
        requires parts { parts.now ≡ afresh.now.setup }
        requires group { members.now.group.0 ≡ afresh.now.group }
        requires tasks { numbers members.now.tasks.now ≡ groups.tasks (group_of afresh.now) }
        requires cpus { cpu_numbers members.now.cpus.now
            ≡ groups.group_processors (group_of afresh.now) }
        requires resvs { resv_numbers members.now.resvs.now ≡ group_resvs (group_of afresh.now) }
        requires at { IsAt afresh.now [] }
        ensures { IfOk result (IsFed (group_of afresh.now) []) }
    {
        let mut rows = Rows::open(alloc, members.tasks, members.cpus, members.resvs)?;
        rows.see(alloc, afresh)?;
        let lanes = GroupLanes {
            group: members.group,
            tasks: task_lanes(alloc, members.tasks, steps)?,
            cpus: cpu_tracks(alloc, members.cpus)?,
            resvs: resv_tracks(alloc, members.resvs)?,
        };
        let ready = ReadyJobs::new(alloc, parts.tasks.as_slice().len() + 1)?;
        let away = AwayTasks::new(alloc, parts.tasks.as_slice().len() + 1)?;
        Ok(SpanFeed {
            rows,
            lanes,
            ready,
            away,
            begun: true,
        })
    }

    /// Ends the tick that goes on, at this clock.
    fn end_tick(&mut self, alloc: Global, afresh: &Afresh, now: u64) -> Result<(), NoMemory>
        requires now { now < TICK_END }
        requires held { (past : Past) × (over : List Strip) × (going : Strip) × IsAt afresh.now past
            × (newest going.states ≡ past) × (now ≡ length over)
            × Holds (group_of afresh.now) over going self.old }
        ensures ended { OnOk result ((past : Past) (over : List Strip) (going : Strip)
            → IsAt afresh.now past → newest going.states ≡ past → now ≡ length over
            → Holds (group_of afresh.now) over going self.old
            → Begins (group_of afresh.now) (over ++ going ∷ []) self.new) }
        ensures known { OnOk result (self.new.ready ≡ self.old.ready) }
        ensures away { OnOk result (self.new.away ≡ self.old.away) }
    {
        self.rows.finish(alloc, afresh)?;
        take_column(
            alloc,
            &mut self.rows,
            &mut self.lanes,
            &self.ready,
            now,
            now + 1,
        )?;
        Ok(())
    }

    /// The ticks from one on up to another, which show the newest state.
    fn pass_ticks(
        &mut self,
        alloc: Global,
        afresh: &Afresh,
        from: u64,
        to: u64,
    ) -> Result<(), NoMemory>
        requires { (past : Past) × (over : List Strip) × IsAt afresh.now past
            × AreReady (group_of afresh.now) past self.old.ready × (from ≡ length over)
            × Begins (group_of afresh.now) over self.old }
        ensures passed { OnOk result ((past : Past) (over : List Strip)
            → IsAt afresh.now past → AreReady (group_of afresh.now) past self.old.ready
            → from ≡ length over → Begins (group_of afresh.now) over self.old
            → Begins (group_of afresh.now) (over ++ replicate (to - from) (seen past blank))
            self.new) }
        ensures known { OnOk result (self.new.ready ≡ self.old.ready) }
        ensures away { OnOk result (self.new.away ≡ self.old.away) }
    {
        if to <= from {
            return Ok(());
        }
        self.rows.see(alloc, afresh)?;
        self.rows.finish(alloc, afresh)?;
        take_column(
            alloc,
            &mut self.rows,
            &mut self.lanes,
            &self.ready,
            from,
            to,
        )?;
        Ok(())
    }

    /// Ends the ticks before one to which the clock is to be moved from this one.
    pub fn turn(
        &mut self,
        alloc: Global,
        afresh: &Afresh,
        now: Tick,
        tick: Tick,
    ) -> Result<(), NoMemory>
        requires now { now.0 < TICK_END }
        requires fed { (past : Past) × (now.0 ≡ pasts.now past) × IsAt afresh.now past
            × IsFed (group_of afresh.now) past self.old }
        ensures { OnOk result ((past : Past) → now.0 ≡ pasts.now past → IsAt afresh.now past
            → IsFed (group_of afresh.now) past self.old
            → IsTurned (group_of afresh.now) tick.0 past self.new) }
    {
        if tick.0 <= now.0 {
            self.begun = true;
            return Ok(());
        }
        self.end_tick(alloc, afresh, now.0)?;
        self.pass_ticks(alloc, afresh, now.0 + 1, tick.0)?;
        self.begun = false;
        Ok(())
    }

    /// Takes the state after the clock was moved, which is now this one.
    pub fn see(&mut self, alloc: Global, afresh: &Afresh, now: Tick) -> Result<(), NoMemory>
        requires turned { (past : Past) × (tick : ℕ) × IsAt afresh.now (Clock tick ∷ past)
            × IsTurned (group_of afresh.now) tick past self.old
            × (now.0 ≡ pasts.now (Clock tick ∷ past)) }
        ensures { OnOk result ((past : Past) (tick : ℕ) → IsAt afresh.now (Clock tick ∷ past)
            → now.0 ≡ pasts.now (Clock tick ∷ past)
            → IsTurned (group_of afresh.now) tick past self.old
            → IsFed (group_of afresh.now) (Clock tick ∷ past) self.new) }
    {
        if self.begun {
            return Ok(());
        }
        see_first(
            &mut self.rows,
            &self.lanes,
            alloc,
            afresh,
            now,
            &mut self.ready,
            &mut self.away,
        )?;
        Ok(())
    }

    /// Whether the row of the processor, where it is found at once, has a unit of the tick that goes on: then it has worked in it.
    fn has_worked(&self, cpu: CpuNo) -> bool
        ensures { (g : Group) (past : Past) → IsFed g past self.now → result ≡ true
            → last_work cpu.0 past ≡ Some (pasts.now past) }
    {
        let cpus = self.rows.cpus.as_slice();
        match place_of(cpus, cpu) {
            Some(place) => has_unit(&cpus[place]),
            None => false,
        }
    }

    /// The unit that an act of a processor would be; none where it can be none, as where the processor has worked in the tick.
    pub fn foretell(
        &self,
        alloc: Global,
        parts: &Parts,
        afresh: &Afresh,
        cpu: CpuNo,
        act: Act,
    ) -> Result<Option<Unit>, NoMemory>
        requires valid { IsValid parts.now }
        requires parts { parts.now ≡ afresh.now.setup }
        requires cpu { IsProcessorOf (group_of afresh.now) cpu.0 }
        requires fed { (past : Past) × IsAt afresh.now past
            × IsFed (group_of afresh.now) past self.now }
        ensures { IfOk result (λ o. (past : Past) → IsAt afresh.now past
            → IsForetold (group_of afresh.now) (moment_of (group_of afresh.now) cpu.0 act past) o) }
    {
        if self.has_worked(cpu) {
            return Ok(None);
        }
        foretell(alloc, parts, afresh, self.rows.resvs.as_slice(), cpu, act)
    }

    /// Takes an act, the unit that it was foretold to be, which is used up, and the state after it.
    pub fn act(
        &mut self,
        alloc: Global,
        afresh: &Afresh,
        act: &ShownAct,
        unit: &mut Option<Unit>,
    ) -> Result<(), NoMemory>
        requires acted { (past : Past) × IsAt afresh.now (Acted (act_shown act.now) ∷ past)
            × IsForetold (group_of afresh.now)
            (record { act = act_shown act.now; before = past }) unit.old
            × IsFed (group_of afresh.now) past self.old }
        ensures { OnOk result ((past : Past) → IsAt afresh.now (Acted (act_shown act.now) ∷ past)
            → IsForetold (group_of afresh.now)
            (record { act = act_shown act.now; before = past }) unit.old
            → IsFed (group_of afresh.now) past self.old
            → IsFed (group_of afresh.now) (Acted (act_shown act.now) ∷ past) self.new) }
    {
        wake_touched(&self.rows, &mut self.lanes, act);
        keep_if_done(unit, act);
        self.rows.act(alloc, act, unit)?;
        self.ready.take_act(act);
        self.away.take_act(act);
        self.rows.see_after(alloc, afresh, act)
    }

    /// The tracks of the group, whose clock is this one, without the marks of jobs.
    pub fn close(
        mut self,
        alloc: Global,
        afresh: &Afresh,
        now: Tick,
    ) -> Result<GroupTracks, NoMemory>
        requires now { now.0 < TICK_END }
        requires fed { (past : Past) × (now.0 ≡ pasts.now past) × IsAt afresh.now past
            × IsFed (group_of afresh.now) past self }
        ensures { IfOk result (λ x. (past : Past) → now.0 ≡ pasts.now past → IsAt afresh.now past
            → IsFed (group_of afresh.now) past self
            → group_tracks_shown x ≡ unmarked (tracks_of (group_of afresh.now) past)) }
    {
        self.end_tick(alloc, afresh, now.0)?;
        let tracks = close_lanes(alloc, self.lanes, now.0 + 1)?;
        Ok(tracks)
    }
}
