//! A group that is drawn while its steps are taken again.
ghost use Rattle.std.specs.Prelude.{◌≡◌, ◌+◌, ◌<◌, ◌≤◌, [], IfOk, OnOk, length};
ghost use Rattle.rt_base.specs.declared.TheConstants.{MOST_STEPS};
ghost use Rattle.rt_task.specs.Validity.{IsValid};
ghost use Rattle.rt_model.specs.Histories.{after, past_of};
ghost use Rattle.rt_model.specs.Past.{Past};
ghost use Rattle.rt_model.specs.Steps.{IsStepOf};
ghost use Rattle.rt_plays.specs.Groups.{AreStepsOf, IsGroupOf};
ghost use Rattle.rt_plays.specs.Plays.{group_with};
ghost use Rattle.chart_cells.specs.Charts.{panel_shown};
ghost use Rattle.chart_texts.specs.Charts as charts;
ghost use Rattle.chart_texts.specs.Windows.{columns_in};
ghost use Rattle.chart_texts.specs.declared.window.Axis as axes;
ghost use Rattle.chart_texts.specs.declared.window.Window as windows;
ghost use Rattle.chart_feed.specs.Over.{is_over};
ghost use Rattle.view_charts.specs.inside.Drawings.{IsDrawn, IsTaken, group_of, spare};
ghost use Rattle.view_charts.specs.Windows.{IsShown};

use crate::lengths::clock_after;
use chart_cells::Panel;
use chart_feed::{Feed, Members};
use chart_texts::{Axis, Window};
use rt_base::{GroupNo, NoMemory, Tick};
use rt_rules::Entry;
use rt_task::{Parts, Setup, Step};
use std::alloc::Global;
use trace_text::cpus_of;
use view_replay::Replay;
use why_lines::{GroupSet, resvs_of, tasks_of};

/// A group whose steps are taken again, and its columns so far.
#[derive(Drop)]
pub(crate) struct Drawing {
    replay: Replay,
    feed: Feed,
}

impl Drawing {
    /// A group of a setup at opening, with room for so many steps.
    fn open(
        alloc: Global,
        axis: Axis,
        window: Window,
        setup: &Setup,
        group: GroupNo,
        room: u32,
    ) -> Result<Drawing, NoMemory>
        requires group { IsGroupOf setup.now group.0 }
        requires room { room ≤ MOST_STEPS }
        ensures drawn { IfOk result (IsDrawn axis window []) }
        ensures group { IfOk result (λ d. group_of d ≡ group_with setup.now group.0) }
        ensures room { IfOk result (λ d. spare d ≡ room) }
    {
        let parts = setup.parts();
        let set = GroupSet { parts, group };
        let tasks = tasks_of(alloc, &set)?;
        let cpus = cpus_of(alloc, setup, group)?;
        let resvs = resvs_of(alloc, &set)?;
        let members = Members {
            tasks: tasks.as_slice(),
            cpus: cpus.as_slice(),
            resvs: resvs.as_slice(),
        };
        let replay = Replay::open(alloc, setup, group, room)?;
        let feed = Feed::open(alloc, axis, window, &members, parts, replay.afresh())?;
        Ok(Drawing { replay, feed })
    }

    /// Takes a step.
    fn step(&mut self, alloc: Global, parts: &Parts, step: Step) -> Result<(), NoMemory>
        requires parts { parts.now ≡ (group_of self.old).setup }
        requires valid { IsValid parts.now }
        requires room { 0 < spare self.old }
        requires step { IsStepOf (group_of self.old) step }
        requires drawn { (axis : axes.Axis) × (window : windows.Window) × (past : Past)
            × IsDrawn axis window past self.old }
        ensures drawn { OnOk result ((axis : axes.Axis) (window : windows.Window) (past : Past)
            → IsDrawn axis window past self.old
            → IsDrawn axis window (after (group_of self.old) step past) self.new) }
        ensures group { OnOk result (group_of self.new ≡ group_of self.old) }
        ensures room { OnOk result (spare self.new + 1 ≡ spare self.old) }
    {
        let Drawing { replay, feed } = self;
        feed.turn(alloc, replay.afresh(), replay.now(), step.tick)?;
        replay.clock(step.tick);
        feed.see(alloc, replay.afresh(), replay.now())?;
        let mut unit = feed.foretell(
            alloc,
            parts,
            replay.afresh(),
            replay.now(),
            step.cpu,
            step.act,
        )?;
        let act = replay.act(step);
        feed.act(alloc, replay.afresh(), replay.now(), &act, &mut unit)
    }

    /// Whether the columns of the window are over: no later step changes them, or what they show.
    fn is_over(&self) -> bool
        ensures { (axis : axes.Axis) (window : windows.Window) (past : Past)
            → IsDrawn axis window past self.now → result ≡ is_over axis window past }
    {
        self.feed.is_over(self.replay.now())
    }

    /// Takes the steps of these entries, from the first one on, until the columns of the window are over; and tells how many it took.
    fn take(&mut self, alloc: Global, parts: &Parts, entries: &[Entry]) -> Result<usize, NoMemory>
        requires parts { parts.now ≡ (group_of self.old).setup }
        requires valid { IsValid parts.now }
        requires room { length entries.now ≤ spare self.old }
        requires steps { AreStepsOf (group_of self.old) entries.now }
        requires drawn { (axis : axes.Axis) × (window : windows.Window) × (past : Past)
            × IsDrawn axis window past self.old }
        ensures drawn { IfOk result (λ n. (axis : axes.Axis) (window : windows.Window)
            (past : Past) → IsDrawn axis window past self.old
            → IsTaken axis window (group_of self.old) past entries.now n self.new) }
        ensures some { IfOk result (λ n. n ≤ length entries.now) }
        ensures group { OnOk result (group_of self.new ≡ group_of self.old) }
    {
        for (i, entry) in entries.iter().enumerate() {
            if self.is_over() {
                return Ok(i);
            }
            self.step(alloc, parts, entry.step)?;
        }
        Ok(entries.len())
    }
}

/// What a chart shows of a group, if it could be made, with the clock at the end of its history.
fn ending_at(last: Tick, panel: Result<Panel, NoMemory>) -> Result<Panel, NoMemory>
    ensures { (shown : charts.Panel) → IfOk panel (λ p. panel_shown p ≡ shown)
        → IfOk result (λ p. panel_shown p ≡ record shown { last = last.0 }) }
{
    let mut panel = panel?;
    panel.last = last;
    Ok(panel)
}

/// What a chart shows of a group of a setup with these entries. Those behind the window are read for the clock at the end alone.
pub(crate) fn panel_of(
    alloc: Global,
    axis: Axis,
    window: Window,
    setup: &Setup,
    group: GroupNo,
    entries: &[Entry],
) -> Result<Panel, NoMemory>
    requires group { IsGroupOf setup.now group.0 }
    requires few { length entries.now ≤ MOST_STEPS }
    requires steps { AreStepsOf (group_with setup.now group.0) entries.now }
    requires window { IsShown window }
    ensures { let g = group_with setup.now group.0 in IfOk result (λ p. panel_shown p
        ≡ charts.panel_of g (columns_in axis window (past_of g entries.now)) (past_of g entries.now)) }
{
    let parts = setup.parts();
    let room = entries.len() as u32;
    let mut drawing = Drawing::open(alloc, axis, window, setup, group, room)?;
    let taken = drawing.take(alloc, parts, entries)?;
    let Drawing { replay, feed } = drawing;
    let clock = replay.now();
    let last = clock_after(clock, &entries[taken..]);
    ending_at(
        last,
        feed.close(alloc, parts, group, replay.afresh(), clock),
    )
}
