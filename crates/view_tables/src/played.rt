//! A group whose history was played again, with the table of its jobs.
ghost use Rattle.std.specs.Prelude.{◌≡◌, ◌+◌, ◌<◌, ◌≤◌, [], IfOk, OnOk, length};
ghost use Rattle.rt_base.specs.declared.TheConstants.{MOST_STEPS};
ghost use Rattle.rt_model.specs.Histories.{after, past_from, past_of};
ghost use Rattle.rt_model.specs.Past.{Past};
ghost use Rattle.rt_model.specs.Steps.{IsStepOf};
ghost use Rattle.rt_plays.specs.Groups.{AreStepsOf, IsGroupOf};
ghost use Rattle.rt_plays.specs.Plays.{group_with};
ghost use Rattle.view_tables.specs.inside.Playing.{IsPlayed, group_of, spare};

use job_views::JobTable;
use rt_base::{GroupNo, NoMemory};
use rt_rules::Entry;
use rt_task::{Setup, Step};
use std::alloc::Global;
use view_replay::Replay;

/// A group after steps that were taken again: its facts and requests, and the table of its jobs.
#[derive(Drop)]
pub(crate) struct Played {
    pub(crate) replay: Replay,
    pub(crate) table: JobTable,
}

impl Played {
    /// A group of a setup at opening, with room for so many steps.
    fn open(alloc: Global, setup: &Setup, group: GroupNo, room: u32) -> Result<Played, NoMemory>
        requires group { IsGroupOf setup.now group.0 }
        requires room { room ≤ MOST_STEPS }
        ensures opened { IfOk result (IsPlayed []) }
        ensures group { IfOk result (λ p. group_of p ≡ group_with setup.now group.0) }
        ensures room { IfOk result (λ p. spare p ≡ room) }
    {
        let replay = Replay::open(alloc, setup, group, room)?;
        let tasks = setup.parts().tasks.as_slice().len();
        let table = JobTable::open(alloc, tasks as u32)?;
        Ok(Played { replay, table })
    }

    /// Takes a step.
    fn step(&mut self, alloc: Global, step: Step) -> Result<(), NoMemory>
        requires room { 0 < spare self.old }
        requires step { IsStepOf (group_of self.old) step }
        requires played { (past : Past) × IsPlayed past self.old }
        ensures played { OnOk result ((past : Past) → IsPlayed past self.old
            → IsPlayed (after (group_of self.old) step past) self.new) }
        ensures group { OnOk result (group_of self.new ≡ group_of self.old) }
        ensures room { OnOk result (spare self.new + 1 ≡ spare self.old) }
    {
        self.replay.clock(step.tick);
        let act = self.replay.act(step);
        self.table.feed(alloc, self.replay.now(), &act)
    }

    /// Takes the steps of these entries.
    fn take(&mut self, alloc: Global, entries: &[Entry]) -> Result<(), NoMemory>
        requires room { length entries.now ≤ spare self.old }
        requires steps { AreStepsOf (group_of self.old) entries.now }
        requires played { (past : Past) × IsPlayed past self.old }
        ensures played { OnOk result ((past : Past) → IsPlayed past self.old
            → IsPlayed (past_from (group_of self.old) past entries.now) self.new) }
        ensures group { OnOk result (group_of self.new ≡ group_of self.old) }
    {
        for entry in entries {
            self.step(alloc, entry.step)?;
        }
        Ok(())
    }

    /// A group of a setup after these entries.
    pub(crate) fn of(
        alloc: Global,
        setup: &Setup,
        group: GroupNo,
        entries: &[Entry],
    ) -> Result<Played, NoMemory>
        requires group { IsGroupOf setup.now group.0 }
        requires few { length entries.now ≤ MOST_STEPS }
        requires steps { AreStepsOf (group_with setup.now group.0) entries.now }
        ensures played { IfOk result
            (IsPlayed (past_of (group_with setup.now group.0) entries.now)) }
        ensures group { IfOk result (λ p. group_of p ≡ group_with setup.now group.0) }
    {
        let mut played = Played::open(alloc, setup, group, entries.len() as u32)?;
        played.take(alloc, entries)?;
        Ok(played)
    }
}
