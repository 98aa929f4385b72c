//! An engine whose requests are counted.
ghost use Rattle.std.specs.Prelude.{◌≡◌, ◌<◌, ◌≤◌, [], IfOk};
ghost use Rattle.rt_base.specs.declared.TheConstants.{MOST_STEPS};
ghost use Rattle.rt_model.specs.Steps.{IsStepOf};
ghost use Rattle.rt_model.specs.Histories.{reply_to};
ghost use Rattle.rt_plays.specs.Endings.{ended_last};
ghost use Rattle.rt_plays.specs.Groups.{IsGroupOf, group_of, past, with_entry};
ghost use Rattle.rt_changes.specs.Tallies.{tallies};
ghost use Rattle.block_counts.specs.SeenWords.{tallies_of};

use block_counts::{Blocks, Seen};
use group_engine::{Engine, WaitingList};
use rt_base::{GroupNo, NoMemory, TaskNo};
use rt_rules::{Entry, Reply};
use rt_task::{Setup, Step};
use std::alloc::Global;
use std::marker::Model;

/// An engine with the requests of its history, and room for the tasks that wait as a semaphore is freed. Contracts see the
/// engine.
#[derive(Drop)]
pub struct CountingEngine {
    engine: Engine,
    asked: Blocks,
    waiting: WaitingList,
}

impl Model for CountingEngine {
    ghost use Rattle.rt_plays.specs.Groups.{GroupHistory};
    ghost use Rattle.trace_writer.specs.Replays.{Counts};

    ghost Value = { GroupHistory };

    ghost view = { λ a. a.engine };

    ghost invariant = { λ a. Counts a.engine a.asked a.waiting.room };
}

impl CountingEngine {
    /// A group before its first step, with room for `room` steps.
    pub fn open(
        alloc: Global,
        setup: &Setup,
        group: GroupNo,
        room: u32,
    ) -> Result<CountingEngine, NoMemory>
        requires group { IsGroupOf setup.now group.0 }
        requires room { room ≤ MOST_STEPS }
        ensures { IfOk result (λ r. r
            ≡ record { setup = setup.now; group = group.0; entries = []; spare = room }) }
    {
        let engine = Engine::open(alloc, setup, group, room)?;
        let asked = Blocks::open(alloc, setup, group, room)?;
        let tasks = setup.parts().tasks.as_slice().len() as u32;
        let waiting = WaitingList::open(alloc, tasks)?;
        Ok(CountingEngine {
            engine,
            asked,
            waiting,
        })
    }

    /// The engine.
    pub fn engine(&self) -> &Engine
        ensures { result.now ≡ self.now }
    {
        &self.engine
    }

    /// The requests so far, in order of asking.
    pub fn requests(&self) -> &[Seen]
        ensures { tallies_of result.now ≡ tallies (group_of self.now) (past self.now) }
    {
        self.asked.requests()
    }

    /// The task whose job the last step ended, and whether it ended late.
    pub fn ended(&self) -> Option<(TaskNo, bool)>
        ensures { result ≡ ended_last (group_of self.now) (past self.now) }
    {
        self.engine.ended()
    }

    /// Takes a step of the group, and counts its entry.
    #[inline(always)]
    pub fn step(&mut self, step: Step) -> Reply
        requires room { 0 < self.old.spare }
        requires step { IsStepOf (group_of self.old) step }
        ensures reply { result ≡ reply_to (group_of self.old) step (past self.old) }
        ensures entry { self.new ≡ with_entry (record { step = step; reply = result }) self.old }
    {
        let runs = self.engine.runs(step.cpu);
        let reply = self.engine.step_listing(step, &mut self.waiting);
        self.asked
            .feed(Entry { step, reply }, runs, self.waiting.tasks());
        reply
    }
}
