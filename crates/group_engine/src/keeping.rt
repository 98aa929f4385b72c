//! An engine that keeps the entries of its history.
ghost use Rattle.std.specs.Prelude.{◌≡◌, ◌<◌, ◌≤◌, ◌+◌, [], IfOk, length};
ghost use Rattle.rt_base.specs.declared.TheConstants.{MOST_STEPS};
ghost use Rattle.rt_model.specs.Histories.{reply_to};
ghost use Rattle.rt_model.specs.Steps.{IsStepOf};
ghost use Rattle.rt_plays.specs.Groups.{AreStepsOf, group_of, past, with_entry, IsGroupOf, IsLegalNow};

use crate::Engine;
use rt_base::{GroupNo, NoMemory};
use rt_rules::{Entry, Reply};
use rt_task::{Setup, Step};
use std::alloc::Global;
use std::marker::Model;

/// An engine with the entries of its history, for who wants them again. Contracts see its history, as they see an engine's.
///
/// After `open` no call takes memory.
#[derive(Drop)]
pub struct KeepingEngine {
    engine: Engine,
    entries: Vec<Entry>,
}

impl Model for KeepingEngine {
    ghost use Rattle.std.specs.Prelude.{vec_capacity};
    ghost use Rattle.rt_plays.specs.Groups.{GroupHistory};
    ghost use Rattle.group_engine.specs.Keeping.{Keeps};

    ghost Value = { GroupHistory };

    ghost view = { λ a. a.engine };

    ghost invariant = { λ a. Keeps a.engine a.entries.items (vec_capacity a.entries) };
}

impl KeepingEngine {
    /// A group of a setup before its first step, with room for `room` steps. All memory is taken here.
    pub fn open(
        alloc: Global,
        setup: &Setup,
        group: GroupNo,
        room: u32,
    ) -> Result<KeepingEngine, NoMemory>
        requires group { IsGroupOf setup.now group.0 }
        requires room { room ≤ MOST_STEPS }
        ensures { IfOk result (λ e. e
            ≡ record { setup = setup.now; group = group.0; entries = []; spare = room }) }
    {
        let entries = Vec::with_capacity(alloc, room as usize)?;
        let engine = Engine::open(alloc, setup, group, room)?;
        Ok(KeepingEngine { engine, entries })
    }

    /// The engine.
    pub fn engine(&self) -> &Engine
        ensures { result.now ≡ self.now }
    {
        &self.engine
    }

    /// The entries so far, in order.
    pub fn entries(&self) -> &[Entry]
        ensures entries { result.now ≡ self.now.entries }
        ensures legal { IsLegalNow self.now }
        ensures steps { AreStepsOf (group_of self.now) self.now.entries }
        ensures room { length self.now.entries + self.now.spare ≤ MOST_STEPS }
    {
        // A proof knows what holds of a history once the engine tells how long it is.
        let _taken = self.engine.taken();
        self.entries.as_slice()
    }

    /// Takes a step of the group, as `Engine::step` does.
    pub fn step(&mut self, step: Step) -> Reply
        requires room { 0 < self.old.spare }
        requires step { IsStepOf (group_of self.old) step }
        ensures reply { result ≡ reply_to (group_of self.old) step (past self.old) }
        ensures entry { self.new ≡ with_entry (record { step = step; reply = result }) self.old }
        ensures legal { IsLegalNow self.new }
    {
        let reply = self.engine.step(step);
        self.entries.push_reserved(Entry { step, reply });
        reply
    }
}
