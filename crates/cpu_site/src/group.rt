//! A group whose processors play their scripts or their turns, as a pointer to it.
ghost use Rattle.std.specs.Prelude.{◌≡◌, ◌≤◌, IfOk, length};
ghost use Rattle.rt_base.specs.declared.TheConstants.{MOST_STEPS};
ghost use Rattle.rt_plays.specs.Groups.{group_of, IsGroupOf};
ghost use Rattle.rt_plays.specs.Homes.{IsProcessorOf};
ghost use Rattle.rt_plays.specs.Plays.{IsBegunPlay};
ghost use Rattle.cpu_site.specs.Playing.{unplayed, IsFar, IsOutcome, IsPlayable};
ghost use Rattle.cpu_site.specs.Raises.{AreRaises};

use crate::played::Played;
use crate::playing_group::PlayingGroup;
use crate::progress::Progress;
use group_engine::KeepingEngine;
use rt_base::{CpuNo, GroupNo, NoMemory};
use rt_task::Setup;
use std::alloc::Global;
use std::marker::Model;

/// A group of a setup whose processors play their scripts or their turns, in any order. Contracts see its history: it is
/// legal, and each processor's steps in it are a first part of its script, or are its turns as far as they go.
///
/// It is in a box, so that who takes the group moves a pointer, and not the engine. After `open` no call takes memory.
#[derive(Drop)]
pub struct Group {
    playing: Box<PlayingGroup>,
}

impl Model for Group {
    ghost use Rattle.rt_plays.specs.Groups.{GroupHistory};

    ghost Value = { GroupHistory };

    ghost view = { λ a. a.playing.value };
}

impl Group {
    /// A group of a setup, before its first step. It takes all the memory that the group ever has.
    pub fn open(alloc: Global, setup: &Setup, group: GroupNo) -> Result<Group, NoMemory>
        requires group { IsGroupOf setup.now group.0 }
        ensures group { IfOk result (λ g. g ≡ unplayed setup.now group.0) }
        ensures playable { IfOk result (λ _. IsPlayable setup.now group.0) }
    {
        let playing = Box::new(alloc, PlayingGroup::open(alloc, setup, group)?)?;
        Ok(Group { playing })
    }

    /// How many steps were taken.
    pub fn len(&self) -> u64
        ensures count { result ≡ length self.now.entries }
        ensures few { result ≤ MOST_STEPS }
        ensures begun { IsBegunPlay (group_of self.now) self.now.entries }
        ensures playable { IsPlayable self.now.setup self.now.group }
    {
        self.playing.len()
    }

    /// How many interrupts were raised at each processor of the group, by rising number.
    pub fn raises(&self) -> &[u64]
        ensures raises { AreRaises self.now result.now }
        ensures begun { IsBegunPlay (group_of self.now) self.now.entries }
    {
        self.playing.raises()
    }

    /// Takes the processor's next step, of its script or of its turns, in which it is so far. On `TurnOver` and `Ended`
    /// nothing is added.
    pub fn advance(&mut self, cpu: CpuNo, at: &mut Progress) -> Played
        requires cpu { IsProcessorOf (group_of self.old) cpu.0 }
        requires far { IsFar (group_of self.old) cpu.0 self.old.entries at.old }
        ensures outcome { IsOutcome self.old cpu.0 at.old result self.new at.new }
        ensures far { IsFar (group_of self.new) cpu.0 self.new.entries at.new }
        ensures begun { IsBegunPlay (group_of self.new) self.new.entries }
        ensures few { length self.new.entries ≤ MOST_STEPS }
    {
        self.playing.advance(cpu, at)
    }

    /// The engine, with the same history.
    pub fn into_engine(self) -> KeepingEngine
        ensures same { result ≡ self }
        ensures begun { IsBegunPlay (group_of result) result.entries }
    {
        let Group { playing } = self;
        Box::into_inner(playing).into_engine()
    }
}
