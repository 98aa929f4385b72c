//! A group whose processors play their scripts or their turns, with the interrupts that were raised at each of them.
ghost use Rattle.std.specs.Prelude.{◌≡◌, ◌≤◌, IfOk, length};
ghost use Rattle.rt_base.specs.declared.TheConstants.{MOST_STEPS};
ghost use Rattle.rt_plays.specs.Groups.{group_of, IsGroupOf};
ghost use Rattle.rt_plays.specs.Homes.{IsProcessorOf};
ghost use Rattle.rt_plays.specs.Plays.{IsBegunPlay};
ghost use Rattle.cpu_site.specs.Playing.{unplayed, IsFar, IsOutcome, IsPlayable};
ghost use Rattle.cpu_site.specs.Raises.{AreRaises};

use crate::cpu_views::{CpuView, count_raises, look};
use crate::cpus::cpus_of;
use crate::interrupts::no_counts;
use crate::played::Played;
use crate::player::Player;
use crate::progress::Progress;
use group_engine::KeepingEngine;
use rt_base::{CpuNo, GroupNo, NoMemory};
use rt_task::Setup;
use std::alloc::Global;
use std::marker::Model;

/// A group of a setup whose processors play their scripts or their turns, in any order. Contracts see its history: it is
/// legal, and each processor's steps in it are a first part of its script, or are its turns as far as they go.
///
/// After `open` no call takes memory.
#[derive(Drop)]
pub(crate) struct PlayingGroup {
    player: Player,
    // The group's processors, what each is linked to and runs, and how many interrupts were raised at it.
    cpus: Vec<CpuNo>,
    cpu_views: Vec<CpuView>,
    raises: Vec<u64>,
}

impl Model for PlayingGroup {
    ghost use Rattle.std.specs.Prelude.{◌≡◌};
    ghost use Rattle.rt_model.specs.Group.{group_processors};
    ghost use Rattle.rt_plays.specs.Groups.{GroupHistory, group_of, past};
    ghost use Rattle.rt_plays.specs.Plays.{IsBegunPlay};
    ghost use Rattle.cpu_site.specs.Cpus.{cpu_numbers};
    ghost use Rattle.cpu_site.specs.Raises.{AreRaises, AreCpuViews};

    ghost Value = { GroupHistory };

    ghost view = { λ a. a.player };

    ghost invariant = { λ a.
        (cpu_numbers a.cpus.items ≡ group_processors (group_of a.player))
        × AreCpuViews (group_of a.player) (past a.player) a.cpu_views.items
        × AreRaises a.player a.raises.items
        × IsBegunPlay (group_of a.player) a.player.entries };
}

impl PlayingGroup {
    /// A group of a setup, before its first step. It takes all the memory that the group ever has.
    pub(crate) fn open(
        alloc: Global,
        setup: &Setup,
        group: GroupNo,
    ) -> Result<PlayingGroup, NoMemory>
        requires group { IsGroupOf setup.now group.0 }
        ensures group { IfOk result (λ g. g ≡ unplayed setup.now group.0) }
        ensures playable { IfOk result (λ _. IsPlayable setup.now group.0) }
    {
        let cpus = cpus_of(alloc, setup, group)?;
        let player = Player::open(alloc, setup, group, cpus.as_slice())?;
        let cpu_views = look(alloc, &player, cpus.as_slice())?;
        let raises = no_counts(alloc, cpus.len())?;
        Ok(PlayingGroup {
            player,
            cpus,
            cpu_views,
            raises,
        })
    }

    /// How many steps were taken.
    pub(crate) fn len(&self) -> u64
        ensures count { result ≡ length self.now.entries }
        ensures few { result ≤ MOST_STEPS }
        ensures begun { IsBegunPlay (group_of self.now) self.now.entries }
        ensures playable { IsPlayable self.now.setup self.now.group }
    {
        self.player.count()
    }

    /// How many interrupts were raised at each processor of the group, by rising number.
    pub(crate) fn raises(&self) -> &[u64]
        ensures raises { AreRaises self.now result.now }
        ensures begun { IsBegunPlay (group_of self.now) self.now.entries }
    {
        self.raises.as_slice()
    }

    /// Takes the processor's next step, of its script or of its turns, in which it is so far. On `TurnOver` and `Ended`
    /// nothing is added.
    pub(crate) fn advance(&mut self, cpu: CpuNo, at: &mut Progress) -> Played
        requires cpu { IsProcessorOf (group_of self.old) cpu.0 }
        requires far { IsFar (group_of self.old) cpu.0 self.old.entries at.old }
        ensures outcome { IsOutcome self.old cpu.0 at.old result self.new at.new }
        ensures far { IsFar (group_of self.new) cpu.0 self.new.entries at.new }
        ensures begun { IsBegunPlay (group_of self.new) self.new.entries }
        ensures few { length self.new.entries ≤ MOST_STEPS }
    {
        match self.player.advance(cpu, at) {
            Played::Did(entry) => {
                count_raises(
                    &self.player,
                    self.cpus.as_slice(),
                    &mut self.cpu_views,
                    &mut self.raises,
                );
                Played::Did(entry)
            }
            Played::TurnOver => Played::TurnOver,
            Played::Ended => Played::Ended,
        }
    }

    /// The engine, with the same history.
    pub(crate) fn into_engine(self) -> KeepingEngine
        ensures same { result ≡ self }
        ensures begun { IsBegunPlay (group_of result) result.entries }
    {
        let PlayingGroup { player, .. } = self;
        player.into_engine()
    }
}
