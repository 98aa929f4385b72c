//! A partition with its seats at the turns of the semaphores.
ghost use Rattle.std.specs.Prelude.{◌≡◌, ◌-◌, ◌<◌, ◌≤◌, true, length, map, slice_get, IfNone, IfOk, IfSome, Some};
ghost use Rattle.rt_base.specs.TaskNos.{numbers};
ghost use Rattle.rt_plays.specs.Room.{processor_count};
ghost use Rattle.split_rules.specs.PartLinks.{tasks};
ghost use Rattle.split_rules.specs.PartHistories.{steps_of};
ghost use Rattle.split_rules.specs.SemHistories.{seat_of};
ghost use Rattle.split_set.specs.SplitSets.{is_split_set};
ghost use Rattle.turn_cell.specs.SeatViews.{split_off};
ghost use Rattle.part_player.specs.Players.{own_script};
ghost use Rattle.part_seat.specs.PartSeats.{IsPartition};
ghost use Rattle.part_seat.specs.AtTurns.{HasPlayed, HasTaken, IsNext, taken_claim};
ghost use Rattle.part_seat.specs.Partitions.{AreUnused, books_in, cells_of, group_of, past_at, unplayed};

use crate::moves::{asks, frees};
use crate::passed::PlayedStep;
use crate::turns::spare;
use part_player::{Begun, Player};
use part_state::PartReply;
use rt_base::{CpuNo, NoMemory, SemNo, TaskNo};
use rt_task::Setup;
use split_inbox::{Grant, Names, SemBook};
use split_rules::SplitEntry;
use std::alloc::Global;
use std::marker::Model;
use std::sync::Wait;
use turn_cell::{Turn, TurnSeat};

/// The partition of a processor, and its seat at the turn of each semaphore's book. Contracts see its history, and what the
/// seats have seen. After `open` no call but `reserve` takes memory.
#[derive(Drop)]
pub struct Partition {
    player: Player,
    /// By rising number of the semaphore.
    seats: Vec<TurnSeat<SemBook>>,
}

impl Model for Partition {
    ghost use Rattle.std.specs.Prelude.{◌≡◌, false};
    ghost use Rattle.part_player.specs.Players.{past_at};
    ghost use Rattle.part_seat.specs.Partitions.{IsMeeting, PartOf};

    ghost Value = { PartOf };

    ghost view = { λ a. record {
      setup = a.player.setup;
      cpu = a.player.cpu;
      entries = a.player.entries;
      seats = a.seats.items;
      room = a.player.room;
    } };

    ghost invariant = { λ a. (a.player.begun ≡ false)
        × IsMeeting a.player.setup a.player.cpu a.seats.items (past_at a.player) };
}

impl Partition {
    /// The partition of a processor of a split set, before its first step, with its seats at the turns, which have seen
    /// nothing.
    pub fn open(
        alloc: Global,
        setup: &Setup,
        cpu: CpuNo,
        seats: Vec<TurnSeat<SemBook>>,
    ) -> Result<Partition, NoMemory>
        requires split { is_split_set setup.now ≡ true }
        requires there { cpu.0 < processor_count setup.now }
        requires seats { AreUnused setup.now cpu.0 seats.items }
        ensures { IfOk result (λ a. a ≡ unplayed setup.now cpu.0 seats.items a.room) }
    {
        let player = Player::open(alloc, setup, cpu)?;
        Ok(Partition { player, seats })
    }

    /// Takes room for one entry more, if there is none.
    pub fn reserve(&mut self) -> Result<(), NoMemory>
        ensures room { IfOk result (λ _. 0 < self.new.room) }
        ensures same { self.new ≡ record self.old { room = self.new.room } }
    {
        self.player.reserve()
    }

    /// Plays the next step of the script, if one is left. At a semaphore it waits for the turn of its book, and the call
    /// need not return.
    pub fn play<R: Wait>(&mut self, rt: &R, turns: &[Turn<SemBook>]) -> Option<PlayedStep>
        requires room { 0 < self.old.room }
        requires turns { map (λ t. t.cell) turns.now ≡ cells_of self.old.seats }
        ensures ended { IfNone result (steps_of self.old.cpu self.old.entries
            ≡ own_script self.old.setup self.old.cpu) }
        ensures still { IfNone result (self.new ≡ self.old) }
        ensures played { IfSome result (λ r. HasPlayed self.old self.new r) }
    {
        // A proof knows that the history is legal once it is read.
        let _entries = self.player.entries();
        let Begun { step, reply } = self.player.begin()?;
        let seats = self.seats.as_mut_slice();
        match reply {
            PartReply::Is(reply) => {
                let entry = self.player.finish(step, reply);
                Some(PlayedStep {
                    entry,
                    passed: None,
                })
            }
            PartReply::Asks(task, sem) => {
                Some(asks(rt, &mut self.player, seats, turns, step, task, sem))
            }
            PartReply::Frees(task, sem) => {
                Some(frees(rt, &mut self.player, seats, turns, step, task, sem))
            }
        }
    }

    /// Takes a grant to a task of the partition, which was not taken before.
    pub fn take<N: Names>(&mut self, turns: &[Turn<SemBook>], grant: Grant<N>) -> SplitEntry
        requires room { 0 < self.old.room }
        requires turns { map (λ t. t.cell) turns.now ≡ cells_of self.old.seats }
        requires names { cells_of self.old.seats ≡ N.turns }
        requires home { seat_of (group_of self.old) grant.claim.task ≡ self.old.cpu }
        requires next { IsNext (books_in self.old.seats) (past_at self.old)
            (taken_claim grant.claim) }
        ensures { HasTaken self.old self.new grant.claim result }
    {
        // A proof knows that the history is legal once it is read.
        let _entries = self.player.entries();
        let (sem, no, task) = (grant.sem(), grant.no(), grant.task());
        let position = sem.0 as usize - 1;
        turns[position].join(&mut self.seats[position], grant.into_seen());
        self.player.take(sem, no, task)
    }

    /// A seat with a copy of what this partition has seen of a semaphore's history, to be handed over.
    pub fn spare<R: Wait>(
        &mut self,
        rt: &R,
        turns: &[Turn<SemBook>],
        sem: SemNo,
    ) -> TurnSeat<SemBook>
        requires turns { map (λ t. t.cell) turns.now ≡ cells_of self.old.seats }
        requires low { 1 ≤ sem.0 }
        requires high { sem.0 ≤ length self.old.seats }
        ensures seats { self.new ≡ self.old }
        ensures copy { IfSome (slice_get self.old.seats (sem.0 - 1)) (λ a. result ≡ split_off a) }
    {
        let position = sem.0 as usize - 1;
        spare(rt, &turns[position], &mut self.seats[position])
    }

    /// The history: legal, and its steps are a first part of the script.
    pub fn entries(&self) -> &[SplitEntry]
        ensures entries { result.now ≡ self.now.entries }
        ensures kept { IsPartition self.now }
    {
        self.player.entries()
    }

    /// The processor.
    pub fn cpu(&self) -> CpuNo
        ensures { result.0 ≡ self.now.cpu }
    {
        self.player.cpu()
    }

    /// The tasks of the partition, by rising number.
    pub fn tasks(&self) -> &[TaskNo]
        ensures { numbers result.now ≡ tasks (group_of self.now) self.now.cpu }
    {
        self.player.tasks()
    }

    /// The set.
    pub fn setup(&self) -> &Setup
        ensures { result.now ≡ self.now.setup }
    {
        self.player.setup()
    }

    /// The history and the seats, once nothing comes any more.
    pub fn into_parts(self) -> (Vec<SplitEntry>, Vec<TurnSeat<SemBook>>)
        ensures entries { result.0.items ≡ self.entries }
        ensures seats { result.1.items ≡ self.seats }
        ensures kept { IsPartition self }
    {
        let Partition { player, seats } = self;
        (player.into_entries(), seats)
    }
}
