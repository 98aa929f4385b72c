//! The seat of a processor at a split run.
ghost use Rattle.std.specs.Prelude.{◌≡◌, IfErr, IfOk};
ghost use Rattle.part_seat.specs.PartSeats.{IsPartition, IsPartSeat, IsUnplayed, with_room};
ghost use Rattle.part_seat.specs.Steps.{IsSeatOf, IsStep};

use crate::partition::Partition;
use crate::passed::Played2;
use crate::posts::play;
use crate::sender::Sender;
use rt_base::{CpuNo, NoMemory};
use split_inbox::{Inbox, Names, SemBook, Taker};
use split_rules::SplitEntry;
use std::marker::Model;
use std::sync::Wait;
use turn_cell::Turn;

/// The seat of a processor at a split run: its partition, its poster of each inbox, and the taker of its own. Contracts see
/// the partition's history, what was seen of the semaphores' histories, what was posted and what was taken.
#[derive(Drop)]
pub struct PartSeat<N: Names> {
    part: Partition,
    /// By the number of the inbox's processor.
    senders: Vec<Sender<N>>,
    taker: Taker<N>,
}

impl<N: Names> Model for PartSeat<N> {
    ghost use Rattle.part_seat.specs.PartSeats.{IsPartSeat, PartSeatView};

    ghost Value = { PartSeatView };

    ghost view = { λ a. record { part = a.part; posters = a.senders.items; taker = a.taker } };

    ghost invariant = { λ a. IsPartSeat N.turns
        (record { part = a.part; posters = a.senders.items; taker = a.taker }) };
}

impl<N: Names> PartSeat<N> {
    /// Plays one step of the processor: it takes a grant from its inbox, or else plays the next step of its script, at the
    /// turns and inboxes of all. It waits for the turn of a book and for other threads at an inbox, and need not return.
    ///
    /// Where memory runs out, nothing was played.
    pub fn step<R: Wait>(
        &mut self,
        rt: &R,
        turns: &[Turn<SemBook>],
        inboxes: &[Inbox<N>],
    ) -> Result<Played2, NoMemory>
        requires { IsSeatOf turns.now inboxes.now self.old }
        ensures step { IfOk result (λ r. IsStep r self.old self.new) }
        ensures memory { IfErr result (λ _. self.new ≡ with_room self.new.part.room self.old) }
    {
        self.part.reserve()?;
        // A proof knows that the history is legal once it is read.
        let _entries = self.part.entries();
        let cpu = self.part.cpu();
        let inbox = &inboxes[cpu.0 as usize];
        Ok(match inbox.take(rt, &mut self.taker) {
            Some(grant) => Played2::Did(self.part.take(turns, grant)),
            None => play(
                rt,
                &mut self.part,
                self.senders.as_mut_slice(),
                turns,
                inboxes,
            ),
        })
    }

    /// The seat of a partition that has played nothing, with its senders and its taker.
    pub fn new(part: Partition, senders: Vec<Sender<N>>, taker: Taker<N>) -> PartSeat<N>
        requires { IsUnplayed N.turns (record { part = part; posters = senders.items; taker = taker }) }
        ensures { result ≡ record { part = part; posters = senders.items; taker = taker } }
    {
        PartSeat {
            part,
            senders,
            taker,
        }
    }

    /// The processor.
    pub fn cpu(&self) -> CpuNo
        ensures { result.0 ≡ self.now.part.cpu }
    {
        self.part.cpu()
    }

    /// The partition's history: legal, and its steps are a first part of the script; and what the seat keeps.
    pub fn entries(&self) -> &[SplitEntry]
        ensures entries { result.now ≡ self.now.part.entries }
        ensures history { IsPartition self.now.part }
        ensures kept { IsPartSeat N.turns self.now }
    {
        self.part.entries()
    }

    /// The partition, its senders and its taker, once the processor plays no more.
    pub fn into_parts(self) -> (Partition, Vec<Sender<N>>, Taker<N>)
        ensures parts { record { part = result.0; posters = result.1.items; taker = result.2 } ≡ self }
        ensures kept { IsPartSeat N.turns self }
    {
        let PartSeat {
            part,
            senders,
            taker,
        } = self;
        (part, senders, taker)
    }
}
