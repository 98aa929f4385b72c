//! A split run: what its processors share.
ghost use Rattle.std.specs.Prelude.{◌≡◌, true, IfErr, IfOk};
ghost use Rattle.split_set.specs.SplitSets.{is_split_set};
ghost use Rattle.split_turns.specs.SplitTurns.{AreTurns};
ghost use Rattle.part_seat.specs.PartSeats.{with_room};
ghost use Rattle.part_seat.specs.Steps.{IsStep};
ghost use Rattle.split_part.specs.Ends.{end_of, AllGoOn, AllPlayed, HavePlayed, IsSplitEnd};
ghost use Rattle.split_part.specs.Openings.{turns_in};
ghost use Rattle.split_part.specs.Splits.{cells_in, AreSeatsOf, AreUnplayed, IsSeatOf};

use crate::closing::{books_of, histories_of, parted, rests_of, take_rests};
use crate::end::{PartHistories, SemHistories, SplitEnd};
use crate::opening::{apart, inboxes, partitions, quotas, seated};
use part_seat::{PartSeat, Played2};
use rt_base::NoMemory;
use rt_task::Setup;
use split_inbox::{Inbox, Names, SemBook};
use split_turns::SemTurns;
use std::alloc::Global;
use std::marker::Model;
use std::sync::Wait;
use turn_cell::Turn;

/// What the processors of a split run share: the turn of each semaphore's book, by rising number, and the inbox of each
/// processor.
#[derive(Drop)]
pub struct Split<N: Names> {
    setup: Setup,
    turns: Vec<Turn<SemBook>>,
    inboxes: Vec<Inbox<N>>,
}

impl<N: Names> Model for Split<N> {
    ghost use Rattle.rt_plays.specs.Room.{processor_count};
    ghost use Rattle.split_part.specs.Closings.{HaveCpus};
    ghost use Rattle.split_part.specs.Splits.{SplitOf};

    ghost Value = { SplitOf };

    ghost view = { λ a. record { setup = a.setup; turns = a.turns.items; inboxes = a.inboxes.items } };

    ghost invariant = { λ a. HaveCpus (processor_count a.setup) a.turns.items };
}

impl<N: Names> Split<N> {
    /// The processors of a split set before their first step, at these turns of its semaphores, which were opened for it:
    /// what they share, and the seat of each, by rising number.
    pub fn open(
        alloc: Global,
        setup: &Setup,
        turns: SemTurns,
    ) -> Result<(Split<N>, Vec<PartSeat<N>>), NoMemory>
        requires split { is_split_set setup.now ≡ true }
        requires turns { AreTurns setup.now turns }
        requires names { cells_in turns ≡ N.turns }
        ensures setup { IfOk result (λ r. r.0.setup ≡ setup.now) }
        ensures turns { IfOk result (λ r. r.0.turns ≡ turns_in turns) }
        ensures seats { IfOk result (λ r. AreSeatsOf r.0 r.1.items) }
        ensures unplayed { IfOk result (λ r. AreUnplayed r.1.items) }
    {
        let (turns, rows) = apart(alloc, turns)?;
        let parts = partitions(alloc, setup, rows)?;
        // A proof knows that the set is valid once its parts are read.
        let _parts = setup.parts();
        let quotas = quotas(alloc, setup)?;
        let (inboxes, posters, takers) = inboxes(alloc, parts.as_slice(), quotas.as_slice())?;
        let seats = seated(alloc, parts, posters, takers)?;
        let setup = setup.share()?;
        Ok((
            Split {
                setup,
                turns,
                inboxes,
            },
            seats,
        ))
    }

    /// Plays one step of a processor, as its seat does.
    pub fn step<R: Wait>(&self, rt: &R, seat: &mut PartSeat<N>) -> Result<Played2, NoMemory>
        requires { IsSeatOf self.now seat.old }
        ensures step { IfOk result (λ r. IsStep r seat.old seat.new) }
        ensures seat { IsSeatOf self.now seat.new }
        ensures memory { IfErr result (λ _. seat.new ≡ with_room seat.new.part.room seat.old) }
    {
        seat.step(rt, self.turns.as_slice(), self.inboxes.as_slice())
    }

    /// What the run has come to, once no processor plays any more: it takes what the inboxes still hold, partition by
    /// partition.
    pub fn close<R: Wait>(
        self,
        rt: &R,
        alloc: Global,
        seats: Vec<PartSeat<N>>,
    ) -> Result<SplitEnd, NoMemory>
        requires { AreSeatsOf self seats.items }
        ensures end { IfOk result (λ e. IsSplitEnd self.setup (end_of e)) }
        ensures later { IfOk result (λ e. AllGoOn seats.items (end_of e)) }
        ensures played { HavePlayed self.setup seats.items
            → IfOk result (λ e. AllPlayed self.setup (end_of e)) }
    {
        // A proof knows that the set is valid once its parts are read.
        let _parts = self.setup.parts();
        let Split {
            setup: _,
            turns,
            inboxes,
        } = self;
        let (parts, posters, takers) = parted(alloc, seats)?;
        let rests = rests_of(rt, alloc, inboxes, posters, takers)?;
        let parts = take_rests(alloc, turns.as_slice(), parts, rests)?;
        let (histories, rows) = histories_of(alloc, parts)?;
        let books = books_of(alloc, turns, rows)?;
        Ok(SplitEnd {
            sems: SemHistories::new(books),
            parts: PartHistories::new(histories),
        })
    }
}
