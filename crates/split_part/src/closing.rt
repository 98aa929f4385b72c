//! The end of a split run: what the inboxes still hold is taken, partition by partition, and the books of the turns are closed.
ghost use Rattle.std.specs.Prelude.{◌≡◌, All, IfOk, length, map, reverse};
ghost use Rattle.part_seat.specs.Partitions.{cells_of};
ghost use Rattle.part_seat.specs.PartSeats.{IsPartSeat, IsPartition, inboxes_of};
ghost use Rattle.split_part.specs.Closings.{AreRests, AreResting, CanTake, CanTakeEach, HasTakenAll, HaveCpus, HaveTaken, IsTold, claims_in};
ghost use Rattle.split_part.specs.Columns.{AreBoth, AreFrom};
ghost use Rattle.split_part.specs.inside.Deals.{lists};
ghost use Rattle.split_part.specs.Openings.{inboxes_at};

use crate::deal::{pop_each, turn_round};
use crate::senders::posters_of;
use part_seat::{PartSeat, Partition};
use rt_base::NoMemory;
use split_inbox::{Grant, Inbox, Names, Poster, SemBook, Taker};
use split_rules::{SemEntry, SplitEntry};
use std::alloc::Global;
use std::sync::Wait;
use turn_cell::{Turn, TurnSeat};

/// The partitions of the seats, the posters of each, and the takers, in the order of the seats.
pub(crate) fn parted<N: Names>(
    alloc: Global,
    seats: Vec<PartSeat<N>>,
) -> Result<(Vec<Partition>, Vec<Vec<Poster<N>>>, Vec<Taker<N>>), NoMemory>
    ensures parts { IfOk result (λ r. r.0.items ≡ map (λ a. a.part) seats.items) }
    ensures posters { IfOk result (λ r. lists r.1.items ≡ map (λ a. a.posters) seats.items) }
    ensures takers { IfOk result (λ r. r.2.items ≡ map (λ a. a.taker) seats.items) }
    ensures kept { IfOk result (λ r. All (IsPartSeat N.turns) seats.items) }
{
    let mut parts = Vec::new(alloc);
    let mut rows = Vec::new(alloc);
    let mut takers = Vec::new(alloc);
    for seat in seats {
        let (part, senders, taker) = seat.into_parts();
        parts.push(part)?;
        rows.push(posters_of(alloc, senders)?)?;
        takers.push(taker)?;
    }
    Ok((parts, rows, takers))
}

/// What is left of each inbox, that of the last first.
pub(crate) fn rests_of<N: Names, R: Wait>(
    rt: &R,
    alloc: Global,
    mut inboxes: Vec<Inbox<N>>,
    mut rows: Vec<Vec<Poster<N>>>,
    mut takers: Vec<Taker<N>>,
) -> Result<Vec<Vec<Grant<N>>>, NoMemory>
    requires takers { inboxes.items ≡ inboxes_at takers.items }
    requires posters { All (λ row. inboxes_of row ≡ inboxes.items) (lists rows.items) }
    ensures { IfOk result (λ v.
        AreRests (lists rows.items) takers.items (lists (reverse v.items))) }
{
    let mut rests = Vec::new(alloc);
    while let Some(inbox) = inboxes.pop() {
        let Some(taker) = takers.pop() else {
            unreachable!()
        };
        let (left, posters) = pop_each(alloc, rows)?;
        rows = left;
        rests.push(inbox.close(rt, posters, taker))?;
    }
    Ok(rests)
}

/// The partition takes what is left of its inbox.
fn take_rest<N: Names>(
    turns: &[Turn<SemBook>],
    part: &mut Partition,
    rest: Vec<Grant<N>>,
) -> Result<(), NoMemory>
    requires turns { map (λ t. t.cell) turns.now ≡ cells_of part.old.seats }
    requires names { cells_of part.old.seats ≡ N.turns }
    requires can { CanTake part.old (claims_in rest.items) }
    ensures { IfOk result (λ _. HasTakenAll part.old part.new (claims_in rest.items)) }
{
    for grant in rest {
        part.reserve()?;
        // A proof knows that the history is legal once it is read.
        let _entries = part.entries();
        let _entry = part.take(turns, grant);
    }
    Ok(())
}

/// Each partition takes what is left of its inbox, where what is left of the last inbox is first.
pub(crate) fn take_rests<N: Names>(
    alloc: Global,
    turns: &[Turn<SemBook>],
    parts: Vec<Partition>,
    mut rests: Vec<Vec<Grant<N>>>,
) -> Result<Vec<Partition>, NoMemory>
    requires turns { All (λ a. map (λ t. t.cell) turns.now ≡ cells_of a.seats) parts.items }
    requires names { All (λ a. cells_of a.seats ≡ N.turns) parts.items }
    requires count { length rests.items ≡ length parts.items }
    requires can { CanTakeEach parts.items (lists (reverse rests.items)) }
    ensures { IfOk result (λ v. HaveTaken parts.items (lists (reverse rests.items)) v.items) }
{
    let mut taken = Vec::new(alloc);
    for mut part in parts {
        let Some(rest) = rests.pop() else {
            unreachable!()
        };
        take_rest(turns, &mut part, rest)?;
        taken.push(part)?;
    }
    Ok(taken)
}

/// The histories of the partitions, and the seats of each at the turns.
pub(crate) fn histories_of(
    alloc: Global,
    parts: Vec<Partition>,
) -> Result<(Vec<Vec<SplitEntry>>, Vec<Vec<TurnSeat<SemBook>>>), NoMemory>
    ensures histories { IfOk result (λ r. lists r.0.items ≡ map (λ a. a.entries) parts.items) }
    ensures seats { IfOk result (λ r. lists r.1.items ≡ map (λ a. a.seats) parts.items) }
    ensures kept { IfOk result (λ r. All IsPartition parts.items) }
{
    let mut histories = Vec::new(alloc);
    let mut rows = Vec::new(alloc);
    for part in parts {
        let (entries, seats) = part.into_parts();
        histories.push(entries)?;
        rows.push(seats)?;
    }
    Ok((histories, rows))
}

/// The histories of the books of the turns, once the seats of all processors are back.
pub(crate) fn books_of(
    alloc: Global,
    mut turns: Vec<Turn<SemBook>>,
    mut rows: Vec<Vec<TurnSeat<SemBook>>>,
) -> Result<Vec<Vec<SemEntry>>, NoMemory>
    requires cells { All (λ row. map (λ t. t.cell) turns.items ≡ cells_of row) (lists rows.items) }
    requires seats { AreFrom AreResting 0 (lists rows.items) }
    requires cpus { HaveCpus (length rows.items) turns.items }
    ensures count { IfOk result (λ v. length v.items ≡ length turns.items) }
    ensures told { IfOk result (λ v.
        All (λ row. AreBoth IsTold row (lists v.items)) (lists rows.items)) }
{
    let mut books = Vec::new(alloc);
    while let Some(turn) = turns.pop() {
        let (left, seats) = pop_each(alloc, rows)?;
        rows = left;
        let book = turn.close(seats);
        books.push(book.entries().to_vec(alloc)?)?;
    }
    turn_round(&mut books);
    Ok(books)
}
