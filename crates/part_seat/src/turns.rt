//! What a processor does at the turn of a semaphore's book.
ghost use Rattle.std.specs.Prelude.{◌≡◌, ◌+◌, ◌<◌, ◌^◌, false, length};
ghost use Rattle.turn_cell.specs.SeatViews.{split_off};
ghost use Rattle.split_inbox.specs.Books.{entry};
ghost use Rattle.split_inbox.specs.Sums.{sum_of};
ghost use Rattle.part_books.specs.PartBooks.{CanAsk, CanRelease};
ghost use Rattle.part_seat.specs.AtTurns.{About, HasGiven, IsFound};

use rt_base::{Ask, CpuNo, TaskNo};
use split_inbox::SemBook;
use split_rules::SemAct;
use std::sync::Wait;
use turn_cell::{Turn, TurnSeat};

/// A task of the processor asks for the semaphore, once the turn of its book has come.
pub(crate) fn ask<R: Wait>(
    rt: &R,
    turn: &Turn<SemBook>,
    seat: &mut TurnSeat<SemBook>,
    cpu: CpuNo,
    task: TaskNo,
) -> Ask
    requires cell { seat.old.cell ≡ turn.now.cell }
    requires seat { (seat.old.cpu ≡ cpu.0) × (seat.old.holds ≡ false) }
    requires few { About seat.old (λ s. sum_of s.quotas < 2 ^ 32) }
    requires may { About seat.old (λ s. (es : _) → IsFound s cpu.0 seat.old.seen es
        → CanAsk s es cpu.0 task.0) }
    ensures { About seat.old (λ s.
        HasGiven s cpu.0 (entry cpu task (SemAct.Ask result)) seat.old seat.new) }
{
    let mut book = turn.take(rt, seat);
    let _found = book.entries();
    let answer = book.ask(cpu, task);
    let _given = book.entries();
    turn.give(seat, book, &[]);
    answer
}

/// A task of the processor, which holds the semaphore, frees it, once the turn of its book has come. The answer is the task
/// that holds it from then on, if one waited, and the number of the entry.
pub(crate) fn release<R: Wait>(
    rt: &R,
    turn: &Turn<SemBook>,
    seat: &mut TurnSeat<SemBook>,
    cpu: CpuNo,
    task: TaskNo,
) -> (Option<TaskNo>, u32)
    requires cell { seat.old.cell ≡ turn.now.cell }
    requires seat { (seat.old.cpu ≡ cpu.0) × (seat.old.holds ≡ false) }
    requires few { About seat.old (λ s. sum_of s.quotas < 2 ^ 32) }
    requires may { About seat.old (λ s. (es : _) → IsFound s cpu.0 seat.old.seen es
        → CanRelease s es cpu.0 task.0) }
    ensures given { About seat.old (λ s.
        HasGiven s cpu.0 (entry cpu task (SemAct.Release result.0)) seat.old seat.new) }
    ensures number { About seat.old (λ s. result.1 + 1 ≡ length seat.new.seen) }
{
    let mut book = turn.take(rt, seat);
    let found = book.entries().len();
    let next = book.release(cpu, task);
    let _given = book.entries();
    turn.give(seat, book, &[]);
    (next, found as u32)
}

/// A seat with a copy of what this one has seen, to be handed over.
pub(crate) fn spare<R: Wait>(
    rt: &R,
    turn: &Turn<SemBook>,
    seat: &mut TurnSeat<SemBook>,
) -> TurnSeat<SemBook>
    requires cell { seat.old.cell ≡ turn.now.cell }
    requires rests { seat.old.holds ≡ false }
    ensures seat { seat.new ≡ seat.old }
    ensures copy { result ≡ split_off seat.old }
{
    // A split takes no memory, so the first one is made.
    for _ in rt.forever() {
        if let Ok(copy) = turn.split(seat) {
            return copy;
        }
    }
    unreachable!()
}
