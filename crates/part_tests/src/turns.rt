ghost use Rattle.std.specs.Prelude.{◌≡◌, ◌+◌, ◌++◌, ◌∷◌, [], IfOk, Some, false, true, length, ◌≤◌, ◌^◌};

use rt_base::NoMemory;
use std::alloc::{AllocError, Global};
use std::process::Abort;
use std::rt::Clock;
use std::sync::Wait;
use std::test::Fail;
use std::thread;
use std::time::Duration;
use turn_cell::{Story, Turn, TurnSeat};

/// Who wrote, and how often each of two processors was called.
#[derive(Drop)]
struct Diary {
    writers: Vec<u32>,
    calls: (u64, u64),
}

impl Story for Diary {
    ghost use Rattle.std.specs.Prelude.{◌∷◌, []};

    type Entry = u32;

    type Subject = ();

    ghost list = { λ d. d.writers.items };

    ghost cpu = { λ _ writer. writer };

    ghost raises = { λ d. d.calls.0 ∷ d.calls.1 ∷ [] };

    ghost subject = { λ _. tt };

    fn count(&self) -> u64 {
        self.writers.len() as u64
    }
}

impl Diary {
    // Adds an entry of this writer, who calls processor 1.
    fn write(&mut self, rt: &impl Abort, writer: u32)
        ensures list { self.new.writers.items ≡ self.old.writers.items ++ writer ∷ [] }
        ensures calls { (self.new.calls.0 ≡ self.old.calls.0)
            × (self.new.calls.1 ≡ self.old.calls.1 + 1) }
    {
        self.writers.push(writer).expect(rt, "room for an entry");
        self.calls.1 = self.calls.1.checked_add(1).expect(rt, "a call more");
    }
}

// Takes the turn, adds one entry of its processor, and gives it.
fn write_one<R: Wait + Abort>(rt: &R, turn: &Turn<Diary>, seat: &mut TurnSeat<Diary>, cpu: u32)
    requires cell { (seat.old.cell ≡ turn.now.cell) × (turn.now.cpus ≡ 2) }
    requires free { (seat.old.holds ≡ false) × (seat.old.cpu ≡ cpu) }
    ensures { (seat.new.cell ≡ seat.old.cell)
        × (seat.new.holds ≡ false)
        × (seat.new.cpu ≡ seat.old.cpu) }
{
    let mut diary = turn.take(rt, seat);
    assert!(rt; diary.count() < 1000, "a short diary");
    diary.write(rt, cpu);
    turn.give(seat, diary, &[1]);
}

// Takes the turn three times.
fn write_three<R: Wait + Abort>(
    rt: &R,
    turn: &Turn<Diary>,
    mut seat: TurnSeat<Diary>,
    cpu: u32,
) -> TurnSeat<Diary>
    requires cell { (seat.cell ≡ turn.now.cell) × (turn.now.cpus ≡ 2) }
    requires free { (seat.holds ≡ false) × (seat.cpu ≡ cpu) }
    ensures { (result.cell ≡ seat.cell) × (result.holds ≡ false) × (result.cpu ≡ cpu) }
{
    write_one(rt, turn, &mut seat, cpu);
    write_one(rt, turn, &mut seat, cpu);
    write_one(rt, turn, &mut seat, cpu);
    seat
}

// Keeps the turn for a while, and gives it with nothing new.
fn hold<R: Clock>(
    rt: &R,
    turn: &Turn<Diary>,
    mut seat: TurnSeat<Diary>,
    diary: Diary,
) -> TurnSeat<Diary>
    requires cell { (seat.cell ≡ turn.now.cell) × (seat.holds ≡ true) }
    requires subject { turn.now.cell.subject ≡ Some tt }
    requires diary { (diary.writers.items ≡ seat.seen)
        × (diary.calls.0 ∷ diary.calls.1 ∷ [] ≡ seat.raises)
        × (length seat.seen ≤ 2 ^ 62) }
    ensures { (result.cell ≡ seat.cell) × (result.holds ≡ false) × (result.cpu ≡ seat.cpu) }
{
    thread::sleep(rt, Duration::from_millis(20));
    turn.give(&mut seat, diary, &[]);
    seat
}

fn blank(alloc: Global) -> Diary
    ensures { (result.writers.items ≡ []) × (result.calls.0 ≡ 0) × (result.calls.1 ≡ 0) }
{
    Diary {
        writers: Vec::new(alloc),
        calls: (0, 0),
    }
}

fn both(
    alloc: Global,
    first: TurnSeat<Diary>,
    second: TurnSeat<Diary>,
) -> Result<Vec<TurnSeat<Diary>>, AllocError>
    ensures { IfOk result (λ seats. seats.items ≡ first ∷ second ∷ []) }
{
    let mut seats = Vec::new(alloc);
    seats.push(first)?;
    seats.push(second)?;
    Ok(seats)
}

// Who wrote in the turn's diary, once both seats are back.
fn writers(
    alloc: Global,
    turn: Turn<Diary>,
    first: TurnSeat<Diary>,
    second: TurnSeat<Diary>,
) -> Result<Vec<u32>, AllocError>
    requires cpus { turn.cpus ≡ 2 }
    requires first { (first.cell ≡ turn.cell) × (first.holds ≡ false) × (first.cpu ≡ 0) }
    requires second { (second.cell ≡ turn.cell) × (second.holds ≡ false) × (second.cpu ≡ 1) }
{
    let seats = both(alloc, first, second)?;
    Ok(turn.close(seats).writers)
}

/// Two processors on one thread: each finds what the other wrote, the word of the one that was called has risen, and at
/// the end all is there.
#[test]
fn two_processors_on_one_thread(rt: HostRuntime) -> Result<(), Fail> {
    let (turn, mut seats) = Turn::open(rt.alloc(), blank(rt.alloc()), 2)?;
    let mut second = seats.pop().expect(&rt, "a second seat");
    let mut first = seats.pop().expect(&rt, "a first seat");
    assert_eq!(rt; turn.irq_word(&mut second, 1), 0);
    write_one(&rt, &turn, &mut first, 0);
    assert_eq!(rt; turn.irq_word(&mut second, 1), 1);
    write_one(&rt, &turn, &mut second, 1);
    write_one(&rt, &turn, &mut first, 0);
    assert_eq!(rt; turn.irq_word(&mut first, 0), 0);
    assert_eq!(rt; turn.irq_word(&mut first, 1), 3);
    let all = writers(rt.alloc(), turn, first, second)?;
    assert_eq!(rt; all.as_slice(), &[0, 1, 0][..]);
    Ok(())
}

/// Two threads, in whatever order: at the end there is what each of them wrote, and nothing else.
#[test]
fn two_threads_write_three_each(rt: HostRuntime) -> Result<(), Fail> {
    let (turn, mut seats) = Turn::open(rt.alloc(), blank(rt.alloc()), 2)?;
    let second = seats.pop().expect(&rt, "a second seat");
    let first = seats.pop().expect(&rt, "a first seat");
    let (first, second) = thread::join(
        &rt,
        || write_three(&rt, &turn, first, 0),
        || write_three(&rt, &turn, second, 1),
    );
    let all = writers(rt.alloc(), turn, first, second)?;
    assert_eq!(rt; all.iter().filter(|writer| **writer == 0).count(), 3);
    assert_eq!(rt; all.iter().filter(|writer| **writer == 1).count(), 3);
    assert_eq!(rt; all.len(), 6);
    Ok(())
}

/// A thread that finds the turn held for long sleeps, and is woken when it is given.
#[test]
fn a_thread_that_sleeps_is_woken(rt: HostRuntime) -> Result<(), Fail> {
    let (turn, mut seats) = Turn::open(rt.alloc(), blank(rt.alloc()), 2)?;
    let second = seats.pop().expect(&rt, "a second seat");
    let mut first = seats.pop().expect(&rt, "a first seat");
    let diary = turn.take(&rt, &mut first);
    assert_eq!(rt; diary.count(), 0);
    let (first, second) = thread::join(
        &rt,
        || hold(&rt, &turn, first, diary),
        || write_three(&rt, &turn, second, 1),
    );
    let all = writers(rt.alloc(), turn, first, second)?;
    assert_eq!(rt; all.as_slice(), &[1, 1, 1][..]);
    Ok(())
}

// Hands what the first seat has seen to the second one.
fn hand_over(
    turn: &Turn<Diary>,
    first: &mut TurnSeat<Diary>,
    second: &mut TurnSeat<Diary>,
) -> Result<(), NoMemory>
    requires cells { (first.old.cell ≡ turn.now.cell) × (second.old.cell ≡ turn.now.cell) }
    requires free { (first.old.holds ≡ false) × (second.old.holds ≡ false) }
    ensures first { first.new ≡ first.old }
    ensures second { (second.new.cell ≡ second.old.cell)
        × (second.new.holds ≡ false)
        × (second.new.cpu ≡ second.old.cpu) }
{
    let copy = turn.split(first)?;
    turn.join(second, copy);
    Ok(())
}

/// A seat that was split off is joined into another one, before that has seen anything and once it has seen more.
#[test]
fn a_seat_is_split_off_and_joined(rt: HostRuntime) -> Result<(), Fail> {
    let (turn, mut seats) = Turn::open(rt.alloc(), blank(rt.alloc()), 2)?;
    let mut second = seats.pop().expect(&rt, "a second seat");
    let mut first = seats.pop().expect(&rt, "a first seat");
    write_one(&rt, &turn, &mut first, 0);
    write_one(&rt, &turn, &mut first, 0);
    hand_over(&turn, &mut first, &mut second)?;
    write_one(&rt, &turn, &mut second, 1);
    hand_over(&turn, &mut first, &mut second)?;
    let all = writers(rt.alloc(), turn, first, second)?;
    assert_eq!(rt; all.as_slice(), &[0, 0, 1][..]);
    Ok(())
}
