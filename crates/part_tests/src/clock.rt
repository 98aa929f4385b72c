ghost use Rattle.std.specs.Prelude.{◌≡◌, ◌+◌, ◌<◌};
ghost use Rattle.tick_clock.specs.Clocks.{fresh};

use std::sync::Wait;
use std::test::Fail;
use std::thread;
use tick_clock::{ClockSeat, TickClock};

/// Two seats on one thread: the clock shows turn 1 once both have passed turn 0, and not while only one has.
#[test]
fn the_next_turn_comes_once_all_have_passed(rt: HostRuntime) -> Result<(), Fail> {
    let (clock, mut seats) = TickClock::open(rt.alloc(), 2)?;
    let mut second = seats.pop().expect(&rt, "a second seat");
    let mut first = seats.pop().expect(&rt, "a first seat");
    assert_eq!(rt; clock.look(&mut first), 0);
    clock.pass(&mut first);
    assert_eq!(rt; clock.look(&mut first), 0);
    assert_eq!(rt; clock.look(&mut second), 0);
    clock.pass(&mut second);
    assert_eq!(rt; clock.look(&mut first), 1);
    assert_eq!(rt; clock.look(&mut second), 1);
    Ok(())
}

// Passes one turn, once the clock shows it.
fn pass_one<R: Wait>(rt: &R, clock: &TickClock, seat: &mut ClockSeat, turn: u64)
    requires clock { seat.old.clock ≡ clock.now }
    requires turn { (seat.old.passes ≡ turn) × (turn < 10) }
    ensures { (seat.new.clock ≡ seat.old.clock) × (seat.new.passes ≡ turn + 1) }
{
    for _ in rt.forever() {
        if clock.look(seat) == turn {
            clock.pass(seat);
            return;
        }
        thread::yield_now();
    }
    unreachable!()
}

// Passes three turns, and says what the clock shows then.
fn pass_three<R: Wait>(rt: &R, clock: &TickClock, mut seat: ClockSeat) -> u64
    requires { seat ≡ fresh clock.now }
{
    pass_one(rt, clock, &mut seat, 0);
    pass_one(rt, clock, &mut seat, 1);
    pass_one(rt, clock, &mut seat, 2);
    clock.look(&mut seat)
}

/// Two threads: each has passed three turns, so that it finds turn 2 or 3, and the one that ends last finds turn 3.
#[test]
fn two_threads_pass_three_turns(rt: HostRuntime) -> Result<(), Fail> {
    let (clock, mut seats) = TickClock::open(rt.alloc(), 2)?;
    let second = seats.pop().expect(&rt, "a second seat");
    let first = seats.pop().expect(&rt, "a first seat");
    let (one, two) = thread::join(
        &rt,
        || pass_three(&rt, &clock, first),
        || pass_three(&rt, &clock, second),
    );
    assert_eq!(rt; one.max(two), 3);
    assert!(rt; one.min(two) >= 2);
    Ok(())
}
