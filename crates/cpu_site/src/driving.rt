//! A processor that plays until no step of it is left.
ghost use Rattle.std.specs.Prelude.{◌≡◌, ◌+◌, false, if◌then◌else◌};
ghost use Rattle.rt_plays.specs.Drives.{horizon};
ghost use Rattle.rt_plays.specs.Plays.{IsBegunPlay};
ghost use Rattle.tick_clock.specs.Clocks.{last_turn};
ghost use Rattle.turn_cell.specs.Words.{StartsWith};
ghost use Rattle.cpu_site.specs.Playing.{IsOver};
ghost use Rattle.cpu_site.specs.Seats.{group_at, About};

use crate::gate::Gate;
use crate::played::Played;
use crate::site::{CpuSeat, Site};
use std::sync::Wait;
use tick_clock::{ClockSeat, TickClock};

/// Plays a processor's steps until none is left, and asks the gate before each play.
pub fn drive<R: Wait, G: Gate>(rt: &R, site: &Site, seat: &mut CpuSeat, gate: &G)
    requires { seat.old.cell ≡ site.now.cell }
    ensures over { About site.now.cell (λ s. IsOver (group_at s) seat.old.cpu seat.new.seen) }
    ensures begun { About site.now.cell (λ s. IsBegunPlay (group_at s) seat.new.seen) }
    ensures later { StartsWith seat.new.seen seat.old.seen }
    ensures same { (seat.new.cell ≡ seat.old.cell)
        × (seat.new.cpu ≡ seat.old.cpu)
        × (seat.new.looks ≡ seat.old.looks) }
{
    for _ in rt.forever() {
        seat.ask(rt, gate);
        match site.play(rt, seat) {
            Played::Did(_) | Played::TurnOver => {}
            Played::Ended => return,
        }
    }
    unreachable!()
}

/// Waits until the clock shows this turn.
fn await_turn<R: Wait>(rt: &R, clock: &TickClock, turns: &mut ClockSeat, turn: u64)
    requires { turns.old.clock ≡ clock.now }
    ensures shown { last_turn turns.new ≡ turn }
    ensures same { (turns.new.clock ≡ clock.now) × (turns.new.passes ≡ turns.old.passes) }
{
    for _ in rt.forever() {
        if clock.look(turns) == turn {
            return;
        }
        clock.sleep_before(rt, turn);
    }
    unreachable!()
}

/// Plays the processor's next turn: waits until the clock shows it, plays until it is over, and passes. It is `true` where
/// the seat then gave one turn more as over, and `false` where no step is left: then there is no such turn.
pub fn play_turn<R: Wait, G: Gate>(
    rt: &R,
    site: &Site,
    seat: &mut CpuSeat,
    clock: &TickClock,
    turns: &mut ClockSeat,
    gate: &G,
) -> bool
    requires site { seat.old.cell ≡ site.now.cell }
    requires clock { turns.old.clock ≡ clock.now }
    requires passes { turns.old.passes ≡ seat.old.turns }
    ensures over { result ≡ false → About site.now.cell (λ s.
        IsOver (group_at s) seat.old.cpu seat.new.seen × (seat.new.turns ≡ horizon s.setup.drive)) }
    ensures turns { seat.new.turns ≡ (if result then seat.old.turns + 1 else seat.old.turns) }
    ensures passes { turns.new.passes ≡ seat.new.turns }
    ensures clock { turns.new.clock ≡ turns.old.clock }
    ensures later { StartsWith seat.new.seen seat.old.seen }
    ensures same { (seat.new.cell ≡ seat.old.cell)
        × (seat.new.cpu ≡ seat.old.cpu)
        × (seat.new.looks ≡ seat.old.looks) }
{
    await_turn(rt, clock, turns, seat.turns());
    for _ in rt.forever() {
        seat.ask(rt, gate);
        match site.play(rt, seat) {
            Played::Did(_) => {}
            Played::TurnOver => {
                clock.pass(turns);
                return true;
            }
            Played::Ended => return false,
        }
    }
    unreachable!()
}

/// Plays a processor's turns until no step is left, each when the clock shows it, and asks the gate before each play.
pub fn drive_turns<R: Wait, G: Gate>(
    rt: &R,
    site: &Site,
    seat: &mut CpuSeat,
    clock: &TickClock,
    turns: &mut ClockSeat,
    gate: &G,
)
    requires site { seat.old.cell ≡ site.now.cell }
    requires clock { turns.old.clock ≡ clock.now }
    requires passes { turns.old.passes ≡ seat.old.turns }
    ensures over { About site.now.cell (λ s. IsOver (group_at s) seat.old.cpu seat.new.seen) }
    ensures passes { turns.new.passes ≡ seat.new.turns }
    ensures all { About site.now.cell (λ s. turns.new.passes ≡ horizon s.setup.drive) }
    ensures clock { turns.new.clock ≡ turns.old.clock }
    ensures later { StartsWith seat.new.seen seat.old.seen }
    ensures same { (seat.new.cell ≡ seat.old.cell)
        × (seat.new.cpu ≡ seat.old.cpu)
        × (seat.new.looks ≡ seat.old.looks) }
{
    for _ in rt.forever() {
        if !play_turn(rt, site, seat, clock, turns, gate) {
            return;
        }
    }
    unreachable!()
}
