//! The processors of a group that plays by turns.
ghost use Rattle.std.specs.Prelude.{◌≡◌, length, map, All, IfOk};
ghost use Rattle.tick_clock.specs.Clocks.{fresh};
ghost use Rattle.set_runs.specs.inside.CpuThreads.{AreAtWork, IsAtWork};

use cpu_site::{CpuSeat, Gate, Site, drive_turns, play_turn};
use rt_base::NoMemory;
use std::alloc::Global;
use std::sync::Wait;
use tick_clock::{ClockSeat, TickClock};

/// A processor's seat at its site, its seat at the clock of the turns, and whether it is known that no step of it is left.
#[derive(Drop)]
pub(crate) struct CpuThread {
    pub(crate) seat: CpuSeat,
    pub(crate) turns: ClockSeat,
    pub(crate) is_over: bool,
}

/// The threads of the processors of these seats, which have given no turn as over, each with a seat of the clock.
pub(crate) fn cpu_threads_of(
    alloc: Global,
    site: &Site,
    clock: &TickClock,
    seats: Vec<CpuSeat>,
    mut turns: Vec<ClockSeat>,
) -> Result<Vec<CpuThread>, NoMemory>
    requires seats { All (λ p. (p.cell ≡ site.now.cell) × (p.turns ≡ 0)) seats.items }
    requires turns { All (λ t. t ≡ fresh clock.now) turns.items }
    requires count { length turns.items ≡ length seats.items }
    ensures { IfOk result (λ v. AreAtWork site.now.cell clock.now seats.items v.items) }
{
    let mut cpu_threads = Vec::new(alloc);
    for seat in seats {
        let Some(turns) = turns.pop() else {
            unreachable!()
        };
        let cpu_thread = CpuThread {
            seat,
            turns,
            is_over: false,
        };
        cpu_threads.push(cpu_thread)?;
    }
    Ok(cpu_threads)
}

/// The seats that the threads have.
pub(crate) fn seats_of(alloc: Global, cpu_threads: Vec<CpuThread>) -> Result<Vec<CpuSeat>, NoMemory>
    ensures { IfOk result (λ v. v.items ≡ map (λ d. d.seat) cpu_threads.items) }
{
    let mut seats = Vec::new(alloc);
    for cpu_thread in cpu_threads {
        let CpuThread { seat, .. } = cpu_thread;
        seats.push(seat)?;
    }
    Ok(seats)
}

impl CpuThread {
    /// Plays the processor's turns until no step of it is left, each when the clock shows it.
    pub(crate) fn play_all<R: Wait, G: Gate>(
        &mut self,
        rt: &R,
        site: &Site,
        clock: &TickClock,
        gate: &G,
    )
        requires { IsAtWork site.now.cell clock.now self.old.seat.cpu self.old }
        ensures { IsAtWork site.now.cell clock.now self.old.seat.cpu self.new }
    {
        drive_turns(rt, site, &mut self.seat, clock, &mut self.turns, gate);
        self.is_over = true;
    }

    /// Plays the processor's next turn, where one is left.
    pub(crate) fn play_one<R: Wait, G: Gate>(
        &mut self,
        rt: &R,
        site: &Site,
        clock: &TickClock,
        gate: &G,
    )
        requires { IsAtWork site.now.cell clock.now self.old.seat.cpu self.old }
        ensures { IsAtWork site.now.cell clock.now self.old.seat.cpu self.new }
    {
        if !self.is_over {
            let was_left = play_turn(rt, site, &mut self.seat, clock, &mut self.turns, gate);
            self.is_over = !was_left;
        }
    }
}
