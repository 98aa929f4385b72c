//! A group that plays by turns, each processor in a thread of its own.
ghost use Rattle.std.specs.Prelude.{◌≡◌, ◌<◌, ◌≤◌, true, length, All, IfOk};
ghost use Rattle.rt_base.specs.declared.TheConstants.{MOST_CPUS};
ghost use Rattle.set_runs.specs.inside.CpuThreads.{AreOver, AreStill, IsAtWork};
ghost use Rattle.set_runs.specs.Runs.{AreDriven};

use crate::cpu_thread::{CpuThread, cpu_threads_of, seats_of};
use crate::start_barrier::StartBarrier;
use cpu_site::{CpuSeat, Gate, Site};
use rt_base::NoMemory;
use std::alloc::Global;
use std::sync::Wait;
use std::thread::{self, Threads};
use tick_clock::TickClock;

/// Plays a processor's turns, where all threads have come.
fn driven<R: Wait, G: Gate>(
    rt: &R,
    site: &Site,
    clock: &TickClock,
    start_barrier: &StartBarrier,
    mut cpu_thread: CpuThread,
    gate: &G,
) -> CpuThread
    requires { IsAtWork site.now.cell clock.now cpu_thread.seat.cpu cpu_thread }
    ensures { IsAtWork site.now.cell clock.now cpu_thread.seat.cpu result }
{
    if start_barrier.is_met() {
        cpu_thread.play_all(rt, site, clock, gate);
    }
    cpu_thread
}

/// Plays all processors, each in a thread of its own. Where a thread cannot be started none plays.
fn play_in_threads<R: Threads + Wait + Sync, G: Gate + Sync>(
    rt: &R,
    site: &Site,
    clock: &TickClock,
    start_barrier: &StartBarrier,
    cpu_threads: Vec<CpuThread>,
    gate: &G,
) -> Result<Vec<CpuThread>, NoMemory>
    requires { All (λ d. IsAtWork site.now.cell clock.now d.seat.cpu d) cpu_threads.items }
    ensures { IfOk result (λ v. AreStill site.now.cell clock.now cpu_threads.items v.items) }
{
    let play = |cpu_thread: CpuThread| -> CpuThread
        requires { IsAtWork site.now.cell clock.now cpu_thread.seat.cpu cpu_thread }
        ensures { IsAtWork site.entry.now.cell clock.entry.now cpu_thread.seat.cpu result }
    { driven(rt, site, clock, start_barrier, cpu_thread, gate) };
    Ok(thread::map_vec(rt, cpu_threads, &play)?)
}

/// Whether no step is left of any.
fn are_over(cpu_threads: &[CpuThread]) -> bool
    ensures { result ≡ true → AreOver cpu_threads.now }
{
    for cpu_thread in cpu_threads {
        if !cpu_thread.is_over {
            return false;
        }
    }
    true
}

/// Plays the next turn of each, where one is left.
fn play_round<R: Wait, G: Gate>(
    rt: &R,
    site: &Site,
    clock: &TickClock,
    cpu_threads: &mut [CpuThread],
    gate: &G,
)
    requires { All (λ d. IsAtWork site.now.cell clock.now d.seat.cpu d) cpu_threads.old }
    ensures { AreStill site.now.cell clock.now cpu_threads.old cpu_threads.new }
{
    for i in 0..cpu_threads.len() {
        cpu_threads[i].play_one(rt, site, clock, gate);
    }
}

/// Plays what is left of the turns, each turn of all before the next of any.
fn play_by_caller<R: Wait, G: Gate>(
    rt: &R,
    site: &Site,
    clock: &TickClock,
    cpu_threads: &mut [CpuThread],
    gate: &G,
)
    requires { All (λ d. IsAtWork site.now.cell clock.now d.seat.cpu d) cpu_threads.old }
    ensures still { AreStill site.now.cell clock.now cpu_threads.old cpu_threads.new }
    ensures over { AreOver cpu_threads.new }
{
    for _ in rt.forever() {
        if are_over(cpu_threads) {
            return;
        }
        play_round(rt, site, clock, cpu_threads, gate);
    }
    unreachable!()
}

/// Plays the turns of all seats' processors, each in a thread of its own. Where a thread cannot be started the caller plays
/// them all, each turn of all before the next of any.
pub(crate) fn drive_all_turns<R: Threads + Wait + Sync, G: Gate + Sync>(
    rt: &R,
    alloc: Global,
    site: &Site,
    seats: Vec<CpuSeat>,
    gate: &G,
) -> Result<Vec<CpuSeat>, NoMemory>
    requires seats { All (λ p. (p.cell ≡ site.now.cell) × (p.turns ≡ 0)) seats.items }
    requires some { 0 < length seats.items }
    requires few { length seats.items ≤ MOST_CPUS }
    ensures { IfOk result (λ v. AreDriven site.now.cell seats.items v.items) }
{
    let count = seats.len() as u32;
    let (clock, turns) = TickClock::open(alloc, count)?;
    let start_barrier = StartBarrier::of(count);
    let cpu_threads = cpu_threads_of(alloc, site, &clock, seats, turns)?;
    let mut cpu_threads = play_in_threads(rt, site, &clock, &start_barrier, cpu_threads, gate)?;
    play_by_caller(rt, site, &clock, cpu_threads.as_mut_slice(), gate);
    seats_of(alloc, cpu_threads)
}
