//! A group whose processors play in threads, each in one of its own.
ghost use Rattle.std.specs.Prelude.{◌≡◌, ◌<◌, ◌≤◌, length, All, IfOk};
ghost use Rattle.rt_base.specs.declared.TheConstants.{MOST_CPUS};
ghost use Rattle.rt_plays.specs.Groups.{IsGroupOf};
ghost use Rattle.set_runs.specs.Runs.{AreDriven, IsDriven, IsRunOf};

use crate::turn_run::drive_all_turns;
use cpu_site::{CpuSeat, Gate, Site, drive};
use group_engine::KeepingEngine;
use rt_base::{GroupNo, NoMemory};
use rt_task::{Drive, Setup};
use std::alloc::Global;
use std::sync::Wait;
use std::thread::{self, Threads};

/// Plays the steps of a seat's processor until none is left, and gives the seat back.
fn driven<R: Wait, G: Gate>(rt: &R, site: &Site, mut seat: CpuSeat, gate: &G) -> CpuSeat
    requires { seat.cell ≡ site.now.cell }
    ensures { IsDriven site.now.cell seat result }
{
    drive(rt, site, &mut seat, gate);
    seat
}

/// Plays the processors of all seats, each in a thread of its own. A processor whose thread cannot be started is played
/// by the caller.
fn drive_all<R: Threads + Wait + Sync, G: Gate + Sync>(
    rt: &R,
    site: &Site,
    seats: Vec<CpuSeat>,
    gate: &G,
) -> Result<Vec<CpuSeat>, NoMemory>
    requires { All (λ p. p.cell ≡ site.now.cell) seats.items }
    ensures { IfOk result (λ v. AreDriven site.now.cell seats.items v.items) }
{
    let play = |seat: CpuSeat| -> CpuSeat
        requires { seat.cell ≡ site.now.cell }
        ensures { IsDriven site.entry.now.cell seat result }
    { driven(rt, site, seat, gate) };
    Ok(thread::map_vec(rt, seats, &play)?)
}

/// Plays the steps or the turns of all seats' processors.
fn play_all<R: Threads + Wait + Sync, G: Gate + Sync>(
    rt: &R,
    alloc: Global,
    drive: &Drive,
    site: &Site,
    seats: Vec<CpuSeat>,
    gate: &G,
) -> Result<Vec<CpuSeat>, NoMemory>
    requires seats { All (λ p. (p.cell ≡ site.now.cell) × (p.turns ≡ 0)) seats.items }
    requires some { 0 < length seats.items }
    requires few { length seats.items ≤ MOST_CPUS }
    ensures { IfOk result (λ v. AreDriven site.now.cell seats.items v.items) }
{
    match drive {
        Drive::Steps(_) => drive_all(rt, site, seats, gate),
        Drive::Horizon(_) => drive_all_turns(rt, alloc, site, seats, gate),
    }
}

/// The engine of a group, once each of its processors has played its whole script, or all its turns.
pub(crate) fn run_group<R: Threads + Wait + Sync, G: Gate + Sync>(
    rt: &R,
    alloc: Global,
    setup: &Setup,
    group: GroupNo,
    gate: &G,
) -> Result<KeepingEngine, NoMemory>
    requires { IsGroupOf setup.now group.0 }
    ensures { IfOk result (λ engine. IsRunOf setup.now group.0 engine) }
{
    let (site, seats) = Site::open(alloc, setup, group)?;
    let seats = play_all(rt, alloc, &setup.parts().drive, &site, seats, gate)?;
    Ok(site.close(seats))
}
