//! The processors of a split run, each of which plays until its script is played.
ghost use Rattle.std.specs.Prelude.{◌≡◌, All, IfOk, Ok, map};
ghost use Rattle.split_part.specs.Splits.{AreSeatsOf, IsSeatOf};
ghost use Rattle.split_run.specs.inside.Driven.{AreAnswered, AreDriven, IsDriven};

use cpu_site::Gate;
use part_seat::{PartSeat, Played2};
use rt_base::NoMemory;
use split_inbox::Names;
use split_part::Split;
use std::alloc::Global;
use std::sync::Wait;
use std::thread::{self, Threads};

/// Plays the steps of a seat's processor until its script is played, and gives the seat back. The gate is asked before each
/// step, also before the one that finds none left.
fn driven<N: Names, R: Wait, G: Gate>(
    rt: &R,
    split: &Split<N>,
    mut seat: PartSeat<N>,
    gate: &G,
) -> Result<PartSeat<N>, NoMemory>
    requires { IsSeatOf split.now seat }
    ensures { IfOk result (λ after. IsDriven split.now seat after) }
{
    let cpu = seat.cpu();
    let mut asked: u32 = 0;
    for _ in rt.forever() {
        gate.before(rt, cpu, asked);
        asked = asked.saturating_add(1);
        match split.step(rt, &mut seat)? {
            Played2::Did(_) => {}
            Played2::Ended => return Ok(seat),
        }
    }
    unreachable!()
}

/// Plays the processors of all seats, each in a thread of its own. A processor whose thread cannot be started is played by
/// the caller.
fn drive_each<N: Names + Send + Sync, R: Threads + Wait + Sync, G: Gate + Sync>(
    rt: &R,
    split: &Split<N>,
    seats: Vec<PartSeat<N>>,
    gate: &G,
) -> Result<Vec<Result<PartSeat<N>, NoMemory>>, NoMemory>
    requires { All (λ a. IsSeatOf split.now a) seats.items }
    ensures { IfOk result (λ runs. AreAnswered split.now seats.items runs.items) }
{
    let play = |seat: PartSeat<N>| -> Result<PartSeat<N>, NoMemory>
        requires { IsSeatOf split.now seat }
        ensures { IfOk result (λ after. IsDriven split.entry.now seat after) }
    { driven(rt, split, seat, gate) };
    Ok(thread::map_vec(rt, seats, &play)?)
}

/// The seats, where memory ran out for none of them.
fn all_driven<N: Names>(
    alloc: Global,
    runs: Vec<Result<PartSeat<N>, NoMemory>>,
) -> Result<Vec<PartSeat<N>>, NoMemory>
    ensures { IfOk result (λ seats. runs.items ≡ map Ok seats.items) }
{
    let mut seats = Vec::new(alloc);
    for run in runs {
        let seat = run?;
        seats.push(seat)?;
    }
    Ok(seats)
}

/// Plays the processors of all seats of a run, each until its script is played, and gives the seats back.
pub(crate) fn drive_all<N: Names + Send + Sync, R: Threads + Wait + Sync, G: Gate + Sync>(
    rt: &R,
    alloc: Global,
    split: &Split<N>,
    seats: Vec<PartSeat<N>>,
    gate: &G,
) -> Result<Vec<PartSeat<N>>, NoMemory>
    requires { AreSeatsOf split.now seats.items }
    ensures { IfOk result (λ v. AreDriven split.now v.items) }
{
    let runs = drive_each(rt, split, seats, gate)?;
    all_driven(alloc, runs)
}
