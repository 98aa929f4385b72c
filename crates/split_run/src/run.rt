//! A split run of a set, and its text.
ghost use Rattle.std.specs.Prelude.{◌≡◌, true, IfOk};
ghost use Rattle.split_part.specs.Ends.{end_of};
ghost use Rattle.split_part.specs.Splits.{AreSeatsOf, cells_in};
ghost use Rattle.split_run.specs.RunEnds.{IsRunEnd};
ghost use Rattle.split_set.specs.SplitSets.{is_split_set};
ghost use Rattle.split_text.specs.SplitText.{split_text};
ghost use Rattle.split_turns.specs.SplitTurns.{AreTurns};

use crate::drive::drive_all;
use cpu_site::Gate;
use part_seat::PartSeat;
use rt_base::NoMemory;
use rt_task::Setup;
use split_inbox::Names;
use split_part::{Split, SplitEnd};
use split_turns::SemTurns;
use split_writer::split_text_of;
use std::alloc::Global;
use std::marker::Brand;
use std::sync::Wait;
use std::thread::Threads;

/// Plays the processors of all seats of a run until each script is played, each in a thread of its own, and gives what the run
/// has come to. The gate is asked before each step, also before the one that finds none left.
///
/// A processor whose thread cannot be started is played by the caller.
pub fn play_out<N: Names + Send + Sync, R: Threads + Wait + Sync, G: Gate + Sync>(
    rt: &R,
    alloc: Global,
    split: Split<N>,
    seats: Vec<PartSeat<N>>,
    gate: &G,
) -> Result<SplitEnd, NoMemory>
    requires { AreSeatsOf split seats.items }
    ensures { IfOk result (λ e. IsRunEnd split.setup (end_of e)) }
{
    let seats = drive_all(rt, alloc, &split, seats, gate)?;
    split.close(rt, alloc, seats)
}

/// Plays the processors of a split set at these turns of its semaphores, which were opened for it.
fn run_named<N: Names + Send + Sync, R: Threads + Wait + Sync, G: Gate + Sync>(
    rt: &R,
    alloc: Global,
    setup: &Setup,
    turns: SemTurns,
    gate: &G,
) -> Result<SplitEnd, NoMemory>
    requires split { is_split_set setup.now ≡ true }
    requires turns { AreTurns setup.now turns }
    requires names { cells_in turns ≡ N.turns }
    ensures { IfOk result (λ e. IsRunEnd setup.now (end_of e)) }
{
    let (split, seats) = Split::<N>::open(alloc, setup, turns)?;
    play_out(rt, alloc, split, seats, gate)
}

/// What a split run of a set has come to, once each processor has played its script, as `play_out` has it.
pub fn run_split<R: Threads + Wait + Sync, G: Gate + Sync>(
    rt: &R,
    alloc: Global,
    setup: &Setup,
    gate: &G,
) -> Result<SplitEnd, NoMemory>
    requires { is_split_set setup.now ≡ true }
    ensures { IfOk result (λ e. IsRunEnd setup.now (end_of e)) }
{
    let turns = SemTurns::open(alloc, setup)?;
    run_named::<Brand, R, G>(rt, alloc, setup, turns, gate)
}

/// The text of what a split run has come to.
pub fn text_of_run(alloc: Global, setup: &Setup, end: &SplitEnd) -> Result<Vec<u8>, NoMemory>
    requires split { is_split_set setup.now ≡ true }
    requires end { IsRunEnd setup.now (end_of end.now) }
    ensures { IfOk result (λ v. v.items ≡ split_text setup.now end.now.sems end.now.parts) }
{
    split_text_of(alloc, setup, end.sems.as_slice(), end.parts.as_slice())
}
