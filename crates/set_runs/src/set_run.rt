//! All groups of a set, beside each other.
ghost use Rattle.std.specs.Prelude.{◌≡◌, ◌<◌, ◌^◌, map, IfOk, Ok};
ghost use Rattle.rt_plays.specs.Groups.{IsGroupOf};
ghost use Rattle.set_runs.specs.Runs.{AreRunsOf, IsRunOf};

use crate::group_run::run_group;
use cpu_site::Gate;
use group_engine::KeepingEngine;
use rt_base::{GroupNo, NoMemory};
use rt_task::Setup;
use std::alloc::Global;
use std::sync::Wait;
use std::thread::{self, Threads};
use trace_text::count_groups;

/// The engines, where memory ran out for none of them.
fn all_run(
    alloc: Global,
    runs: Vec<Result<KeepingEngine, NoMemory>>,
) -> Result<Vec<KeepingEngine>, NoMemory>
    ensures { IfOk result (λ engines. runs.items ≡ map Ok engines.items) }
{
    let mut engines = Vec::new(alloc);
    for run in runs {
        let engine = run?;
        engines.push(engine)?;
    }
    Ok(engines)
}

/// The engines of the set's groups, by rising number, once each processor has played its whole script, or all its turns, in
/// a thread of its own. The gate is asked before each play, also before the one that finds no step left.
///
/// Where a thread cannot be started, the caller plays: that processor's script, or the turns of its group, each turn of all
/// processors before the next of any. Memory is taken to open the groups and to start and join threads, and by no play.
pub fn run_set<R: Threads + Wait + Sync, G: Gate + Sync>(
    rt: &R,
    alloc: Global,
    setup: &Setup,
    gate: &G,
) -> Result<Vec<KeepingEngine>, NoMemory>
    ensures { IfOk result (λ engines. AreRunsOf setup.now engines.items) }
{
    let run = |n: usize| -> Result<KeepingEngine, NoMemory>
        requires { (n < 2 ^ 32) × IsGroupOf setup.now n }
        ensures { IfOk result (λ engine. IsRunOf setup.entry.now n engine) }
    { run_group(rt, alloc, setup, GroupNo(n as u32), gate) };
    // A proof knows that a setup is valid once its parts are read.
    let _parts = setup.parts();
    let runs = thread::map_indices(rt, alloc, count_groups(setup) as usize, &run)?;
    all_run(alloc, runs)
}
