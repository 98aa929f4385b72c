//! The command `split`: from the bytes of a split set to the text of a split run of it.
ghost use Rattle.std.specs.Prelude.{◌≡◌, ◌≢◌};
ghost use Rattle.set_input.specs.Ends.{TellsFaults, reading, writing};
ghost use Rattle.run_command.specs.Split.{IsSplitRun};
ghost use Rattle.run_command.specs.SplitAnswers.{SplitAnswers};

use cpu_site::Gate;
use rt_fault::{Sink, Source, Status, put_all};
use rt_task::{Part, SetKind, Setup};
use set_input::{read_input, refused};
use split_run::{run_split, text_of_run};
use split_set::is_split_set;
use std::alloc::Global;
use std::sync::Wait;
use std::thread::Threads;

/// The text of a split run of a set, or why there is none.
fn text_of<R: Threads + Wait + Sync, G: Gate + Sync>(
    rt: &R,
    alloc: Global,
    setup: &Setup,
    gate: &G,
) -> Result<Vec<u8>, Status>
    ensures { IsSplitRun setup.now result }
{
    if !is_split_set(setup.parts()) {
        return Err(refused(SetKind::NotSplit, Part::Whole, 0));
    }
    let Ok(end) = run_split(rt, alloc, setup, gate) else {
        return Err(Status::NoMemory);
    };
    match text_of_run(alloc, setup, &end) {
        Ok(text) => Ok(text),
        Err(_) => Err(Status::NoMemory),
    }
}

/// Reads a set, and where it can be run split, plays each processor's partition in a thread of its own and writes the text of
/// what comes about.
pub(crate) fn play_split<R: Threads + Wait + Sync, S: Source, K: Sink, G: Gate + Sync>(
    rt: &R,
    alloc: Global,
    src: &mut S,
    out: &mut K,
    gate: &G,
) -> Status
    ensures answers { SplitAnswers (reading S.left S.faults src.old src.new)
        (writing K.held K.faults out.old out.new) result }
    ensures unwritten { result ≢ Status.Ok → result ≢ Status.WriteFault → out.new ≡ out.old }
    ensures faults { TellsFaults (reading S.left S.faults src.old src.new)
        (writing K.held K.faults out.old out.new) result }
    ensures not_usage { result ≢ Status.Usage }
{
    let setup = match read_input(alloc, src) {
        Ok(setup) => setup,
        Err(status) => return status,
    };
    let text = match text_of(rt, alloc, &setup, gate) {
        Ok(text) => text,
        Err(status) => return status,
    };
    match put_all(out, text.as_slice()) {
        Ok(()) => Status::Ok,
        Err(_) => Status::WriteFault,
    }
}
