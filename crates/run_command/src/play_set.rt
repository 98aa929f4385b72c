//! The command `run`: from the bytes of a set to the text of a trace of it.
ghost use Rattle.std.specs.Prelude.{◌≡◌, ◌≢◌, map};
ghost use Rattle.set_input.specs.Ends.{TellsFaults, reading, writing};
ghost use Rattle.set_input.specs.Answers.{IsUnwritten};
ghost use Rattle.run_command.specs.RunAnswers.{RunAnswers};

use cpu_site::Gate;
use rt_fault::{Sink, Source, Status};
use set_input::read_input;
use set_runs::run_set;
use std::alloc::Global;
use std::sync::Wait;
use std::thread::Threads;
use trace_lines::Version;
use trace_tools::{Bus, TraceTool};
use trace_writer::{WriteStop, write_trace};

/// Reads a set, plays each processor's steps or turns in a thread of its own, and writes the trace of the histories that come
/// about, with the count lines of the tools.
pub(crate) fn play_set<R: Threads + Wait + Sync, S: Source, K: Sink, T: TraceTool, G: Gate + Sync>(
    rt: &R,
    alloc: Global,
    src: &mut S,
    out: &mut K,
    tools: Vec<T>,
    gate: &G,
) -> Status
    ensures answers { RunAnswers (map T.tool tools.items)
        (reading S.left S.faults src.old src.new)
        (writing K.held K.faults out.old out.new) result }
    ensures unwritten { IsUnwritten result → out.new ≡ out.old }
    ensures faults { TellsFaults (reading S.left S.faults src.old src.new)
        (writing K.held K.faults out.old out.new) result }
    ensures not_usage { result ≢ Status.Usage }
{
    let setup = match read_input(alloc, src) {
        Ok(setup) => setup,
        Err(status) => return status,
    };
    let Ok(engines) = run_set(rt, alloc, &setup, gate) else {
        return Status::NoMemory;
    };
    let Ok(mut bus) = Bus::open(alloc, tools) else {
        return Status::NoMemory;
    };
    match write_trace(
        alloc,
        Version::Two,
        &setup,
        engines.as_slice(),
        &mut bus,
        out,
    ) {
        Ok(()) => Status::Ok,
        Err(WriteStop::Fault) => Status::WriteFault,
        Err(WriteStop::NoMemory) => Status::NoMemory,
    }
}
