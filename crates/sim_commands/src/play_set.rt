//! The command `sim`: from the bytes of a set to the text of its trace.
ghost use Rattle.std.specs.Prelude.{◌≡◌, ◌≢◌, map};
ghost use Rattle.set_input.specs.Ends.{TellsFaults, reading, writing};
ghost use Rattle.set_input.specs.Answers.{IsUnwritten};
ghost use Rattle.sim_commands.specs.SimAnswers.{SimAnswers};

use rt_fault::{Sink, Source, Status};
use set_input::read_input;
use std::alloc::Global;
use trace_lines::Version;
use trace_tools::{Bus, TraceTool};
use trace_writer::{WriteStop, write_played};

/// Reads a set, plays its steps in the given order or its turns, and writes the trace of the histories that come about,
/// with the count lines of the tools.
pub(crate) fn play_set<S: Source, K: Sink, T: TraceTool>(
    alloc: Global,
    src: &mut S,
    out: &mut K,
    tools: Vec<T>,
) -> Status
    ensures answers { SimAnswers (map T.tool tools.items)
        (reading S.left S.faults src.old src.new)
        (writing K.held K.faults out.old out.new) result }
    ensures unwritten { IsUnwritten result → out.new ≡ out.old }
    ensures faults { TellsFaults (reading S.left S.faults src.old src.new)
        (writing K.held K.faults out.old out.new) result }
    ensures not_usage { result ≢ Status.Usage }
{
    let setup = match read_input(alloc, src) {
        Ok(setup) => setup,
        Err(status) => return status,
    };
    let Ok(mut bus) = Bus::open(alloc, tools) else {
        return Status::NoMemory;
    };
    match write_played(alloc, Version::Two, &setup, &mut bus, out) {
        Ok(()) => Status::Ok,
        Err(WriteStop::Fault) => Status::WriteFault,
        Err(WriteStop::NoMemory) => Status::NoMemory,
    }
}
