//! The command `check`: from the bytes of a trace to the line that says what it is.
ghost use Rattle.std.specs.Prelude.{◌≡◌, ◌≢◌, map};
ghost use Rattle.set_input.specs.Ends.{TellsFaults, reading, writing};
ghost use Rattle.set_input.specs.Answers.{IsUnwritten};
ghost use Rattle.sim_commands.specs.CheckAnswers.{CheckAnswers};

use crate::trace_input::read_trace_input;
use crate::verdict_line::put_verdict;
use rt_fault::{Sink, Source, Status, put_all};
use std::alloc::Global;
use trace_check::{Verdict, check_trace};
use trace_tools::{Bus, TraceTool};

/// Reads a trace, and writes the line that says whether it is valid for its set. The tools say which count lines it may have.
pub(crate) fn check<T: TraceTool, S: Source, K: Sink>(
    alloc: Global,
    src: &mut S,
    out: &mut K,
    tools: Vec<T>,
) -> Status
    ensures answers { CheckAnswers (map T.tool tools.items)
        (reading S.left S.faults src.old src.new) (writing K.held K.faults out.old out.new) result }
    ensures unwritten { IsUnwritten result → out.new ≡ out.old }
    ensures faults { TellsFaults (reading S.left S.faults src.old src.new)
        (writing K.held K.faults out.old out.new) result }
    ensures not_usage { result ≢ Status.Usage }
{
    let (bytes, head) = match read_trace_input(alloc, src) {
        Ok(input) => input,
        Err(status) => return status,
    };
    let Ok(mut bus) = Bus::open(alloc, tools) else {
        return Status::NoMemory;
    };
    let Ok(verdict) = check_trace(alloc, bytes.as_slice(), &head, &mut bus) else {
        return Status::NoMemory;
    };
    let mut line = Vec::new(alloc);
    if put_verdict(&mut line, verdict).is_err() {
        return Status::NoMemory;
    }
    if put_all(out, line.as_slice()).is_err() {
        return Status::WriteFault;
    }
    match verdict {
        Verdict::Valid(_) => Status::Ok,
        Verdict::Invalid(line) => Status::Invalid(line),
    }
}
