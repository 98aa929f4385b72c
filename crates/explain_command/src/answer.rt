//! The command `explain`: from the bytes of a set or a trace to the text that says why it is refused.
ghost use Rattle.std.specs.Prelude.{◌≡◌, ◌≢◌, map, MatchResult};
ghost use Rattle.set_input.specs.Ends.{TellsFaults, reading, writing};
ghost use Rattle.explain_command.specs.ExplainAnswers.{ExplainAnswers, IsUnlooked, IsUnwritten};
ghost use Rattle.explain_command.specs.Explaining.{IsExplained};

use crate::outcome::{Explained, Outcome};
use crate::reading::{begins_as_trace, read_bytes};
use crate::set::set_explained;
use crate::trace::trace_explained;
use rt_base::MOST_SET_BYTES;
use rt_fault::{Sink, Source, Status, put_all};
use std::alloc::Global;
use trace_tools::TraceTool;

/// What the bytes come to, as a trace where they begin as one does, else as a set. A set that is longer than one may be is
/// answered with `TooLong`.
fn explained<T: TraceTool>(alloc: Global, bytes: &[u8], tools: Vec<T>) -> Result<Explained, Status>
    ensures { MatchResult result
        (λ x. IsExplained (map T.tool tools.items) bytes.now x.outcome x.text.items)
        (λ e. IsUnlooked bytes.now e) }
{
    if begins_as_trace(bytes) {
        return match trace_explained(alloc, bytes, tools) {
            Ok(it) => Ok(it),
            Err(_) => Err(Status::NoMemory),
        };
    }
    if bytes.len() as u64 > MOST_SET_BYTES {
        return Err(Status::TooLong);
    }
    match set_explained(alloc, bytes) {
        Ok(it) => Ok(it),
        Err(_) => Err(Status::NoMemory),
    }
}

/// Reads a set or a trace of either format, and writes why it is refused or invalid, and where: what begins with the word
/// `rtsched` is looked at as `check` does, any other input as `sim` reads a set. The tools say which count lines a trace may
/// have. The answer is that of the reading: `BadInput` or `Invalid` where `sim` or `check` says so, with the text that explains
/// it on the sink, and `Ok`, with a line that says that nothing is refused, where neither does.
pub fn explain<S: Source, K: Sink, T: TraceTool>(
    alloc: Global,
    src: &mut S,
    out: &mut K,
    tools: Vec<T>,
) -> Status
    ensures answers { ExplainAnswers (map T.tool tools.items)
        (reading S.left S.faults src.old src.new) (writing K.held K.faults out.old out.new) result }
    ensures unwritten { IsUnwritten result → out.new ≡ out.old }
    ensures faults { TellsFaults (reading S.left S.faults src.old src.new)
        (writing K.held K.faults out.old out.new) result }
    ensures not_usage { result ≢ Status.Usage }
{
    let bytes = match read_bytes(alloc, src) {
        Ok(bytes) => bytes,
        Err(status) => return status,
    };
    let it = match explained(alloc, bytes.as_slice(), tools) {
        Ok(it) => it,
        Err(status) => return status,
    };
    if put_all(out, it.text.as_slice()).is_err() {
        return Status::WriteFault;
    }
    match it.outcome {
        Outcome::Fine => Status::Ok,
        Outcome::Wrong(line) => Status::Invalid(line),
        Outcome::Refused(bad) => Status::BadInput(bad),
    }
}
