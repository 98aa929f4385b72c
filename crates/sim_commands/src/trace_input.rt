//! The trace that a run checks.
ghost use Rattle.std.specs.Prelude.{IfOk};
ghost use Rattle.rt_base.specs.declared.TheConstants.{MOST_TRACE_BYTES};
ghost use Rattle.rt_task.specs.Validity.{IsValid};
ghost use Rattle.trace_read.specs.Reads.{IsHeadOf};
ghost use Rattle.set_input.specs.Ends.{reading};
ghost use Rattle.sim_commands.specs.Check.{WasTrace, WasNoTrace};
ghost use Rattle.set_input.specs.Stopped.{EndsReading};

use rt_base::MOST_TRACE_BYTES;
use rt_fault::{Source, Status, read_all};
use rt_task::{Part, SetKind};
use set_input::refused;
use std::alloc::Global;
use trace_read::{TraceFault, TraceHead, read_head};

/// Reads a trace of either format to its end, and its first two lines: one whose set is valid.
pub fn read_trace_input<S: Source>(
    alloc: Global,
    src: &mut S,
) -> Result<(Vec<u8>, TraceHead), Status>
    ensures ok { let source = reading S.left S.faults src.old src.new in
        IfOk result (λ x. WasTrace source x.0.items x.1.version x.1.setup) }
    ensures head { IfOk result (λ x. IsHeadOf x.0.items x.1) }
    ensures valid { IfOk result (λ x. IsValid x.1.setup) }
    ensures ends { let source = reading S.left S.faults src.old src.new in
        EndsReading source MOST_TRACE_BYTES (WasNoTrace source) result }
{
    let bytes = read_all(alloc, src, MOST_TRACE_BYTES)?;
    let head = match read_head(alloc, bytes.as_slice()) {
        Ok(head) => head,
        Err(TraceFault::NotTrace(line)) => {
            return Err(refused(SetKind::NotTrace, Part::Line, line));
        }
        Err(TraceFault::BadSet(bad)) => return Err(Status::BadInput(bad)),
        Err(TraceFault::NoMemory) => return Err(Status::NoMemory),
    };
    Ok((bytes, head))
}
