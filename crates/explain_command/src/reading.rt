//! The input that is explained.
ghost use Rattle.std.specs.Prelude.{◌≡◌, IfOk};
ghost use Rattle.rt_base.specs.declared.TheConstants.{MOST_TRACE_BYTES};
ghost use Rattle.set_input.specs.Ends.{reading};
ghost use Rattle.set_input.specs.Stopped.{EndsReading};
ghost use Rattle.explain_command.specs.ExplainAnswers.{IsNever, WasRead};
ghost use Rattle.explain_command.specs.Explaining as spec;

use rt_base::MOST_TRACE_BYTES;
use rt_fault::{Source, Status, read_all};
use std::alloc::Global;

/// Reads an input to its end, within the limit of a trace.
pub(crate) fn read_bytes<S: Source>(alloc: Global, src: &mut S) -> Result<Vec<u8>, Status>
    ensures ok { IfOk result (λ v. WasRead (reading S.left S.faults src.old src.new) v.items) }
    ensures ends { EndsReading (reading S.left S.faults src.old src.new) MOST_TRACE_BYTES
        IsNever result }
{
    Ok(read_all(alloc, src, MOST_TRACE_BYTES)?)
}

/// Whether the input begins with the first word of a trace.
pub(crate) fn begins_as_trace(bytes: &[u8]) -> bool
    ensures { result ≡ spec.begins_as_trace bytes.now }
{
    bytes.starts_with(b"rtsched")
}
