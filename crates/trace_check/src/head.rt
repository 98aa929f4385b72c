//! The first two lines of a trace, compared.
ghost use Rattle.std.specs.Prelude.{◌≡◌, ◌↔◌, ◌++◌, List, ℕ, IfOk, IsTrue, true};
ghost use Rattle.trace_text.specs.TraceText.{head_text};

use rt_base::NoMemory;
use rt_task::Parts;
use std::alloc::Global;
use trace_lines::Version;
use trace_text::head_of;

/// Whether the text begins with the line of the format and that of the canonical set. Where that is known, nothing is written
/// and compared.
pub(crate) fn has_head(
    alloc: Global,
    bytes: &[u8],
    version: Version,
    parts: &Parts,
    is_known: bool,
) -> Result<bool, NoMemory>
    requires { IsTrue is_known
        → (rest : List ℕ) × bytes.now ≡ head_text version parts.now ++ rest }
    ensures { IfOk result (λ b.
        (b ≡ true) ↔ ((rest : List ℕ) × bytes.now ≡ head_text version parts.now ++ rest)) }
{
    if is_known {
        return Ok(true);
    }
    let head = head_of(alloc, version, parts)?;
    Ok(bytes.starts_with(head.as_slice()))
}
