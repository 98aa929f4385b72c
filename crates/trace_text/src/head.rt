//! The first two lines of a trace.
ghost use Rattle.std.specs.Prelude.{◌≡◌, ◌∷◌, ◌++◌, [], IfOk, codes};
ghost use Rattle.set_canonical.specs.Canonical.{canonical};
ghost use Rattle.trace_lines.specs.FirstLine as heads;
ghost use Rattle.trace_text.specs.TraceText.{head_text};

use rt_base::NoMemory;
use rt_task::Parts;
use set_canonical::canonical_of_parts;
use std::alloc::Global;
use trace_lines::{Version, first_line};

/// The line with this text of a set.
fn line_with(alloc: Global, set: &[u8]) -> Result<Vec<u8>, NoMemory>
    ensures { IfOk result (λ v. v.items ≡ codes "set " ++ (set.now ++ 10 ∷ [])) }
{
    let mut line = b"set ".to_vec(alloc)?;
    line.extend_from_slice(set)?;
    line.extend_from_slice(b"\n")?;
    Ok(line)
}

/// The line of the canonical set.
fn set_line_of(alloc: Global, parts: &Parts) -> Result<Vec<u8>, NoMemory>
    ensures { IfOk result (λ v. v.items ≡ codes "set " ++ (canonical parts.now ++ 10 ∷ [])) }
{
    let set = canonical_of_parts(alloc, parts)?;
    line_with(alloc, set.as_slice())
}

/// This line behind that of the format.
fn head_with(alloc: Global, version: Version, line: &[u8]) -> Result<Vec<u8>, NoMemory>
    ensures { IfOk result (λ v. v.items ≡ heads.first_line version ++ line.now) }
{
    let mut head = first_line(version).to_vec(alloc)?;
    head.extend_from_slice(line)?;
    Ok(head)
}

/// The first two lines of a trace: that of the format, and that of the canonical set.
pub fn head_of(alloc: Global, version: Version, parts: &Parts) -> Result<Vec<u8>, NoMemory>
    ensures { IfOk result (λ v. v.items ≡ head_text version parts.now) }
{
    let line = set_line_of(alloc, parts)?;
    head_with(alloc, version, line.as_slice())
}
