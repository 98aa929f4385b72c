//! The set of a trace, whose line is most often the canonical text of it.
ghost use Rattle.std.specs.Prelude.{◌≡◌, ◌<◌, ◌++◌, Ok, IfOk, IfSome, IsTrue, length};
ghost use Rattle.rt_task.specs.Answers.{Gives};
ghost use Rattle.set_canonical.specs.Canonical as spec;
ghost use Rattle.set_read.specs.Sets.{set};

use crate::head::after;
use crate::plain_steps::plain_steps;
use rt_task::{Draft, DraftDrive, SetStop, Setup};
use set_canonical::canonical;
use set_laws::canonical_is_read;
use set_read::{read_draft, read_set};
use set_rules::setup_of_draft;
use std::alloc::{AllocError, Global};

/// What the canonical text of a set has between the members before its steps and these.
const STEPS_BEGIN: &[u8] = b",\"steps\":[";

/// What it has between its steps and the tasks.
const STEPS_END: &[u8] = b"],\"tasks\":[";

/// What stands before this position, and what stands after these bytes there.
fn split_at_position<'a>(
    part: &[u8],
    bytes: &'a [u8],
    position: usize,
) -> Option<(&'a [u8], &'a [u8])>
    requires { position < length bytes.now }
    ensures { IfSome result (λ x. bytes.now ≡ x.0.now ++ (part.now ++ x.1.now)) }
{
    match after(part, &bytes[position..]) {
        Some(rest) => Some((&bytes[..position], rest)),
        None => None,
    }
}

/// What stands before the first position of these bytes, and what stands after it.
fn split_at_first<'a>(part: &[u8], bytes: &'a [u8]) -> Option<(&'a [u8], &'a [u8])>
    ensures { IfSome result (λ x. bytes.now ≡ x.0.now ++ (part.now ++ x.1.now)) }
{
    for i in 0..bytes.len() {
        if let Some(parts) = split_at_position(part, bytes, i) {
            return Some(parts);
        }
    }
    None
}

/// What stands before the last position of these bytes, and what stands after it.
fn split_at_last<'a>(part: &[u8], bytes: &'a [u8]) -> Option<(&'a [u8], &'a [u8])>
    ensures { IfSome result (λ x. bytes.now ≡ x.0.now ++ (part.now ++ x.1.now)) }
{
    for i in (0..bytes.len()).rev() {
        if let Some(parts) = split_at_position(part, bytes, i) {
            return Some(parts);
        }
    }
    None
}

/// The draft that a document with no steps between these two parts of it says.
fn draft_around(alloc: Global, before: &[u8], after: &[u8]) -> Option<Draft> {
    let document = joined(alloc, before, after).ok()?;
    read_draft(alloc, document.as_slice()).ok()
}

/// The document with no steps between these two parts of it.
fn joined(alloc: Global, before: &[u8], after: &[u8]) -> Result<Vec<u8>, AllocError> {
    let mut document = before.to_vec(alloc)?;
    document.extend_from_slice(STEPS_BEGIN)?;
    document.extend_from_slice(STEPS_END)?;
    document.extend_from_slice(after)?;
    Ok(document)
}

/// The draft that the bytes say, if its steps are plain. What is found is what a canonical text says; of another it may be
/// anything.
fn plain_draft(alloc: Global, bytes: &[u8]) -> Option<Draft> {
    let (before, rest) = split_at_first(STEPS_BEGIN, bytes)?;
    let (steps, after) = split_at_last(STEPS_END, rest)?;
    let mut draft = draft_around(alloc, before, after)?;
    let steps = plain_steps(alloc, &draft, steps)?;
    draft.drive = DraftDrive::Steps(steps);
    Some(draft)
}

/// Whether the bytes are the canonical text of this set; no where memory runs out.
fn is_canonical_of(alloc: Global, setup: &Setup, bytes: &[u8]) -> bool
    ensures { IsTrue result → bytes.now ≡ spec.canonical setup.now }
{
    match canonical(alloc, setup) {
        Ok(text) => text.as_slice() == bytes,
        Err(_) => false,
    }
}

/// The set whose canonical text the bytes are, if its steps are plain. It is not found where memory runs out.
fn canonical_set(alloc: Global, bytes: &[u8]) -> Option<Setup>
    ensures read { IfSome result (λ s. set bytes.now ≡ Ok s) }
    ensures canonical { IfSome result (λ s. bytes.now ≡ spec.canonical s) }
{
    let draft = plain_draft(alloc, bytes)?;
    let setup = setup_of_draft(alloc, draft).ok()?;
    if !is_canonical_of(alloc, &setup, bytes) {
        return None;
    }
    canonical_is_read(&setup);
    Some(setup)
}

/// The setup that a set document stands for, or why it is refused, as `set_read::read_set` says it; a canonical text is
/// read without the values of its steps. With it, whether the document was found to be the canonical text.
pub(crate) fn read_line_set(alloc: Global, bytes: &[u8]) -> Result<(Setup, bool), SetStop>
    ensures read { Gives (λ x. x.0) result (set bytes.now) }
    ensures canonical { IfOk result (λ x. IsTrue x.1 → bytes.now ≡ spec.canonical x.0) }
{
    match canonical_set(alloc, bytes) {
        Some(setup) => Ok((setup, true)),
        None => {
            let setup = read_set(alloc, bytes)?;
            Ok((setup, false))
        }
    }
}
