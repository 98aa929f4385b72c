//! Reading the usual document in one pass: its steps, or its tasks with a body each, stand last,
//! and are read from its bytes.
ghost use Rattle.std.specs.Prelude.{◌≡◌, [], codes, Ok, IfSome};
ghost use Rattle.std.specs.Str.{IsUtf8};
ghost use Rattle.json.specs.Lex.{tokens};
ghost use Rattle.serde_json.specs.View.{view};
ghost use Rattle.set_read.specs.Document as document;
ghost use Rattle.set_read.specs.Document.{names_of};
ghost use Rattle.set_read.specs.inside.Few.{IsFew};
ghost use Rattle.set_read.specs.Names.{names_seen};
ghost use Rattle.set_read.specs.Seen.{whole_seen};
ghost use Rattle.set_read.specs.Sets.{draft_in_bytes};
ghost use Rattle.set_read.specs.inside.Tokens.{Completes, SaysDraft, with_steps};

use crate::acts::NameLists;
use crate::document::{Whole, whole_of};
use crate::last_member::{DOCUMENT_DEPTH, at_items, before_items, is_at_end};
use crate::plain_steps::steps;
use crate::quick_bodies::draft_by_bodies;
use crate::read::{draft_of_whole, is_few, name_lists};
use rt_task::{Draft, DraftDrive, DraftSteps};
use serde_json::Value;
use std::alloc::Global;

/// Whether the text ends with these bytes, of which the last stands first, whatever blanks stand
/// between them. What it answers spares time alone: a document of another form is not begun here.
fn ends_with(bytes: &[u8], backwards: &[u8]) -> bool {
    let last = bytes
        .iter()
        .rev()
        .copied()
        .filter(|byte| !byte.is_ascii_whitespace());
    last.take(backwards.len()).eq(backwards.iter().copied())
}

/// The set that a whole says whose steps are still to be read.
fn draft_with_steps(alloc: Global, whole: &Whole, names: &NameLists, bytes: &[u8]) -> Option<Draft>
    requires few { IsFew whole.now }
    requires names { names_seen names.now ≡ names_of (whole_seen whole.now) }
    ensures { IfSome result (λ draft. SaysDraft
        ((whole_seen whole.now).play ≡ document.steps [])
        (with_steps (whole_seen whole.now)) (tokens bytes.now) draft) }
{
    let (found, rest) = steps(alloc, names, bytes)?;
    if !is_at_end(rest) {
        return None;
    }
    match draft_of_whole(alloc, whole, names) {
        Ok(mut draft) => {
            draft.drive = DraftDrive::Steps(DraftSteps::from_vec(found));
            Some(draft)
        }
        Err(_) => None,
    }
}

/// The same of a value whose steps are still to be read.
fn draft_of(alloc: Global, value: &Value, bytes: &[u8]) -> Option<Draft>
    ensures { IfSome result
        (λ draft. Completes (codes "steps") (view value.now) (tokens bytes.now) draft) }
{
    let whole = whole_of(value)?;
    if !is_few(&whole) {
        return None;
    }
    let Ok(names) = name_lists(alloc, &whole) else {
        return None;
    };
    draft_with_steps(alloc, &whole, &names, bytes)
}

/// The set of a document whose steps stand last.
fn draft_by_steps(alloc: Global, bytes: &[u8]) -> Option<Draft>
    requires { IsUtf8 bytes.now }
    ensures { IfSome result (λ draft. draft_in_bytes bytes.now ≡ Ok draft) }
{
    let (text, steps) = at_items(bytes, "steps")?;
    let value = before_items(alloc, text, "steps", DOCUMENT_DEPTH)?;
    draft_of(alloc, &value, steps)
}

/// The set that a document says, where it has a usual form: an object whose last member is an
/// array of plain steps, or of tasks whose last member is a plain body. None: read it as a whole.
pub(crate) fn quick_draft(alloc: Global, bytes: &[u8]) -> Option<Draft>
    ensures { IfSome result (λ draft. draft_in_bytes bytes.now ≡ Ok draft) }
{
    let with_steps = ends_with(bytes, b"}]]");
    if !with_steps && !ends_with(bytes, b"}]}]]") {
        return None;
    }
    let Ok(_) = simdutf8::basic::from_utf8(bytes) else {
        return None;
    };
    if with_steps {
        draft_by_steps(alloc, bytes)
    } else {
        draft_by_bodies(alloc, bytes)
    }
}
