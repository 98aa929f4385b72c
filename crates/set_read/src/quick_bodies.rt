//! Reading a document whose tasks stand last, with a body each, in one pass.
ghost use Rattle.std.specs.Prelude.{◌≡◌, [], codes, Ok, IfSome};
ghost use Rattle.std.specs.Str.{IsUtf8};
ghost use Rattle.json.specs.Lex.{tokens};
ghost use Rattle.serde_json.specs.View.{view};
ghost use Rattle.set_read.specs.Document.{names_of};
ghost use Rattle.set_read.specs.inside.Few.{IsFew};
ghost use Rattle.set_read.specs.Names.{names_seen};
ghost use Rattle.set_read.specs.Seen.{whole_seen};
ghost use Rattle.set_read.specs.Sets.{draft_in_bytes};
ghost use Rattle.set_read.specs.inside.Tokens.{Completes, SaysDraft, with_tasks};

use crate::acts::NameLists;
use crate::document::{Play, Whole, whole_of};
use crate::last_member::{DOCUMENT_DEPTH, at_items, before_items, is_at_end};
use crate::plain_tasks::tasks;
use crate::read::{draft_of_whole, is_few, name_lists};
use rt_task::{Draft, DraftTasks};
use serde_json::Value;
use std::alloc::Global;

/// The set that a whole with a horizon says whose tasks are still to be read.
fn draft_with_tasks(alloc: Global, whole: &Whole, names: &NameLists, bytes: &[u8]) -> Option<Draft>
    requires few { IsFew whole.now }
    requires names { names_seen names.now ≡ names_of (whole_seen whole.now) }
    ensures { IfSome result (λ draft. SaysDraft
        ((whole_seen whole.now).tasks ≡ [])
        (with_tasks (whole_seen whole.now)) (tokens bytes.now) draft) }
{
    let Play::Horizon(_) = whole.play else {
        return None;
    };
    let (found, rest) = tasks(alloc, names, bytes)?;
    if !is_at_end(rest) {
        return None;
    }
    match draft_of_whole(alloc, whole, names) {
        Ok(mut draft) => {
            draft.tasks = DraftTasks::from_vec(found);
            Some(draft)
        }
        Err(_) => None,
    }
}

/// The same of a value whose tasks are still to be read.
fn draft_of(alloc: Global, value: &Value, bytes: &[u8]) -> Option<Draft>
    ensures { IfSome result
        (λ draft. Completes (codes "tasks") (view value.now) (tokens bytes.now) draft) }
{
    let whole = whole_of(value)?;
    if !is_few(&whole) {
        return None;
    }
    let Ok(names) = name_lists(alloc, &whole) else {
        return None;
    };
    draft_with_tasks(alloc, &whole, &names, bytes)
}

/// The set of a document whose tasks stand last, with a body each.
pub(crate) fn draft_by_bodies(alloc: Global, bytes: &[u8]) -> Option<Draft>
    requires { IsUtf8 bytes.now }
    ensures { IfSome result (λ draft. draft_in_bytes bytes.now ≡ Ok draft) }
{
    let (text, tasks) = at_items(bytes, "tasks")?;
    let value = before_items(alloc, text, "tasks", DOCUMENT_DEPTH)?;
    draft_of(alloc, &value, tasks)
}
