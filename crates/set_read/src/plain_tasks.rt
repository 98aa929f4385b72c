//! Reading an array of tasks, whose last member is a body, from the bytes of a document.
ghost use Rattle.std.specs.Prelude.{◌≡◌, ◌&&◌, not, true, Some, List, IfSome};
ghost use Rattle.json.specs.Lex.{after_value, tokens};
ghost use Rattle.rt_task.specs.RuleWords.{is_empty, is_periodic};
ghost use Rattle.serde_json.specs.View.{view};
ghost use Rattle.set_read.specs.Document.{task_form};
ghost use Rattle.set_read.specs.Names.{names_seen};
ghost use Rattle.set_read.specs.inside.Texts.{BeginsWithValue, tokens_at};
ghost use Rattle.set_read.specs.inside.Tokens.{SaysItems, item_depth, task_read, tasks_read};

use crate::acts::NameLists;
use crate::elements::has_shape;
use crate::last_member::{TASK_DEPTH, at_items, before_items};
use crate::lexemes::after;
use crate::plain_bodies::pieces;
use crate::tasks::task_of;
use rt_task::{DraftTask, Piece, Pieces};
use serde_json::Value;
use std::alloc::Global;

/// The task that a value says, with this body in place of its own, if it has the shape that a
/// horizon asks for.
fn with_body(
    alloc: Global,
    names: &NameLists,
    number: u32,
    value: &Value,
    body: Vec<Piece>,
) -> Option<DraftTask>
    ensures { IfSome result (λ task. (was : DraftTask)
        × (task_form (names_seen names.now) number (view value.now) ≡ Some was)
        × (task ≡ record was { pieces = body.items })
        × ((is_periodic task.kind && not (is_empty task.pieces)) ≡ true)) }
{
    let Ok(Some(mut task)) = task_of(alloc, names, number, value) else {
        return None;
    };
    task.pieces = Pieces::from_vec(body);
    if !has_shape(&task) {
        return None;
    }
    Some(task)
}

/// A task with a body, and what stands behind it.
fn task<'a>(
    alloc: Global,
    names: &NameLists,
    number: u32,
    bytes: &'a [u8],
) -> Option<(DraftTask, &'a [u8])>
    ensures { IfSome result (λ x. BeginsWithValue item_depth
        (task_read (names_seen names.now) number) x.0 bytes.now x.1.now) }
{
    let _ = after(b'{', bytes)?;
    let (text, body) = at_items(bytes, "body")?;
    let value = before_items(alloc, text, "body", TASK_DEPTH)?;
    let (body, rest) = pieces(alloc, names, body)?;
    let rest = after(b'}', rest)?;
    let task = with_body(alloc, names, number, &value, body)?;
    Some((task, rest))
}

/// The tasks up to the end of their array, numbered from 1, and what stands behind it; None where
/// one is not plain, or for want of memory.
pub(crate) fn tasks<'a>(
    alloc: Global,
    names: &NameLists,
    bytes: &'a [u8],
) -> Option<(Vec<DraftTask>, &'a [u8])>
    ensures { IfSome result (λ x. SaysItems item_depth
        (tasks_read (names_seen names.now) 1)
        (tokens bytes.now) x.0.items (tokens_at after_value x.1.now)) }
{
    let mut found = Vec::new(alloc);
    let mut left = bytes;
    for number in 1..u32::MAX {
        let (task, rest) = task(alloc, names, number, left)?;
        found.push(task).ok()?;
        match after(b',', rest) {
            Some(more) => left = more,
            None => return Some((found, after(b']', rest)?)),
        }
    }
    None
}
