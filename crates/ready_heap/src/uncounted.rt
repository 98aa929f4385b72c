//! Calls of a heap of keys by a caller who does not count its comparisons.
ghost use Rattle.std.specs.Prelude.{◌≡◌, ◌<◌, IfSome, IfNone, None, Some, is_some, length, slice_set};
ghost use Rattle.rt_rules.specs.KeyOrder.{higher};
ghost use Rattle.ready_heap.specs.Row.{key_at};
ghost use Rattle.ready_heap.specs.Ready.{size, IsFirst};

use crate::ReadyHeap;
use rt_base::TaskNo;
use rt_rules::{ByKey, Key, Steps};
use std::marker::Brand;
use std::sync::ledger::{Blank, Ledger};

// Each call is through a ledger of its own, which `counted_..` takes: nobody reads what it counts.

fn counted_insert<L: Ledger>(heap: &mut ReadyHeap<ByKey>, task: TaskNo, key: Key, blank: Blank)
    requires name { blank.name ≡ L.name }
    requires parts { blank.parts ≡ L.parts }
    requires one_part { blank.parts ≡ 1 }
    requires room { task.0 < length heap.old.keys }
    requires absent { key_at heap.old.keys task.0 ≡ None }
    ensures { heap.new ≡ record heap.old { keys = slice_set heap.old.keys task.0 (Some key) } }
{
    let mut steps = Steps::<L>::new(blank);
    heap.insert(task, key, &mut steps);
}

fn counted_remove<L: Ledger>(heap: &mut ReadyHeap<ByKey>, task: TaskNo, blank: Blank) -> bool
    requires name { blank.name ≡ L.name }
    requires parts { blank.parts ≡ L.parts }
    requires one_part { blank.parts ≡ 1 }
    requires room { task.0 < length heap.old.keys }
    ensures was_in { result ≡ is_some (key_at heap.old.keys task.0) }
    ensures removed { heap.new ≡ record heap.old { keys = slice_set heap.old.keys task.0 None } }
{
    let mut steps = Steps::<L>::new(blank);
    heap.remove(task, &mut steps)
}

/// Puts a task in that is not in, with its key.
///
/// Example: `put_in(&mut heap, TaskNo(3), key)` puts task 3 in.
pub fn put_in(heap: &mut ReadyHeap<ByKey>, task: TaskNo, key: Key)
    requires room { task.0 < length heap.old.keys }
    requires absent { key_at heap.old.keys task.0 ≡ None }
    ensures { heap.new ≡ record heap.old { keys = slice_set heap.old.keys task.0 (Some key) } }
{
    counted_insert::<Brand>(heap, task, key, Blank::new(1));
}

/// Takes a task out. Whether it was in.
///
/// Example: `take_out(&mut heap, TaskNo(3))` is true once after task 3 was put in.
pub fn take_out(heap: &mut ReadyHeap<ByKey>, task: TaskNo) -> bool
    requires { task.0 < length heap.old.keys }
    ensures was_in { result ≡ is_some (key_at heap.old.keys task.0) }
    ensures removed { heap.new ≡ record heap.old { keys = slice_set heap.old.keys task.0 None } }
{
    counted_remove::<Brand>(heap, task, Blank::new(1))
}

/// Takes the first task out, and gives it with its key; none where no task is in.
///
/// Example: `while let Some((task, key)) = take_first(&mut heap)` goes through all tasks, highest first.
pub fn take_first(heap: &mut ReadyHeap<ByKey>) -> Option<(TaskNo, Key)>
    ensures first { IfSome result (λ r. IsFirst higher heap.old.keys r.0.0) }
    ensures key { IfSome result (λ r. key_at heap.old.keys r.0.0 ≡ Some r.1) }
    ensures taken { IfSome result (λ r. heap.new.keys ≡ slice_set heap.old.keys r.0.0 None) }
    ensures none { IfNone result (size heap.old.keys ≡ 0) }
    ensures stays { IfNone result (heap.new ≡ heap.old) }
{
    let Some(first) = heap.first() else {
        return None;
    };
    let Some(key) = heap.key(first) else {
        return None;
    };
    take_out(heap, first);
    Some((first, key))
}
