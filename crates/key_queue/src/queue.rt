//! A queue of tasks by their keys.
ghost use Rattle.std.specs.Prelude.{◌≡◌, ◌+◌, ◌<◌, ◌≤◌, ◌↔◌, [], ◌∷◌, ◌++◌, true, false, ℕ, length, ◌==◌, IfOk, IsNone, slice_set, vec_len, vec_capacity};
ghost use Rattle.std.specs.BinaryHeap.{heap_items, heap_len, heap_capacity, IsHeap};
ghost use Rattle.std.specs.List.Sorted.{IsPermutation};
ghost use Rattle.rt_base.specs.TaskNos.{number_of_task, numbers};
ghost use Rattle.rt_rules.specs.KeyOrder.{equal_keys};
ghost use Rattle.rt_rules.specs.Numbers.{has, foremost};
ghost use Rattle.key_queue.specs.Queue.{later};
ghost use Rattle.key_queue.specs.Waiting.{Waiting, left};
ghost use Rattle.sem_laws.specs.KeptKeys.{key_at, above};

use crate::TaskLine;
use rt_base::{NoMemory, TaskNo};
use rt_rules::Key;
use std::alloc::Global;
use std::cmp::Reverse;
use std::collections::BinaryHeap;
use std::marker::Model;

// A task with its key, in the order of keys: the smallest is the highest.
#[derive(Clone, Copy, PartialEq, Eq, PartialOrd, Ord)]
struct Waiter {
    band: u32,
    major: u64,
    minor: u32,
    task: u32,
}

// Adds a waiter, for which there is room.
fn put(heap: &mut BinaryHeap<Reverse<Waiter>>, waiter: Waiter)
    requires { heap_len heap.old < heap_capacity heap.old }
    ensures len { heap_len heap.new ≡ heap_len heap.old + 1 }
    ensures capacity { heap_capacity heap.old ≤ heap_capacity heap.new }
    ensures permutation { IsPermutation (record { 0 = waiter } ∷ heap_items heap.old)
        (heap_items heap.new) }
    ensures heap_order { IsHeap later (heap_items heap.old) → IsHeap later (heap_items heap.new) }
{
    let _ = heap.push(Reverse(waiter));
}

/// Tasks that wait, each with its key; these keys differ. A task joins and the one of the highest key leaves at the
/// cost of a logarithm of those that wait.
#[derive(Drop)]
pub struct KeyQueue {
    line: TaskLine,
    heap: BinaryHeap<Reverse<Waiter>>,
    keys: Vec<Key>,
}

impl Model for KeyQueue {
    ghost use Rattle.std.specs.BinaryHeap.{heap_items, heap_capacity, heap_len};
    ghost use Rattle.key_queue.specs.Waiting.{Waiting};
    ghost use Rattle.key_queue.specs.Queue.{IsQueue};

    ghost Value = { Waiting };

    ghost view = { λ a. record { keys = a.keys.items; waiting = a.line.tasks } };

    ghost invariant = { λ a. IsQueue a.keys.items a.line.room a.line.tasks (heap_items a.heap)
        (heap_capacity a.heap) (heap_len a.heap) };
}

impl KeyQueue {
    /// An empty queue for tasks whose numbers are below `room`. No later call takes memory.
    ///
    /// Example: `KeyQueue::new(alloc, 64)` takes the tasks 0 to 63.
    pub fn new(alloc: Global, room: u32) -> Result<KeyQueue, NoMemory>
        ensures empty { IfOk result (λ q. q.waiting ≡ []) }
        ensures room { IfOk result (λ q. length q.keys ≡ room) }
    {
        let line = TaskLine::new(alloc, room)?;
        let heap = BinaryHeap::with_capacity(alloc, room as usize)?;
        let keys = vec![in alloc; Key::LOWEST; room as usize]?;
        Ok(KeyQueue { line, heap, keys })
    }

    /// The task waits from now on, behind all others, with a key that no other waiting task has.
    ///
    /// Example: `queue.push(TaskNo(2), key)` where task 2 asks and has to wait.
    pub fn push(&mut self, task: TaskNo, key: Key)
        requires below { task.0 < length self.old.keys }
        requires outside { has task.0 self.old.waiting ≡ false }
        requires apart { (t : ℕ) → has t self.old.waiting ≡ true →
            equal_keys (key_at self.old.keys t) key ≡ false }
        ensures { self.new ≡ record {
          keys = slice_set self.old.keys task.0 key;
          waiting = self.old.waiting ++ task.0 ∷ [];
        } }
    {
        self.line.push(task);
        self.keys[task.0 as usize] = key;
        let waiter = Waiter {
            band: key.band,
            major: key.major,
            minor: key.minor,
            task: task.0,
        };
        put(&mut self.heap, waiter);
    }

    /// Keeps the key of a task that does not wait.
    ///
    /// Example: `queue.note(TaskNo(2), key)` where task 2 asks and is granted at once.
    pub fn note(&mut self, task: TaskNo, key: Key)
        requires below { task.0 < length self.old.keys }
        requires outside { has task.0 self.old.waiting ≡ false }
        ensures { self.new ≡ record self.old { keys = slice_set self.old.keys task.0 key } }
    {
        self.keys[task.0 as usize] = key;
    }

    /// The task of the highest key waits no longer: the answer. `None` where no task waits.
    ///
    /// Example: of two waiting tasks with the keys (2, 9, 1) and (2, 5, 4) the second is the answer.
    pub fn pop(&mut self) -> Option<TaskNo>
        ensures highest { number_of_task result ≡ foremost (above self.old.keys) self.old.waiting }
        ensures nobody { IsNone result ↔ (self.old.waiting ≡ []) }
        ensures after { self.new ≡
            record self.old { waiting = left (number_of_task result) self.old.waiting } }
    {
        match self.heap.pop() {
            Some(Reverse(waiter)) => {
                let task = TaskNo(waiter.task);
                self.line.remove(task);
                Some(task)
            }
            None => None,
        }
    }

    /// How many tasks wait.
    ///
    /// Example: `queue.len()` is 0 in a new queue.
    pub fn len(&self) -> u32
        ensures { result ≡ length self.now.waiting }
    {
        self.heap.len() as u32
    }

    /// Whether no task waits.
    ///
    /// Example: `queue.is_empty()` is true in a new queue.
    pub fn is_empty(&self) -> bool
        ensures { result ≡ (length self.now.waiting == 0) }
    {
        self.heap.is_empty()
    }

    /// Adds the tasks that wait, in the order of asking, behind what `into` holds, which has room for them. It takes
    /// no memory.
    ///
    /// Example: where `into` is empty, and task 4 and then task 2 began to wait, `into` is 4, 2 afterwards.
    pub fn list(&self, into: &mut Vec<TaskNo>)
        requires room { vec_len into.old + length self.now.waiting ≤ vec_capacity into.old }
        ensures tasks { numbers into.new.items ≡ numbers into.old.items ++ self.now.waiting }
        ensures capacity { vec_capacity into.new ≡ vec_capacity into.old }
    {
        self.line.list(into);
    }
}
