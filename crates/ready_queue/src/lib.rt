//! The ready tasks of a cluster by key, with the first of them kept in order beside the rest.
#![tactic(auto)]

ghost use Rattle.std.specs.Prelude.{◌≡◌, ◌<◌, ◌≤◌, ◌&&◌, not, IfOk, Some, None, is_none, [], length, map, replicate, slice_set, vec_capacity};
ghost use Rattle.rt_base.specs.TaskNos.{number_of_task, numbers};
ghost use Rattle.ready_heap.specs.Row.{key_at};
ghost use Rattle.ready_queue.specs.Exchanges.{IsExchanged};
ghost use Rattle.ready_queue.specs.Queue.{first_tasks, is_first};

mod ranked_list;

pub use ranked_list::{RankedList, RankedTask};
use ready_heap::{ReadyHeap, uncounted};
use rt_base::{NoMemory, TaskNo};
use rt_rules::{ByKey, Key};
use std::alloc::Global;
use std::marker::Model;

/// Which task a change removed from the first ones, and which it added to them, if any.
#[derive(Clone, Copy, PartialEq, Eq)]
pub struct TopChange {
    pub removed: Option<TaskNo>,
    pub added: Option<TaskNo>,
}

impl TopChange {
    /// Whether neither is there, so that the first ones stay the same tasks.
    pub fn is_none(self) -> bool
        ensures { result ≡ (is_none self.removed && is_none self.added) }
    {
        self.removed.is_none() && self.added.is_none()
    }
}

/// A set of tasks, each with one key, whose first ones are at hand: the tasks of the highest keys, ties to the lower
/// number, up to a number that is fixed at making.
///
/// Contracts see that number, and at each task's number below the room its key, or none where it is not in. A change
/// costs a logarithm of the tasks that are in, and a look at each of the first ones at most.
#[derive(Drop)]
pub struct ReadyQueue {
    most: usize,
    all: ReadyHeap<ByKey>,
    first: RankedList,
    rest: ReadyHeap<ByKey>,
}

impl Model for ReadyQueue {
    ghost use Rattle.std.specs.Prelude.{◌+◌, ◌≤◌};
    ghost use Rattle.ready_queue.specs.Queue.{Queue, IsSplit};

    ghost Value = { Queue };

    ghost view = { λ a. record { most = a.most; keys = a.all.keys } };

    ghost invariant = { λ a.
        IsSplit (record { most = a.most; keys = a.all.keys }) a.first.tasks a.rest.keys
        × (a.most + 1 ≤ a.first.room) };
}

impl ReadyQueue {
    /// An empty set for tasks whose numbers are below `room`, of which the first `most` are at hand. No later call takes
    /// memory.
    ///
    /// Example: `ReadyQueue::new(alloc, 2, 64)` takes the tasks 0 to 63, for a cluster of two processors.
    pub fn new(alloc: Global, most: u32, room: u32) -> Result<ReadyQueue, NoMemory>
        ensures { IfOk result (λ q. q ≡ record { most = most; keys = replicate room None }) }
    {
        let all = ReadyHeap::new(alloc, ByKey, room)?;
        let rest = ReadyHeap::new(alloc, ByKey, room)?;
        let first = RankedList::with_room(alloc, most as usize + 1)?;
        Ok(ReadyQueue {
            most: most as usize,
            all,
            first,
            rest,
        })
    }

    /// The heap of all tasks that are in.
    pub fn heap(&self) -> &ReadyHeap<ByKey>
        ensures { result.now.keys ≡ self.now.keys }
    {
        &self.all
    }

    /// Writes the first tasks, highest first, in place of what `into` holds, which has room for them.
    ///
    /// Example: of three tasks in a set with two first ones, `queue.copy_first(&mut top)` writes the two highest.
    pub fn copy_first(&self, into: &mut Vec<TaskNo>)
        requires { self.now.most ≤ vec_capacity into.old }
        ensures first { numbers into.new.items ≡ first_tasks self.now.most self.now.keys }
        ensures room { vec_capacity into.old ≤ vec_capacity into.new }
    {
        ranked_list::copy_tasks(self.first.as_slice(), into);
    }

    /// Gives the task this key, or takes it out, whether it is in or not. Which task is no longer one of the first ones,
    /// and which one comes to be one, if any; the others among them are the same, in whatever order.
    ///
    /// Example: `queue.set(TaskNo(3), Some(key))` makes task 3 ready, and `queue.set(TaskNo(3), None)` takes it out.
    pub fn set(&mut self, task: TaskNo, key: Option<Key>) -> TopChange
        requires { task.0 < length self.old.keys }
        ensures keys { self.new ≡ record self.old { keys = slice_set self.old.keys task.0 key } }
        ensures exchanged { IsExchanged (first_tasks self.old.most self.old.keys)
            (first_tasks self.new.most self.new.keys)
            (number_of_task result.removed) (number_of_task result.added) }
    {
        let taken = self.take_out(task);
        let Some(key) = key else {
            return taken;
        };
        let put = self.put_in(task, key);
        if put.is_none() {
            return taken;
        }
        if taken.is_none() {
            return put;
        }
        // The task is still one of the first ones, and what was added in its position is removed again.
        TopChange {
            removed: None,
            added: None,
        }
    }

    // Whether the task was one of the first ones, and which task was added in its position.
    fn take_out(&mut self, task: TaskNo) -> TopChange
        requires { task.0 < length self.old.keys }
        ensures keys { self.new ≡ record self.old { keys = slice_set self.old.keys task.0 None } }
        ensures exchanged { IsExchanged (first_tasks self.old.most self.old.keys)
            (first_tasks self.new.most self.new.keys)
            (number_of_task result.removed) (number_of_task result.added) }
        ensures was_first { (is_none result.removed && is_none result.added)
            ≡ not (is_first self.old task.0) }
    {
        // The list is searched only for a task that is in and not one of the rest.
        let was_in = uncounted::take_out(&mut self.all, task);
        let was_behind = uncounted::take_out(&mut self.rest, task);
        if !was_in || was_behind {
            return TopChange {
                removed: None,
                added: None,
            };
        }
        self.first.remove(task);
        let Some((next, key)) = uncounted::take_first(&mut self.rest) else {
            return TopChange {
                removed: Some(task),
                added: None,
            };
        };
        self.first.insert(key, next);
        TopChange {
            removed: Some(task),
            added: Some(next),
        }
    }

    // Whether the task is one of the first ones, and which task it pushed out.
    fn put_in(&mut self, task: TaskNo, key: Key) -> TopChange
        requires room { task.0 < length self.old.keys }
        requires absent { key_at self.old.keys task.0 ≡ None }
        ensures keys { self.new
            ≡ record self.old { keys = slice_set self.old.keys task.0 (Some key) } }
        ensures exchanged { IsExchanged (first_tasks self.old.most self.old.keys)
            (first_tasks self.new.most self.new.keys)
            (number_of_task result.removed) (number_of_task result.added) }
        ensures is_first { (is_none result.removed && is_none result.added)
            ≡ not (is_first self.new task.0) }
    {
        uncounted::put_in(&mut self.all, task, key);
        self.first.insert(key, task);
        let added = TopChange {
            removed: None,
            added: Some(task),
        };
        if self.first.as_slice().len() <= self.most {
            return added;
        }
        let Some(last) = self.first.pop() else {
            return added;
        };
        uncounted::put_in(&mut self.rest, last.task, last.key);
        if last.task.0 == task.0 {
            TopChange {
                removed: None,
                added: None,
            }
        } else {
            TopChange {
                removed: Some(last.task),
                added: Some(task),
            }
        }
    }
}
