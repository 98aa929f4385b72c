//! Tasks in their places, by position and by node, while one may be held out of them.
ghost use Rattle.std.specs.Prelude.{◌≡◌, ◌≢◌, ◌+◌, ◌^◌, ◌<◌, length};
ghost use Rattle.ready_heap.specs.Row.{IsPopped, IsSwapped, IsTaken};
ghost use Rattle.ready_heap.specs.Heap.{entry};
ghost use Rattle.ready_heap.specs.declared.places.Entry.{Entry};
ghost use Rattle.ready_heap.specs.Places.{ranked, row_of, row_with, HasKeys, IsHeld, IsSound};

use crate::arena::Arena;
use rt_base::TaskNo;
use rt_rules::Key;

/// A task with its key.
#[derive(Clone, Copy)]
pub(crate) struct Entry {
    pub(crate) task: TaskNo,
    pub(crate) key: Key,
}

/// The tasks by position, and each task's node.
#[derive(Drop)]
pub(crate) struct Places {
    pub(crate) arena: Arena,
    pub(crate) tasks: Vec<TaskNo>,
    // Beside each task its key, so that a comparison looks at no node.
    pub(crate) keys: Vec<Key>,
}

impl Places {
    pub(crate) fn len(&self) -> usize
        ensures length { result ≡ length (row_of self.now).tasks }
        ensures small { result < 2 ^ 63 }
    {
        self.tasks.len()
    }

    /// The task at a position, with its key.
    pub(crate) fn entry(&self, position: usize) -> Entry
        requires inside { position < length (row_of self.now).tasks }
        requires keys { HasKeys self.now }
        ensures { ranked result ≡ entry (row_of self.now) position }
    {
        Entry {
            task: self.tasks[position],
            key: self.keys[position],
        }
    }

    /// Moves the task of a position to the free one, and frees the position that it had.
    pub(crate) fn pass(&mut self, free: usize, from: usize)
        requires keys { HasKeys self.old }
        requires inside { free < length (row_of self.old).tasks }
        requires from { from < length (row_of self.old).tasks }
        requires apart { free ≢ from }
        ensures passed { (held : Entry) → IsHeld self.old held free →
            IsSwapped (row_with self.old held free) (row_with self.new held from) free from }
        ensures held { (held : Entry) → IsHeld self.old held free → IsHeld self.new held from }
        ensures same_length { length (row_of self.new).tasks ≡ length (row_of self.old).tasks }
    {
        let task = self.tasks[from];
        self.tasks[free] = task;
        let key = self.keys[from];
        self.keys[free] = key;
        self.arena.move_to(task, free);
    }

    /// Puts the held task at the free position.
    pub(crate) fn settle(&mut self, held: Entry, free: usize)
        requires held { IsHeld self.old held free }
        requires inside { free < length (row_of self.old).tasks }
        ensures settled { row_of self.new ≡ row_with self.old held free }
        ensures sound { IsSound self.new }
    {
        self.tasks[free] = held.task;
        self.keys[free] = held.key;
        self.arena.move_to(held.task, free);
    }

    /// Takes the task of a position out, and holds the last one, for which that position is free.
    pub(crate) fn take_out(&mut self, position: usize) -> Entry
        requires sound { IsSound self.old }
        requires inside { position + 1 < length (row_of self.old).tasks }
        ensures taken { IsTaken (row_of self.old) (row_of self.new) position }
        ensures held { IsHeld self.new result position }
        ensures last { ranked result ≡ entry (row_of self.new) position }
    {
        let (Some(task), Some(key)) = (self.tasks.pop(), self.keys.pop()) else {
            unreachable!();
        };
        let gone = self.tasks[position];
        self.tasks[position] = task;
        self.keys[position] = key;
        self.arena.remove(gone);
        Entry { task, key }
    }

    /// Takes the last task out.
    pub(crate) fn pop(&mut self)
        requires some { 0 < length (row_of self.old).tasks }
        requires sound { IsSound self.old }
        ensures popped { IsPopped (row_of self.old) (row_of self.new) }
        ensures sound { IsSound self.new }
    {
        let (Some(task), Some(_)) = (self.tasks.pop(), self.keys.pop()) else {
            unreachable!();
        };
        self.arena.remove(task);
    }
}
