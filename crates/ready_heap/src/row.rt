//! Tasks in a row, each found by its position and by its number.
ghost use Rattle.std.specs.Prelude.{◌≡◌, ◌^◌, ◌<◌, IfOk, IfSome, IsSome, None, Some, [], is_some, length, replicate, slice_set};
ghost use Rattle.ready_heap.specs.Row.{key_at, task_at, IsPushed, IsRow};

use crate::arena::{Arena, Node};
use crate::places::Places;
use rt_base::{NoMemory, TaskNo};
use rt_rules::Key;
use std::alloc::Global;
use std::marker::Model;

/// A row of tasks with their keys.
#[derive(Drop)]
pub(crate) struct TaskRow {
    pub(crate) places: Places,
}

impl Model for TaskRow {
    ghost use Rattle.ready_heap.specs.Row.{Row};
    ghost use Rattle.ready_heap.specs.Places.{row_of, IsSound};

    ghost Value = { Row };

    ghost view = { λ a. row_of a.places };

    ghost invariant = { λ a. IsSound a.places };
}

impl TaskRow {
    pub(crate) fn new(alloc: Global, room: u32) -> Result<TaskRow, NoMemory>
        ensures { IfOk result (λ row. row ≡ record { keys = replicate room None; tasks = [] }) }
    {
        let arena = Arena::new(alloc, room)?;
        let tasks = Vec::with_capacity(alloc, room as usize)?;
        let keys = Vec::with_capacity(alloc, room as usize)?;
        Ok(TaskRow {
            places: Places { arena, tasks, keys },
        })
    }

    pub(crate) fn len(&self) -> usize
        ensures length { result ≡ length self.now.tasks }
        ensures small { result < 2 ^ 63 }
        ensures sound { IsRow self.now }
    {
        self.places.tasks.len()
    }

    /// The task at a position.
    pub(crate) fn task(&self, position: usize) -> TaskNo
        requires { position < length self.now.tasks }
        ensures { result.0 ≡ task_at self.now position }
    {
        self.places.tasks[position]
    }

    /// The key of the task at a position.
    pub(crate) fn key(&self, position: usize) -> Key
        requires { position < length self.now.tasks }
        ensures { key_at self.now.keys (task_at self.now position) ≡ Some result }
    {
        self.places.keys[position]
    }

    /// The position of a task, if it is in the row.
    pub(crate) fn position(&self, task: TaskNo) -> Option<usize>
        requires { task.0 < length self.now.keys }
        ensures found { IfSome result (λ position. (position < length self.now.tasks) ×
            (task_at self.now position ≡ task.0)) }
        ensures there { is_some result ≡ is_some (key_at self.now.keys task.0) }
        ensures sound { IsRow self.now }
    {
        match self.places.arena.get(task) {
            Some(node) => Some(node.position),
            None => None,
        }
    }

    /// Appends a task that is not in.
    pub(crate) fn push(&mut self, task: TaskNo, key: Key)
        requires room { task.0 < length self.old.keys }
        requires absent { key_at self.old.keys task.0 ≡ None }
        ensures pushed { IsPushed self.old self.new task.0 key }
        ensures sound { IsRow self.new }
    {
        let position = self.places.tasks.len();
        self.places.arena.insert(task, Node { key, position });
        self.places.tasks.push_reserved(task);
        self.places.keys.push_reserved(key);
    }

    /// Gives the task at a position another key.
    pub(crate) fn rekey(&mut self, position: usize, key: Key)
        requires { position < length self.old.tasks }
        ensures rekeyed { self.new ≡ record self.old {
          keys = slice_set self.old.keys (task_at self.old position) (Some key);
        } }
        ensures sound { IsRow self.new }
    {
        let task = self.places.tasks[position];
        self.places.keys[position] = key;
        self.places.arena.rekey(task, key);
    }
}
