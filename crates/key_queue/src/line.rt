//! A list of tasks from which any can leave in constant time.
ghost use Rattle.std.specs.Prelude.{◌≡◌, ◌<◌, ◌≤◌, [], ◌∷◌, ◌++◌, ◌+◌, true, false, List, ℕ, IfOk, length, replicate, vec_len, vec_capacity};
ghost use Rattle.rt_base.specs.TaskNos.{numbers};
ghost use Rattle.rt_rules.specs.Numbers.{has, without};
ghost use Rattle.key_queue.specs.Ring.{IsRing, Line, ring_tasks};

use rt_base::{NoMemory, TaskNo};
use std::alloc::Global;
use std::marker::Model;

/// Tasks in the order of coming, each once, with numbers below a room. They are kept as a ring: each position names the
/// next and the previous one, and the room itself is the position before the first and after the last.
#[derive(Drop)]
pub struct TaskLine {
    next: Vec<u32>,
    previous: Vec<u32>,
    room: u32,
}

impl Model for TaskLine {
    ghost use Rattle.key_queue.specs.Ring.{Line, IsRing, ring_tasks};

    ghost Value = { Line };

    ghost view = { λ a. record { room = a.room; tasks = ring_tasks a.next.items a.room } };

    ghost invariant = { λ a. IsRing a.next.items a.previous.items a.room
        (ring_tasks a.next.items a.room) };
}

// The links of a ring in which the room stands alone.
fn empty_ring(alloc: Global, room: u32) -> Result<Vec<u32>, NoMemory>
    ensures { IfOk result (λ v. v.items ≡ replicate (room + 1) room) }
{
    Ok(vec![in alloc; room; room as usize + 1]?)
}

// Adds the numbers of a ring behind what `into` holds, which has room for them.
fn add_ring(next: &[u32], room: u32, into: &mut Vec<TaskNo>)
    requires ring { (previous : List ℕ) ×
        IsRing next.now previous room (ring_tasks next.now room) }
    requires room { vec_len into.old + length (ring_tasks next.now room) ≤ vec_capacity into.old }
    ensures tasks { numbers into.new.items ≡
        numbers into.old.items ++ ring_tasks next.now room }
    ensures capacity { vec_capacity into.new ≡ vec_capacity into.old }
{
    let mut position = next[room as usize];
    for _step in 0..room {
        if position == room {
            return;
        }
        into.push_reserved(TaskNo(position));
        position = next[position as usize];
    }
}

impl TaskLine {
    /// An empty line for tasks whose numbers are below `room`. No later call takes memory.
    ///
    /// Example: `TaskLine::new(alloc, 64)` takes the tasks 0 to 63.
    pub fn new(alloc: Global, room: u32) -> Result<TaskLine, NoMemory>
        ensures { IfOk result (λ l. l ≡ record { room = room; tasks = [] }) }
    {
        Ok(TaskLine {
            next: empty_ring(alloc, room)?,
            previous: empty_ring(alloc, room)?,
            room,
        })
    }

    /// The task comes last.
    ///
    /// Example: after `push` of tasks 4 and 2 the line is 4, 2.
    pub fn push(&mut self, task: TaskNo)
        requires below { task.0 < self.old.room }
        requires outside { has task.0 self.old.tasks ≡ false }
        ensures { self.new ≡ record self.old { tasks = self.old.tasks ++ task.0 ∷ [] } }
    {
        let room = self.room as usize;
        let position = task.0 as usize;
        let last = self.previous[room];
        self.next[last as usize] = task.0;
        self.next[position] = self.room;
        self.previous[position] = last;
        self.previous[room] = task.0;
    }

    /// The task leaves, wherever it stands.
    ///
    /// Example: after `remove` of task 4 the line 4, 2 is 2.
    pub fn remove(&mut self, task: TaskNo)
        requires { has task.0 self.old.tasks ≡ true }
        ensures { self.new ≡ record self.old { tasks = without task.0 self.old.tasks } }
    {
        let position = task.0 as usize;
        let next = self.next[position];
        let previous = self.previous[position];
        self.next[previous as usize] = next;
        self.previous[next as usize] = previous;
    }

    /// Adds the tasks in the order of coming behind what `into` holds, which has room for them. It takes no memory.
    ///
    /// Example: where `into` is empty and the line is 4, 2, `into` is 4, 2 afterwards.
    pub fn list(&self, into: &mut Vec<TaskNo>)
        requires room { vec_len into.old + length self.now.tasks ≤ vec_capacity into.old }
        ensures tasks { numbers into.new.items ≡ numbers into.old.items ++ self.now.tasks }
        ensures capacity { vec_capacity into.new ≡ vec_capacity into.old }
    {
        add_ring(self.next.as_slice(), self.room, into);
    }
}
