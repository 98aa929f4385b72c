//! The arrivals of sporadic tasks that wait for their jobs: for each task a queue of clocks, in room that is taken once.
#![tactic(auto)]

ghost use Rattle.std.specs.Prelude.{◌≡◌, ◌-◌, ◌<◌, ◌≤◌, ◌∷◌, ◌++◌, [], IfOk, IfSome, length, replicate, slice_set, vec_capacity};
ghost use Rattle.arrival_queue.specs.Waiting.{queue_at, first_of, rest_of};
ghost use Rattle.arrival_queue.specs.Chains.{followed};

use rt_base::{NoMemory, TaskNo, Tick};
use std::alloc::Global;
use std::marker::Model;

/// An arrival: its task, its clock, and the position of the task's next arrival.
#[derive(Clone, Copy, PartialEq, Eq)]
struct Arrival {
    task: u32,
    clock: u64,
    next: Option<usize>,
}

/// Of a task the positions of its first arrival that waits, and of its newest one.
#[derive(Clone, Copy, PartialEq, Eq)]
struct Ends {
    first: Option<usize>,
    newest: Option<usize>,
}

/// For each task the clocks of its arrivals that wait, the earliest first, with room for a number of arrivals of all
/// tasks together.
///
/// Each call takes a constant time. An arrival that was taken keeps its position: the room is for all arrivals together.
#[derive(Drop)]
pub struct ArrivalQueue {
    arrivals: Vec<Arrival>,
    ends: Vec<Ends>,
    room: usize,
}

impl Model for ArrivalQueue {
    ghost use Rattle.std.specs.Prelude.{◌-◌, ◌≤◌, length, vec_capacity};
    ghost use Rattle.arrival_queue.specs.Waiting.{Waiting};
    ghost use Rattle.arrival_queue.specs.Chains.{waiting_of, IsChained};

    ghost Value = { Waiting };

    ghost view = { λ a. record {
      queues = waiting_of a.arrivals.items a.ends.items;
      room = a.room - length a.arrivals.items;
    } };

    ghost invariant = { λ a. IsChained a.arrivals.items a.ends.items
        × (length a.arrivals.items ≤ a.room) × (a.room ≤ vec_capacity a.arrivals) };
}

// The next arrival of the newest one's task is at this position.
fn link_behind(arrivals: &mut Vec<Arrival>, newest: Option<usize>, position: usize)
    requires { IfSome newest (λ i. i < length arrivals.old.items) }
    ensures items { arrivals.new.items ≡ followed arrivals.old.items newest position }
    ensures room { vec_capacity arrivals.new ≡ vec_capacity arrivals.old }
{
    if let Some(newest) = newest {
        arrivals[newest].next = Some(position);
    }
}

impl ArrivalQueue {
    /// Empty queues for the tasks whose numbers are below `tasks`, with room for `room` arrivals. No later call takes
    /// memory.
    ///
    /// Example: `ArrivalQueue::new(alloc, 4, 100)` takes the tasks 0 to 3, and 100 arrivals of them together.
    pub fn new(alloc: Global, tasks: u32, room: u32) -> Result<ArrivalQueue, NoMemory>
        ensures { IfOk result (λ q. q ≡ record { queues = replicate tasks []; room = room }) }
    {
        let arrivals = Vec::with_capacity(alloc, room as usize)?;
        let none = Ends {
            first: None,
            newest: None,
        };
        let ends = vec![in alloc; none; tasks as usize]?;
        Ok(ArrivalQueue {
            arrivals,
            ends,
            room: room as usize,
        })
    }

    /// The clock of the task's first arrival that waits; none where none waits.
    ///
    /// Example: after `queue.push(TaskNo(2), Tick(7))` in a new queue, `queue.first(TaskNo(2))` is `Some(7)`.
    pub fn first(&self, task: TaskNo) -> Option<u64>
        requires { task.0 < length self.now.queues }
        ensures { result ≡ first_of (queue_at self.now.queues task.0) }
    {
        let position = self.ends[task.0 as usize].first?;
        Some(self.arrivals[position].clock)
    }

    /// An arrival of the task at this clock, behind those that wait. It takes one of the room.
    ///
    /// Example: `queue.push(TaskNo(2), Tick(9))` after `queue.push(TaskNo(2), Tick(7))` keeps 7 as the first.
    pub fn push(&mut self, task: TaskNo, clock: Tick)
        requires task { task.0 < length self.old.queues }
        requires room { 0 < self.old.room }
        ensures queues { self.new.queues ≡ slice_set self.old.queues task.0
            (queue_at self.old.queues task.0 ++ clock.0 ∷ []) }
        ensures room { self.new.room ≡ self.old.room - 1 }
    {
        let position = self.arrivals.len();
        let ends = self.ends[task.0 as usize];
        link_behind(&mut self.arrivals, ends.newest, position);
        self.arrivals.push_reserved(Arrival {
            task: task.0,
            clock: clock.0,
            next: None,
        });
        self.ends[task.0 as usize] = Ends {
            first: Some(ends.first.unwrap_or(position)),
            newest: Some(position),
        };
    }

    /// Takes the task's first arrival that waits, if there is one.
    ///
    /// Example: of arrivals at 7 and 9 `queue.drop_first(TaskNo(2))` leaves the one at 9.
    pub fn drop_first(&mut self, task: TaskNo)
        requires { task.0 < length self.old.queues }
        ensures queues { self.new.queues ≡ slice_set self.old.queues task.0
            (rest_of (queue_at self.old.queues task.0)) }
        ensures room { self.new.room ≡ self.old.room }
    {
        let ends = self.ends[task.0 as usize];
        if let Some(position) = ends.first {
            self.ends[task.0 as usize] = Ends {
                first: self.arrivals[position].next,
                newest: ends.newest,
            };
        }
    }
}
