//! Release timers: the tasks that wait for a tick, each armed at most once, and which of them is due.
#![tactic(auto)]

ghost use Rattle.std.specs.Prelude.{◌≡◌, ◌<◌, IfNone, IfOk, IfSome, None, Some, is_some, length, replicate, slice_set};
ghost use Rattle.ready_heap.specs.Row.{key_at};
ghost use Rattle.release_queue.specs.Timers.{key_of_tick, tick_at, IsNextDue, NothingDue};

use ready_heap::{ReadyHeap, uncounted};
use rt_base::{NoMemory, TaskNo, Tick};
use rt_rules::{ByKey, Key};
use std::alloc::Global;
use std::marker::Model;

/// The armed tasks, in a heap by tick: contracts see at each task's number below the room the tick that the task waits
/// for, or none where it is not armed.
#[derive(Drop)]
pub struct ReleaseQueue {
    heap: ReadyHeap<ByKey>,
    // The tick that each task was last armed for.
    ticks: Vec<u64>,
}

impl Model for ReleaseQueue {
    ghost use Rattle.std.specs.Prelude.{List, Option, ℕ};
    ghost use Rattle.release_queue.specs.Timers.{ticks_in, IsTimed};

    ghost Value = { List (Option ℕ) };

    ghost view = { λ q. ticks_in q.heap.keys };

    ghost invariant = { λ q. IsTimed q.heap.keys q.ticks.items };
}

// A tick in the heap, whose elements are keys: it stands where a base key has the deadline, so that the earlier is the
// higher. No other key is in this heap, and none of them is a task's priority.
fn key_of(tick: u64) -> Key
    ensures { result ≡ key_of_tick tick }
{
    Key {
        band: 2,
        major: tick,
        minor: 0,
    }
}

impl ReleaseQueue {
    /// A queue with nothing armed, for tasks whose numbers are below the room. No later call takes memory.
    ///
    /// Example: `ReleaseQueue::new(alloc, 64)` takes the tasks 0 to 63.
    pub fn new(alloc: Global, room: u32) -> Result<ReleaseQueue, NoMemory>
        ensures { IfOk result (λ queue. queue ≡ replicate room None) }
    {
        let heap = ReadyHeap::new(alloc, ByKey, room)?;
        let ticks = vec![in alloc; 0; room as usize]?;
        Ok(ReleaseQueue { heap, ticks })
    }

    /// Arms a task that is not armed: it waits for the tick.
    ///
    /// Example: `queue.arm(TaskNo(2), 100)` makes task 2 due at tick 100.
    pub fn arm(&mut self, task: TaskNo, tick: u64)
        requires room { task.0 < length self.old }
        requires absent { tick_at self.old task.0 ≡ None }
        ensures { self.new ≡ slice_set self.old task.0 (Some tick) }
    {
        self.ticks[task.0 as usize] = tick;
        uncounted::put_in(&mut self.heap, task, key_of(tick));
    }

    /// Disarms the task. Whether it was armed.
    ///
    /// Example: `queue.cancel(TaskNo(2))` is true once after task 2 was armed.
    pub fn cancel(&mut self, task: TaskNo) -> bool
        requires { task.0 < length self.old }
        ensures was_armed { result ≡ is_some (tick_at self.old task.0) }
        ensures cancelled { self.new ≡ slice_set self.old task.0 None }
    {
        uncounted::take_out(&mut self.heap, task)
    }

    /// Disarms and gives the task of the earliest tick, and of several the one with the lowest number, where that tick
    /// is at most `now`; none where nothing is due.
    ///
    /// Example: `while let Some(task) = queue.next_due(now)` goes through the releases that are due, earliest first.
    pub fn next_due(&mut self, now: Tick) -> Option<TaskNo>
        ensures due { IfSome result (λ task. IsNextDue self.old now.0 task.0) }
        ensures taken { IfSome result (λ task. self.new ≡ slice_set self.old task.0 None) }
        ensures none { IfNone result (NothingDue self.old now.0) }
        ensures stays { IfNone result (self.new ≡ self.old) }
    {
        let Some(task) = self.heap.first() else {
            return None;
        };
        if self.ticks[task.0 as usize] > now.0 {
            return None;
        }
        let _ = uncounted::take_out(&mut self.heap, task);
        Some(task)
    }
}
