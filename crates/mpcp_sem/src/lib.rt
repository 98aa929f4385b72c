//! A semaphore under the MPCP (Rajkumar, ICDCS 1990) in its suspension-based form: at a release the waiting task of
//! the highest base key is next.
#![tactic(auto)]

ghost use Rattle.std.specs.Prelude.{◌≡◌, ◌<◌, ◌≢◌, ◌↔◌, ◌+◌, ◌≤◌, ◌++◌, [], ℕ, true, false, length, IfOk, Some, None, slice_set, vec_len, vec_capacity};
ghost use Rattle.rt_base.specs.TaskNos.{number_of_task, numbers};
ghost use Rattle.rt_rules.specs.KeyOrder.{equal_keys};
ghost use Rattle.rt_rules.specs.Numbers.{has};
ghost use Rattle.rt_rules.specs.SemState.{Asks, Frees};
ghost use Rattle.rt_rules.specs.Mpcp.{mpcp_after};
ghost use Rattle.sem_laws.specs.KeptKeys.{key_at, above};
ghost use Rattle.mpcp_sem.specs.MpcpState.{MpcpState};

use key_queue::KeyQueue;
use rt_base::{Ask, NoMemory, TaskNo};
use rt_rules::Key;
use std::alloc::Global;
use std::marker::Model;

/// An MPCP semaphore (Rajkumar, ICDCS 1990), which passes on to the waiting task of the highest base key. It keeps
/// the key with which a task asked.
#[derive(Drop)]
pub struct MpcpSem {
    holder: Option<TaskNo>,
    queue: KeyQueue,
}

impl Model for MpcpSem {
    ghost use Rattle.rt_base.specs.TaskNos.{number_of_task};
    ghost use Rattle.mpcp_sem.specs.MpcpState.{MpcpState};

    ghost Value = { MpcpState };

    ghost view = { λ a. record {
      state = record {
        holder = number_of_task a.holder;
        waiting = a.queue.waiting;
      };
      keys = a.queue.keys;
    } };
}

impl MpcpSem {
    /// A semaphore that nobody holds, for tasks whose numbers are below `room`. No later call takes memory.
    ///
    /// Example: `MpcpSem::new(alloc, 64)` takes the tasks 0 to 63.
    pub fn new(alloc: Global, room: u32) -> Result<MpcpSem, NoMemory>
        ensures free { IfOk result (λ s. s.state ≡ record { holder = None; waiting = [] }) }
        ensures room { IfOk result (λ s. length s.keys ≡ room) }
    {
        let queue = KeyQueue::new(alloc, room)?;
        Ok(MpcpSem {
            holder: None,
            queue,
        })
    }

    /// The task asks for the semaphore with its base key. It holds it from now on where nobody did, else it waits. No
    /// other waiting task asked with that key.
    ///
    /// Example: the first `sem.ask(task, key)` is `Ask::Granted`, and the next one, of another task, `Ask::Queued`.
    pub fn ask(&mut self, task: TaskNo, key: Key) -> Ask
        requires below { task.0 < length self.old.keys }
        requires free_hands { self.old.state.holder ≢ Some task.0 }
        requires outside { has task.0 self.old.state.waiting ≡ false }
        requires apart { (t : ℕ) → has t self.old.state.waiting ≡ true →
            equal_keys (key_at self.old.keys t) key ≡ false }
        ensures after { self.new ≡
            record {
              state = mpcp_after (above self.old.keys) (Asks task.0 0) self.old.state;
              keys = slice_set self.old.keys task.0 key;
            } }
        ensures granted { (result ≡ Ask.Granted) ↔ (self.old.state.holder ≡ None) }
        ensures queued { (result ≡ Ask.Queued) ↔ (self.old.state.holder ≢ None) }
    {
        if self.holder.is_none() {
            self.queue.note(task, key);
            self.holder = Some(task);
            Ask::Granted
        } else {
            self.queue.push(task, key);
            Ask::Queued
        }
    }

    /// The task, which holds the semaphore, frees it. The waiting task of the highest key holds it from now on: the
    /// answer. `None` where nobody waited.
    ///
    /// Example: where task 1 holds, and tasks 2 and 3 wait, of which 3 has the higher key, it is `Some(TaskNo(3))`.
    pub fn release(&mut self, task: TaskNo) -> Option<TaskNo>
        requires { self.old.state.holder ≡ Some task.0 }
        ensures after { self.new ≡
            record self.old {
              state = mpcp_after (above self.old.keys) (Frees task.0 0)
                  self.old.state;
            } }
        ensures next { number_of_task result ≡ self.new.state.holder }
        ensures nobody { (result ≡ None) ↔ (self.old.state.waiting ≡ []) }
    {
        self.holder = self.queue.pop();
        self.holder
    }

    /// The task that holds the semaphore.
    ///
    /// Example: `sem.holder()` is `None` at a new semaphore.
    pub fn holder(&self) -> Option<TaskNo>
        ensures { number_of_task result ≡ self.now.state.holder }
    {
        self.holder
    }

    /// How many tasks wait.
    ///
    /// Example: `sem.waiters()` is 1 where one task holds and one waits.
    pub fn waiters(&self) -> u32
        ensures { result ≡ length self.now.state.waiting }
    {
        self.queue.len()
    }

    /// Adds the tasks that wait, in the order of asking, behind what `into` holds, which has room for them. It takes
    /// no memory.
    ///
    /// Example: where task 1 holds and tasks 4 and 2 wait in this order, `sem.list_waiting(&mut into)` adds 4, 2.
    pub fn list_waiting(&self, into: &mut Vec<TaskNo>)
        requires room { vec_len into.old + length self.now.state.waiting ≤ vec_capacity into.old }
        ensures tasks { numbers into.new.items ≡
            numbers into.old.items ++ self.now.state.waiting }
        ensures capacity { vec_capacity into.new ≡ vec_capacity into.old }
    {
        self.queue.list(into);
    }
}
