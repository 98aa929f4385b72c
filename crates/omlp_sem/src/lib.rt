//! A semaphore under the OMLP (Brandenburg and Anderson, RTSS 2010): a FIFO list of at most so many requests, fed by
//! a priority queue.
#![tactic(auto)]

ghost use Rattle.std.specs.Prelude.{◌≡◌, ◌<◌, ◌≤◌, ◌≢◌, ◌↔◌, ◌+◌, ◌++◌, [], ℕ, true, false, length, IfOk, Some, None, slice_set, vec_len, vec_capacity};
ghost use Rattle.rt_base.specs.TaskNos.{number_of_task, numbers};
ghost use Rattle.rt_rules.specs.KeyOrder.{equal_keys};
ghost use Rattle.rt_rules.specs.Numbers.{has};
ghost use Rattle.rt_rules.specs.SemState.{Asks, Frees};
ghost use Rattle.rt_rules.specs.Omlp.{omlp_after, omlp_sem_state};
ghost use Rattle.sem_laws.specs.KeptKeys.{key_at, above};
ghost use Rattle.omlp_sem.specs.OmlpKept.{OmlpKept};

use key_queue::KeyQueue;
use rt_base::{Ask, NoMemory, TaskNo};
use rt_rules::Key;
use sem_laws::list_behind_first;
use std::alloc::Global;
use std::collections::VecDeque;
use std::marker::Model;

/// An OMLP semaphore (Brandenburg and Anderson, RTSS 2010): its FIFO list takes at most `cap` requests, of which the
/// first holds; all others wait in a priority queue. It keeps the key with which a task asked.
#[derive(Drop)]
pub struct OmlpSem {
    cap: u32,
    fifo: VecDeque<TaskNo>,
    queue: KeyQueue,
}

impl Model for OmlpSem {
    ghost use Rattle.std.specs.Prelude.{length};
    ghost use Rattle.std.specs.VecDeque.{deque_capacity};
    ghost use Rattle.rt_base.specs.TaskNos.{numbers};
    ghost use Rattle.omlp_sem.specs.OmlpKept.{OmlpKept, IsOmlp};

    ghost Value = { OmlpKept };

    ghost view = { λ a. record {
      cap = a.cap;
      state = record { fifo = numbers a.fifo.items; queue = a.queue.waiting };
      keys = a.queue.keys;
    } };

    ghost invariant = { λ a. IsOmlp a.cap (length a.queue.keys) (deque_capacity a.fifo)
        (numbers a.fifo.items) a.queue.waiting };
}

impl OmlpSem {
    /// A semaphore that nobody holds, whose FIFO list takes at most `cap` requests, for tasks whose numbers are below
    /// `room`. No later call takes memory.
    ///
    /// Example: `OmlpSem::new(alloc, 2, 64)` for a cluster of two processors.
    pub fn new(alloc: Global, cap: u32, room: u32) -> Result<OmlpSem, NoMemory>
        requires { 1 ≤ cap }
        ensures free { IfOk result (λ s. s.state ≡ record { fifo = []; queue = [] }) }
        ensures cap { IfOk result (λ s. s.cap ≡ cap) }
        ensures room { IfOk result (λ s. length s.keys ≡ room) }
    {
        let fifo = VecDeque::with_capacity(alloc, cap.min(room) as usize)?;
        let queue = KeyQueue::new(alloc, room)?;
        Ok(OmlpSem { cap, fifo, queue })
    }

    /// The task asks for the semaphore with its base key. It joins the FIFO list where that has room, else the
    /// priority queue; it holds where nobody did. No waiting task asked with that key.
    ///
    /// Example: with a cap of 2, the third task that asks joins the priority queue.
    pub fn ask(&mut self, task: TaskNo, key: Key) -> Ask
        requires below { task.0 < length self.old.keys }
        requires free_hands { (omlp_sem_state self.old.state).holder ≢ Some task.0 }
        requires outside { has task.0 (omlp_sem_state self.old.state).waiting ≡ false }
        requires apart { (t : ℕ) → has t (omlp_sem_state self.old.state).waiting ≡ true →
            equal_keys (key_at self.old.keys t) key ≡ false }
        ensures after { self.new ≡ record {
          cap = self.old.cap;
          state = omlp_after self.old.cap (above self.old.keys) (Asks task.0 0) self.old.state;
          keys = slice_set self.old.keys task.0 key;
        } }
        ensures granted { (result ≡ Ask.Granted) ↔ ((omlp_sem_state self.old.state).holder ≡ None) }
        ensures queued { (result ≡ Ask.Queued) ↔ ((omlp_sem_state self.old.state).holder ≢ None) }
    {
        let answer = if self.fifo.is_empty() {
            Ask::Granted
        } else {
            Ask::Queued
        };
        if self.fifo.len() < self.cap as usize {
            self.queue.note(task, key);
            self.fifo.push_back_reserved(task);
        } else {
            self.queue.push(task, key);
        }
        answer
    }

    /// The task, which holds the semaphore, frees it: it leaves the FIFO list, and the task of the highest key of the
    /// priority queue, if any, joins that list. The answer is the task that holds from now on, `None` where nobody
    /// waited.
    ///
    /// Example: where task 1 holds and task 2 is next in the FIFO list, `sem.release(TaskNo(1))` is `Some(TaskNo(2))`.
    pub fn release(&mut self, task: TaskNo) -> Option<TaskNo>
        requires { (omlp_sem_state self.old.state).holder ≡ Some task.0 }
        ensures after { self.new ≡
            record self.old {
              state = omlp_after self.old.cap (above self.old.keys) (Frees task.0 0)
                  self.old.state;
            } }
        ensures next { number_of_task result ≡ (omlp_sem_state self.new.state).holder }
        ensures nobody { (result ≡ None) ↔ ((omlp_sem_state self.old.state).waiting ≡ []) }
    {
        self.fifo.pop_front();
        if let Some(next) = self.queue.pop() {
            self.fifo.push_back_reserved(next);
        }
        self.holder()
    }

    /// The task that holds the semaphore.
    ///
    /// Example: `sem.holder()` is `None` at a new semaphore.
    pub fn holder(&self) -> Option<TaskNo>
        ensures { number_of_task result ≡ (omlp_sem_state self.now.state).holder }
    {
        self.fifo.front().copied()
    }

    /// How many tasks wait.
    ///
    /// Example: `sem.waiters()` counts those of both lists but the holder.
    pub fn waiters(&self) -> u32
        ensures { result ≡ length (omlp_sem_state self.now.state).waiting }
    {
        self.fifo.len().saturating_sub(1) as u32 + self.queue.len()
    }

    /// Adds the tasks that wait behind what `into` holds, which has room for them: first those of the FIFO list, then
    /// those of the priority queue, each in the order of joining it. It takes no memory.
    ///
    /// Example: with a cap of 2, where tasks 1, 4 and 2 asked in this order, `sem.list_waiting(&mut into)` adds 4, 2.
    pub fn list_waiting(&self, into: &mut Vec<TaskNo>)
        requires room { vec_len into.old + length (omlp_sem_state self.now.state).waiting ≤
            vec_capacity into.old }
        ensures tasks { numbers into.new.items ≡
            numbers into.old.items ++ (omlp_sem_state self.now.state).waiting }
        ensures capacity { vec_capacity into.new ≡ vec_capacity into.old }
    {
        list_behind_first(&self.fifo, into);
        self.queue.list(into);
    }
}
