//! A semaphore under the FMLP for long requests (Block, Leontyev, Brandenburg and Anderson, RTCSA 2007): requests
//! wait first in, first out.
#![tactic(auto)]

ghost use Rattle.std.specs.Prelude.{◌≡◌, ◌<◌, ◌≢◌, ◌↔◌, ◌+◌, ◌≤◌, ◌++◌, [], false, length, IfOk, Some, None, vec_len, vec_capacity};
ghost use Rattle.rt_base.specs.TaskNos.{number_of_task, numbers};
ghost use Rattle.rt_rules.specs.Numbers.{has, first};
ghost use Rattle.rt_rules.specs.SemState.{in_line, Asks, Frees};
ghost use Rattle.rt_rules.specs.Fmlp.{fmlp_after};
ghost use Rattle.fmlp_sem.specs.FmlpLine.{FmlpLine};

use rt_base::{Ask, NoMemory, TaskNo};
use rt_rules::Key;
use sem_laws::list_behind_first;
use std::alloc::Global;
use std::collections::VecDeque;
use std::marker::Model;

/// An FMLP semaphore (Block, Leontyev, Brandenburg and Anderson, RTCSA 2007): requests wait in the order of asking;
/// the first of them holds.
#[derive(Drop)]
pub struct FmlpSem {
    line: VecDeque<TaskNo>,
    room: u32,
}

impl Model for FmlpSem {
    ghost use Rattle.std.specs.VecDeque.{deque_capacity};
    ghost use Rattle.rt_base.specs.TaskNos.{numbers};
    ghost use Rattle.fmlp_sem.specs.FmlpLine.{FmlpLine, IsRoomy};

    ghost Value = { FmlpLine };

    ghost view = { λ a. record { room = a.room; line = numbers a.line.items } };

    ghost invariant = { λ a. IsRoomy a.room (deque_capacity a.line) (numbers a.line.items) };
}

impl FmlpSem {
    /// A semaphore that nobody holds, for tasks whose numbers are below `room`. No later call takes memory.
    ///
    /// Example: `FmlpSem::new(alloc, 64)` takes the tasks 0 to 63.
    pub fn new(alloc: Global, room: u32) -> Result<FmlpSem, NoMemory>
        ensures { IfOk result (λ s. s ≡ record { room = room; line = [] }) }
    {
        let line = VecDeque::with_capacity(alloc, room as usize)?;
        Ok(FmlpSem { line, room })
    }

    /// The task asks for the semaphore. It holds it from now on where nobody did, else it waits behind all others.
    /// Its base key does not matter.
    ///
    /// Example: the first `sem.ask(task, key)` is `Ask::Granted`, and the next one, of another task, `Ask::Queued`.
    pub fn ask(&mut self, task: TaskNo, key: Key) -> Ask
        requires below { task.0 < self.old.room }
        requires outside { has task.0 self.old.line ≡ false }
        ensures after { self.new ≡
            record self.old { line = fmlp_after (Asks task.0 0) self.old.line } }
        ensures granted { (result ≡ Ask.Granted) ↔ ((in_line self.old.line).holder ≡ None) }
        ensures queued { (result ≡ Ask.Queued) ↔ ((in_line self.old.line).holder ≢ None) }
    {
        let answer = if self.line.is_empty() {
            Ask::Granted
        } else {
            Ask::Queued
        };
        self.line.push_back_reserved(task);
        answer
    }

    /// The task, which holds the semaphore, frees it. The next in line holds it from now on: the answer. `None` where
    /// nobody waited.
    ///
    /// Example: where task 1 holds and task 2 waits, `sem.release(TaskNo(1))` is `Some(TaskNo(2))`.
    pub fn release(&mut self, task: TaskNo) -> Option<TaskNo>
        requires { (in_line self.old.line).holder ≡ Some task.0 }
        ensures after { self.new ≡
            record self.old { line = fmlp_after (Frees task.0 0) self.old.line } }
        ensures next { number_of_task result ≡ (in_line self.new.line).holder }
        ensures nobody { (result ≡ None) ↔ ((in_line self.old.line).waiting ≡ []) }
    {
        self.line.pop_front();
        self.holder()
    }

    /// The task that holds the semaphore.
    ///
    /// Example: `sem.holder()` is `None` at a new semaphore.
    pub fn holder(&self) -> Option<TaskNo>
        ensures { number_of_task result ≡ (in_line self.now.line).holder }
    {
        self.line.front().copied()
    }

    /// How many tasks wait.
    ///
    /// Example: `sem.waiters()` is 1 where one task holds and one waits.
    pub fn waiters(&self) -> u32
        ensures { result ≡ length (in_line self.now.line).waiting }
    {
        self.line.len().saturating_sub(1) as u32
    }

    /// Adds the tasks that wait, in the order of asking, behind what `into` holds, which has room for them. It takes
    /// no memory.
    ///
    /// Example: where task 1 holds and tasks 4 and 2 wait in this order, `sem.list_waiting(&mut into)` adds 4, 2.
    pub fn list_waiting(&self, into: &mut Vec<TaskNo>)
        requires room { vec_len into.old + length (in_line self.now.line).waiting ≤
            vec_capacity into.old }
        ensures tasks { numbers into.new.items ≡
            numbers into.old.items ++ (in_line self.now.line).waiting }
        ensures capacity { vec_capacity into.new ≡ vec_capacity into.old }
    {
        list_behind_first(&self.line, into);
    }
}
