//! The semaphores of one cluster under the SRP (Baker, Real-Time Systems, 1991): each lock is granted, and a task is
//! tested before it starts, against the ceilings of all that other tasks hold.
#![tactic(auto)]

ghost use Rattle.std.specs.Prelude.{◌≡◌, ◌<◌, ◌↔◌, ◌==◌, [], false, length, filter, IfOk, IsNone, Some, vec_capacity};
ghost use Rattle.rt_base.specs.TaskNos.{number_of_task};
ghost use Rattle.rt_rules.specs.Distinct.{IsDistinct};
ghost use Rattle.rt_rules.specs.Numbers.{has};
ghost use Rattle.rt_rules.specs.SemState.{Asks, Frees};
ghost use Rattle.rt_rules.specs.Srp.{newest_held, srp_after, srp_passes, srp_sem_state};
ghost use Rattle.srp_sem.specs.Pairs.{sems_of, tasks_of};
ghost use Rattle.srp_sem.specs.SrpKept.{SrpKept, ceiling_at};

use pairs::Pair;
use rt_base::{NoMemory, TaskNo};
use std::alloc::Global;
use std::marker::Model;

mod pairs;

/// SRP semaphores (Baker, 1991), numbered from 0, with their ceilings: the smallest relative deadline of the users of
/// each.
#[derive(Drop)]
pub struct SrpSet {
    ceilings: Vec<u64>,
    held: Vec<Pair>,
    room: u32,
}

impl Model for SrpSet {
    ghost use Rattle.std.specs.Prelude.{vec_capacity};
    ghost use Rattle.srp_sem.specs.Listed.{pairs};
    ghost use Rattle.srp_sem.specs.SrpKept.{SrpKept};
    ghost use Rattle.srp_sem.specs.IsSrp.{IsSrp};

    ghost Value = { SrpKept };

    ghost view = { λ a. record {
      ceilings = a.ceilings.items;
      held = pairs a.held.items;
      room = a.room;
    } };

    ghost invariant = { λ a. IsSrp a.ceilings.items (pairs a.held.items) (vec_capacity a.held) };
}

impl SrpSet {
    /// A set whose semaphores nobody holds, for tasks whose numbers are below `room`. No later call takes memory.
    ///
    /// Example: `SrpSet::new(alloc, &ceilings, 64)` has semaphore 0 with the first of the ceilings.
    pub fn new(alloc: Global, ceilings: &[u64], room: u32) -> Result<SrpSet, NoMemory>
        ensures free { IfOk result (λ s. s.held ≡ []) }
        ensures ceilings { IfOk result (λ s. s.ceilings ≡ ceilings.now) }
        ensures room { IfOk result (λ s. s.room ≡ room) }
    {
        Ok(SrpSet {
            ceilings: Vec::from_slice(alloc, ceilings)?,
            held: pairs::reserved(alloc, ceilings.len())?,
            room,
        })
    }

    /// The task locks the semaphore, which nobody holds, and holds it from now on. It holds fewer than eight before.
    ///
    /// Example: after `set.ask(TaskNo(1), 0)` task 1 is `set.holder(0)`.
    pub fn ask(&mut self, task: TaskNo, sem: u32)
        requires below { task.0 < self.old.room }
        requires known { sem < length self.old.ceilings }
        requires free { has sem (sems_of self.old.held) ≡ false }
        requires few { length (filter (λ p. p.task == task.0) self.old.held) < 8 }
        ensures after { self.new ≡
            record self.old { held = srp_after (Asks task.0 sem) self.old.held } }
        ensures one_holder { IsDistinct (sems_of self.new.held) }
    {
        pairs::put_first(&mut self.held, Pair { task, sem });
    }

    /// The task frees the semaphore, the last that it locked among those it holds.
    ///
    /// Example: after `set.release(TaskNo(1), 0)` nobody holds semaphore 0.
    pub fn release(&mut self, task: TaskNo, sem: u32)
        requires known { sem < length self.old.ceilings }
        requires last { newest_held self.old.held task.0 ≡ Some sem }
        ensures after { self.new ≡
            record self.old { held = srp_after (Frees task.0 sem) self.old.held } }
        ensures one_holder { IsDistinct (sems_of self.new.held) }
    {
        pairs::take_out(&mut self.held, Pair { task, sem });
    }

    /// Whether the number, the relative deadline of the task, is below the ceilings of all semaphores that other tasks
    /// hold.
    ///
    /// Example: where another task holds a semaphore whose ceiling is 50, `set.passes(task, 50)` is false.
    pub fn passes(&self, task: TaskNo, rel_deadline: u64) -> bool
        ensures { result ≡
            srp_passes (ceiling_at self.now.ceilings) self.now.held task.0 rel_deadline }
    {
        pairs::does_pass(
            self.held.as_slice(),
            self.ceilings.as_slice(),
            task,
            rel_deadline,
        )
    }

    /// The task that holds the semaphore.
    ///
    /// Example: `set.holder(0)` is `None` in a new set.
    pub fn holder(&self, sem: u32) -> Option<TaskNo>
        ensures holder { number_of_task result ≡ (srp_sem_state sem self.now.held).holder }
        ensures nobody { IsNone result ↔ (has sem (sems_of self.now.held) ≡ false) }
    {
        pairs::holder_in(self.held.as_slice(), sem)
    }

    /// The semaphore that the task locked last among those that it holds.
    ///
    /// Example: only what `set.last_of(task)` names may be released by the task.
    pub fn last_of(&self, task: TaskNo) -> Option<u32>
        ensures last { result ≡ newest_held self.now.held task.0 }
        ensures nothing { IsNone result ↔ (has task.0 (tasks_of self.now.held) ≡ false) }
    {
        pairs::last_in(self.held.as_slice(), task)
    }
}
