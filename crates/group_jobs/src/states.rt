//! What is counted of a task.
ghost use Rattle.std.specs.Prelude.{◌≡◌, ◌+◌, ◌^◌, ◌<◌, List, ℕ};
ghost use Rattle.group_jobs.specs.Facts.{JobFacts};
ghost use Rattle.group_jobs.specs.Moves.{is_end, job_ended, op_done};
ghost use Rattle.group_jobs.specs.Words.{is_used_up};
ghost use Rattle.rt_base.specs.declared.TheConstants.{TICK_END};
ghost use Rattle.rt_rules.specs.Numbers.{rest};
ghost use Rattle.group_jobs.specs.States.{job_with, HasRoom, SleepIsShort};

use job_budget::{Account, Owed};
use rt_task::{Op, Task};

/// The jobs of a task that have ended; of its current job the budget used, the number of operations done, the end of its
/// sleep and whether it is non-preemptive; of its arrivals their number and the clock of the newest.
#[derive(Clone, Copy, PartialEq, Eq)]
pub(crate) struct TaskState {
    pub(crate) done: u64,
    pub(crate) used: u64,
    pub(crate) ops_done: u64,
    pub(crate) wakes: u64,
    pub(crate) non_preemptive: bool,
    pub(crate) arrived: u64,
    pub(crate) newest: Option<u64>,
}

impl TaskState {
    /// A task that has done nothing.
    pub(crate) const NEW: TaskState = TaskState {
        done: 0,
        used: 0,
        ops_done: 0,
        wakes: 0,
        non_preemptive: false,
        arrived: 0,
        newest: None,
    };

    /// After an accepted operation at this clock that does not end the job.
    pub(crate) fn after_op(self, clock: u64, op: Op) -> TaskState
        requires few { HasRoom self }
        requires clock { clock < TICK_END }
        requires sleep { SleepIsShort op }
        ensures facts { (queue : List ℕ) → job_with result queue
            ≡ op_done clock op (job_with self queue) }
        ensures done { result.done ≡ self.done }
    {
        let mut after = self;
        after.ops_done += 1;
        match op {
            Op::Work => after.used += 1,
            Op::Sleep(ticks) => after.wakes = self.wakes.max(clock + ticks),
            Op::NpOn => after.non_preemptive = true,
            Op::NpOff => after.non_preemptive = false,
            Op::Lock(_) | Op::Unlock(_) | Op::End => {}
        }
        after
    }

    /// After an accepted arrival at this clock.
    pub(crate) fn arrived_at(self, clock: u64) -> TaskState
        requires { self.arrived < 2 ^ 63 }
        ensures { result ≡ record self { arrived = self.arrived + 1; newest = Some clock } }
    {
        let mut after = self;
        after.arrived += 1;
        after.newest = Some(clock);
        after
    }

    /// Whether the job of this task ends by force: it is enforced, has used its cost, holds no semaphore and is
    /// preemptive.
    pub(crate) fn is_used_up(self, task: &Task, holds_none: bool) -> bool
        ensures { (queue : List ℕ) → result
            ≡ is_used_up task.now holds_none (job_with self queue) }
    {
        let account = Account {
            cost: task.cost,
            enforced: task.enforce,
            used: self.used,
        };
        account.owed(!holds_none, self.non_preemptive) == Owed::Forced
    }

    /// The current job has ended, and the next one becomes the current one.
    pub(crate) fn next_job(self) -> TaskState
        requires { self.done < 2 ^ 63 }
        ensures { (queue : List ℕ) → job_with result (rest queue)
            ≡ job_ended (job_with self queue) }
    {
        TaskState {
            done: self.done + 1,
            used: 0,
            ops_done: 0,
            wakes: 0,
            non_preemptive: false,
            arrived: self.arrived,
            newest: self.newest,
        }
    }
}

/// Whether an accepted operation ends its job, which it leaves so: an End does, and any other by force.
pub(crate) fn ends_job(op: Op, after: TaskState, task: &Task, holds_none: bool) -> bool
    ensures { (clock : ℕ) (queue : List ℕ) (job : JobFacts)
        → job_with after queue ≡ op_done clock op job
        → result ≡ is_end task.now clock op holds_none job }
{
    match op {
        Op::End => true,
        _ => after.is_used_up(task, holds_none),
    }
}
