//! What is shown of a task's job and of a reservation.
ghost use Rattle.std.specs.Prelude.{◌≡◌, ◌<◌, ◌≤◌, ◌==◌, IfNone, IfSome, false, length, option_map};
ghost use Rattle.rt_base.specs.declared.Tick as ticks;
ghost use Rattle.rt_base.specs.declared.TheConstants.{MOST_STEPS};
ghost use Rattle.resv_core.specs.Served.{IsFront, IsResv, has_ready, last_of, left_of, server};
ghost use Rattle.sem_table.specs.Told.{held_of};
ghost use Rattle.group_jobs.specs.Kept.{job_of};
ghost use Rattle.group_jobs.specs.Words as words;
ghost use Rattle.group_jobs.specs.GroupJobs.{IsTaskOf, task_in};
ghost use Rattle.group_core.specs.Reads.{CanRead, base_in};

use super::GroupCore;
use resv_core::ResvState;
use rt_base::{ResvNo, TaskNo};
use rt_rules::Key;
use rt_task::Parts;

impl GroupCore {
    /// Whether the task's current job is there, by its release or early.
    pub fn is_there(&self, parts: &Parts, task: TaskNo) -> bool
        requires { IsTaskOf self.now.facts.kept parts.now.tasks task.0 }
        ensures { let job = job_of self.now.facts.kept task.0 in result
            ≡ words.is_there self.now.facts.kept.clock (task_in parts.now.tasks task.0) job }
    {
        self.jobs.is_there(parts.tasks.as_slice(), task)
    }

    /// Whether the task's current job sleeps.
    pub fn sleeps(&self, task: TaskNo) -> bool
        requires low { 1 ≤ task.0 }
        requires high { task.0 ≤ length self.now.facts.kept.jobs }
        ensures { let job = job_of self.now.facts.kept task.0 in
            result ≡ words.is_asleep self.now.facts.kept.clock job }
    {
        self.jobs.sleeps(task)
    }

    /// The clock at which the last sleep of the task's current job is over; 0 where it did not sleep.
    pub fn wakes(&self, task: TaskNo) -> u64
        requires low { 1 ≤ task.0 }
        requires high { task.0 ≤ length self.now.facts.kept.jobs }
        ensures { result ≡ (job_of self.now.facts.kept task.0).wakes }
    {
        self.jobs.wakes(task)
    }

    /// Whether the task's current job is non-preemptive.
    pub fn is_non_preemptive(&self, task: TaskNo) -> bool
        requires low { 1 ≤ task.0 }
        requires high { task.0 ≤ length self.now.facts.kept.jobs }
        ensures { result ≡ (job_of self.now.facts.kept task.0).np }
    {
        self.jobs.is_non_preemptive(task)
    }

    /// How many jobs of the task have ended.
    pub fn done(&self, task: TaskNo) -> u64
        requires low { 1 ≤ task.0 }
        requires high { task.0 ≤ length self.now.facts.kept.jobs }
        ensures { result ≡ (job_of self.now.facts.kept task.0).done }
    {
        self.jobs.done(task)
    }

    /// How many units of its budget the task's current job has used.
    pub fn used(&self, task: TaskNo) -> u64
        requires low { 1 ≤ task.0 }
        requires high { task.0 ≤ length self.now.facts.kept.jobs }
        ensures { result ≡ (job_of self.now.facts.kept task.0).used }
    {
        self.jobs.used(task)
    }

    /// The base key of the task's current job.
    pub fn base_key(&self, parts: &Parts, task: TaskNo) -> Key
        requires read { CanRead MOST_STEPS parts.now self.now.facts.kept }
        requires low { 1 ≤ task.0 }
        requires high { task.0 ≤ length parts.now.tasks }
        ensures { result ≡ base_in parts.now self.now.facts.kept task.0 }
    {
        self.jobs.base_key(parts, task)
    }

    /// Whether the task holds no semaphore.
    pub fn holds_none(&self, task: TaskNo) -> bool
        ensures { result ≡ (held_of self.now.facts.sems.table task.0 == 0) }
    {
        self.sems.holds_none(task)
    }

    /// What is left of the reservation's budget.
    pub fn left(&self, resv: ResvNo) -> u64
        requires { IsResv self.now.facts.resvs.resvs resv.0 }
        ensures { result ≡ left_of (server self.now.facts.resvs.resvs resv.0) }
    {
        self.resvs.left(resv)
    }

    /// What is left of the reservation's budget, and its last replenishment.
    pub fn resv_state(&self, resv: ResvNo) -> ResvState
        requires { IsResv self.now.facts.resvs.resvs resv.0 }
        ensures last { option_map (λ (t : ticks.Tick). t.0) result.last
            ≡ last_of (server self.now.facts.resvs.resvs resv.0) }
        ensures left { result.left ≡ left_of (server self.now.facts.resvs.resvs resv.0) }
    {
        self.resvs.state(resv)
    }

    /// The reservation's front client.
    pub fn front(&self, resv: ResvNo) -> Option<TaskNo>
        requires { IsResv self.now.facts.resvs.resvs resv.0 }
        ensures front { IfSome result
            (λ task. IsFront (server self.now.facts.resvs.resvs resv.0).releases task.0) }
        ensures none { IfNone result
            (has_ready (server self.now.facts.resvs.resvs resv.0).releases ≡ false) }
    {
        self.resvs.front(resv)
    }
}
