//! What is shown of a task's current job.
ghost use Rattle.std.specs.Prelude.{◌≡◌, ◌≤◌, length};
ghost use Rattle.group_jobs.specs.Kept.{job_of};
ghost use Rattle.group_jobs.specs.Words as words;

use crate::GroupJobs;
use rt_base::TaskNo;

impl GroupJobs {
    /// How many jobs of the task have ended.
    pub fn done(&self, task: TaskNo) -> u64
        requires low { 1 ≤ task.0 }
        requires high { task.0 ≤ length self.now.kept.jobs }
        ensures { result ≡ (job_of self.now.kept task.0).done }
    {
        self.state(task).done
    }

    /// How many units of its budget the task's current job has used.
    pub fn used(&self, task: TaskNo) -> u64
        requires low { 1 ≤ task.0 }
        requires high { task.0 ≤ length self.now.kept.jobs }
        ensures { result ≡ (job_of self.now.kept task.0).used }
    {
        self.state(task).used
    }

    /// The clock at which the last sleep of the task's current job is over; 0 where it did not sleep.
    pub fn wakes(&self, task: TaskNo) -> u64
        requires low { 1 ≤ task.0 }
        requires high { task.0 ≤ length self.now.kept.jobs }
        ensures { result ≡ (job_of self.now.kept task.0).wakes }
    {
        self.state(task).wakes
    }

    /// Whether the task's current job sleeps.
    pub fn sleeps(&self, task: TaskNo) -> bool
        requires low { 1 ≤ task.0 }
        requires high { task.0 ≤ length self.now.kept.jobs }
        ensures { result ≡ words.is_asleep self.now.kept.clock (job_of self.now.kept task.0) }
    {
        self.clock() < self.wakes(task)
    }
}
