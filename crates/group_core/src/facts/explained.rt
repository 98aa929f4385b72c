//! What explains how a task's job stands.
ghost use Rattle.std.specs.Prelude.{◌≡◌};
ghost use Rattle.rt_base.specs.TaskNos.{number_of_task};
ghost use Rattle.sem_table.specs.Told.{waits_for_of};
ghost use Rattle.group_jobs.specs.Kept.{job_of};
ghost use Rattle.group_jobs.specs.Words as words;
ghost use Rattle.group_jobs.specs.GroupJobs.{IsTaskOf, task_in};

use super::GroupCore;
use rt_base::TaskNo;
use rt_task::Parts;

impl GroupCore {
    /// The release of the task's current job; none where a sporadic task's has not arrived.
    pub fn release(&self, parts: &Parts, task: TaskNo) -> Option<u64>
        requires { IsTaskOf self.now.facts.kept parts.now.tasks task.0 }
        ensures { result ≡ words.release_of (task_in parts.now.tasks task.0)
            (job_of self.now.facts.kept task.0) }
    {
        self.jobs.release(parts.tasks.as_slice(), task)
    }

    /// The task for which a waiting task waits: the holder of the semaphore, under PCP the blocker.
    pub fn waits_for(&self, task: TaskNo) -> Option<TaskNo>
        ensures { number_of_task result ≡ waits_for_of self.now.facts.sems.table task.0 }
    {
        self.sems.table().waits_for(task)
    }
}
