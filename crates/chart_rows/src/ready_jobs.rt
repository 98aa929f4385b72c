//! The tasks that are ready and have nothing to do with semaphores, from one state to the next.
ghost use Rattle.std.specs.Prelude.{◌≡◌, IfOk, None, replicate, slice_index_or, slice_set};
ghost use Rattle.rt_base.specs.TaskNos.{number_of_task};
ghost use Rattle.view_acts.specs.ShownActs.{act_shown};
ghost use Rattle.chart_rows.specs.ReadyJobs.{untouched, without};

use crate::acting::arriving;
use rt_base::{NoMemory, TaskNo};
use std::alloc::Global;
use std::marker::Model;
use view_acts::ShownAct;

/// The job of such a task, as the task's cell shows it.
#[derive(Clone, Copy)]
pub struct ReadyJob {
    /// Its number, from 1.
    pub number: u64,
    pub non_preemptive: bool,
}

/// By a task's number its job, where the task is known to be ready, to wait for nothing and to hold nothing.
#[derive(Drop)]
pub struct ReadyJobs {
    jobs: Vec<Option<ReadyJob>>,
}

impl Model for ReadyJobs {
    ghost use Rattle.std.specs.Prelude.{List, Option};
    ghost use Rattle.chart_rows.specs.declared.ready_jobs.ReadyJob.{ReadyJob};

    ghost Value = { List (Option ReadyJob) };

    ghost view = { λ a. a.jobs.items };
}

impl ReadyJobs {
    /// Of no task so much is known. There is room for so many tasks.
    pub fn new(alloc: Global, tasks: usize) -> Result<ReadyJobs, NoMemory>
        ensures { IfOk result (λ v. v ≡ replicate tasks None) }
    {
        let jobs = vec![in alloc; None; tasks]?;
        Ok(ReadyJobs { jobs })
    }

    /// The job of a task, where it is known.
    pub fn get(&self, task: TaskNo) -> Option<ReadyJob>
        ensures { result ≡ slice_index_or self.now task.0 None }
    {
        match self.jobs.get(task.0 as usize) {
            Some(job) => *job,
            None => None,
        }
    }

    /// Writes down the job of a task, if there is room for the task, or that it is not known.
    pub(crate) fn set(&mut self, task: TaskNo, job: Option<ReadyJob>)
        ensures { self.new ≡ slice_set self.old task.0 job }
    {
        if let Some(at) = self.jobs.get_mut(task.0 as usize) {
            *at = job;
        }
    }

    fn drop_any(&mut self, task: Option<TaskNo>)
        ensures { self.new ≡ without (number_of_task task) self.old }
    {
        if let Some(task) = task {
            self.set(task, None);
        }
    }

    /// Drops the jobs of the tasks that an act touches.
    pub fn take_act(&mut self, act: &ShownAct)
        ensures { self.new ≡ untouched (act_shown act.now) self.old }
    {
        self.drop_any(act.task);
        self.drop_any(arriving(act.act));
    }
}
