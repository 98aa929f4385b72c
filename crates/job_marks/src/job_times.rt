//! When the jobs of a group arrived and ended.
ghost use Rattle.std.specs.Prelude.{◌≡◌, ◌<◌, ◌≤◌, ◌∷◌, [], ℕ, IfOk, OnOk, length, map, vec_len};
ghost use Rattle.rt_base.specs.declared.TheConstants.{MOST_TASKS, TICK_END};
ghost use Rattle.rt_rules.specs.Numbers.{numbers_from};
ghost use Rattle.rt_model.specs.Group.{Group};
ghost use Rattle.rt_model.specs.Past.{Acted, Past, now};
ghost use Rattle.trace_views.specs.JobRows.{listed};
ghost use Rattle.view_acts.specs.ShownActs.{act_shown};
ghost use Rattle.event_lines.specs.Shown.{job_marks_shown};
ghost use Rattle.event_lines.specs.TracksOf.{job_marks};
ghost use Rattle.job_marks.specs.JobTimes.{IsTimesOf, KeepsTimes, task_count, times_in};
ghost use Rattle.job_marks.specs.Times.{no_times};

use crate::moves::{arrive, end};
use crate::task_times::TaskTimes;
use event_lines::JobMarks;
use rt_base::{NoMemory, Tick};
use rt_task::Task;
use std::alloc::Global;
use view_acts::ShownAct;

/// When the jobs of the tasks of a group arrived and ended, fed by each act of its history.
///
/// Memory grows with the jobs that end and with arrivals.
#[derive(Drop)]
pub struct JobTimes {
    // at the number of a task; there is no task 0
    tasks: Vec<TaskTimes>,
}

/// The times of so many tasks before the first move.
fn unbegun(alloc: Global, count: u32) -> Result<Vec<TaskTimes>, NoMemory>
    ensures count { IfOk result (λ v. vec_len v ≡ count) }
    ensures unbegun { IfOk result
        (λ v. (t : ℕ) → t < length v.items → times_in v.items t ≡ no_times) }
{
    let mut tasks = Vec::new(alloc);
    for _ in 0..count {
        tasks.push(TaskTimes::new(alloc))?;
    }
    Ok(tasks)
}

impl JobTimes {
    /// Before the first move, for so many tasks.
    pub fn open(alloc: Global, tasks: u32) -> Result<JobTimes, NoMemory>
        requires { tasks ≤ MOST_TASKS }
        ensures opened { IfOk result (λ v. KeepsTimes v []) }
        ensures count { IfOk result (λ v. task_count v ≡ tasks) }
    {
        let tasks = unbegun(alloc, tasks + 1)?;
        Ok(JobTimes { tasks })
    }

    /// Takes an act of the group, at the clock. Where memory runs out, the times are not to be used any more.
    pub fn feed(&mut self, clock: Tick, act: &ShownAct) -> Result<(), NoMemory>
        requires { clock.0 < TICK_END }
        ensures kept { OnOk result ((past : Past)
            → KeepsTimes self.old past → clock.0 ≡ now past
            → KeepsTimes self.new (Acted (act_shown act.now) ∷ past)) }
        ensures count { task_count self.new ≡ task_count self.old }
    {
        let tasks = self.tasks.as_mut_slice();
        arrive(tasks, clock, act)?;
        end(tasks, clock, act)?;
        Ok(())
    }

    /// The marks of the jobs of a task that are listed at the clock, by job.
    pub fn marks(&self, alloc: Global, task: &Task, clock: Tick) -> Result<Vec<JobMarks>, NoMemory>
        requires { (g : Group) × (past : Past) × (t : ℕ)
            × IsTimesOf g past t self.now task.now clock.0 }
        ensures { IfOk result (λ v. (g : Group) (past : Past) (t : ℕ)
            → IsTimesOf g past t self.now task.now clock.0 → map job_marks_shown v.items
            ≡ map (job_marks g t past) (numbers_from 1 (listed g t past))) }
    {
        let times = &self.tasks[task.number.0 as usize];
        times.marks(alloc, task, clock)
    }
}
