//! When the jobs of one task arrived and ended.
ghost use Rattle.std.specs.Prelude.{◌≡◌, ◌+◌, ◌<◌, ◌≤◌, All, IfOk, None, OnOk, Some, if◌then◌else◌, length, map, nat_le, option_map, true};
ghost use Rattle.rt_base.specs.declared.TheConstants.{MOST_STEPS, TICK_END};
ghost use Rattle.job_facts.specs.Rows.{listed_in};
ghost use Rattle.event_lines.specs.Shown.{due_shown, job_marks_shown};
ghost use Rattle.job_marks.specs.Times.{arrived_if, ended_if, no_times};
ghost use Rattle.job_marks.specs.inside.Marks.{IsEarly, all_marks_by, due_by, marks_by};

use crate::releases::{is_missed, is_there, release_at};
use event_lines::{Due, JobMarks};
use rt_base::{NoMemory, Tick};
use rt_task::Task;
use std::alloc::Global;

/// The clocks of the arrivals of a task and those at which its jobs ended, both in order.
#[derive(Drop)]
pub(crate) struct TaskTimes {
    pub(crate) arrivals: Vec<u64>,
    pub(crate) ends: Vec<u64>,
    ghost arrivals_in_time: { All (λ r. r < TICK_END) arrivals.items },
}

/// The tick, where it is at most the clock.
fn come(tick: u64, clock: u64) -> Option<u64>
    ensures { result ≡ (if nat_le tick clock then Some tick else None) }
{
    if tick <= clock { Some(tick) } else { None }
}

/// The deadline of a job with this end, where it is at most the clock.
fn due(end: Option<u64>, deadline: u64, clock: u64) -> Option<Due>
    ensures { option_map due_shown result ≡ due_by end deadline clock }
{
    if deadline <= clock {
        Some(Due {
            tick: deadline,
            missed: is_missed(end, deadline, clock),
        })
    } else {
        None
    }
}

impl TaskTimes {
    ghost use Rattle.job_marks.specs.JobTimes.{times_of};

    /// Before the first move.
    pub(crate) fn new(alloc: Global) -> TaskTimes
        ensures { times_of result ≡ no_times }
    {
        TaskTimes {
            arrivals: Vec::new(alloc),
            ends: Vec::new(alloc),
        }
    }

    /// A job arrives.
    pub(crate) fn arrive(&mut self, clock: Tick) -> Result<(), NoMemory>
        requires { clock.0 < TICK_END }
        ensures { OnOk result (times_of self.new ≡ arrived_if true clock.0 (times_of self.old)) }
    {
        self.arrivals.push(clock.0)?;
        Ok(())
    }

    /// A job ends.
    pub(crate) fn end(&mut self, clock: Tick) -> Result<(), NoMemory>
        ensures { OnOk result (times_of self.new ≡ ended_if true clock.0 (times_of self.old)) }
    {
        self.ends.push(clock.0)?;
        Ok(())
    }

    /// How many jobs are listed: those that ended, and the one behind them where it is there.
    fn listed(&self, task: &Task, clock: Tick) -> u32
        requires early { IsEarly task.now self.now.arrivals.items }
        requires few { length self.now.ends.items ≤ MOST_STEPS }
        ensures listed { result
            ≡ listed_in task.now self.now.arrivals.items (length self.now.ends.items) clock.0 }
        ensures few { result ≤ MOST_STEPS + 1 }
    {
        let ended = self.ends.len() as u32;
        if is_there(task, self.arrivals.as_slice(), ended, clock.0) {
            ended + 1
        } else {
            ended
        }
    }

    /// The marks of the job with this number, from 1.
    fn mark(&self, task: &Task, job: u32, clock: Tick) -> JobMarks
        requires early { IsEarly task.now self.now.arrivals.items }
        requires number { 1 ≤ job }
        requires few { job ≤ MOST_STEPS + 1 }
        ensures { job_marks_shown result ≡ marks_by task.now (times_of self.now) clock.0 job }
    {
        let end = self.ends.get(job as usize - 1).copied();
        let release = release_at(task, self.arrivals.as_slice(), job - 1).unwrap_or(0);
        JobMarks {
            job,
            release: come(release, clock.0),
            deadline: due(end, release + task.rel_deadline, clock.0),
            end,
        }
    }

    /// The marks of the jobs that are listed at the clock.
    pub(crate) fn marks(
        &self,
        alloc: Global,
        task: &Task,
        clock: Tick,
    ) -> Result<Vec<JobMarks>, NoMemory>
        requires early { IsEarly task.now self.now.arrivals.items }
        requires few { length self.now.ends.items ≤ MOST_STEPS }
        ensures { IfOk result (λ v. map job_marks_shown v.items
            ≡ all_marks_by task.now (times_of self.now) clock.0) }
    {
        let count = self.listed(task, clock);
        let mut marks = Vec::with_capacity(alloc, count as usize)?;
        for i in 0..count {
            marks.push(self.mark(task, i + 1, clock))?;
        }
        Ok(marks)
    }
}
