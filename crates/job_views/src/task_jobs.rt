//! The jobs of one task.
ghost use Rattle.std.specs.Prelude.{◌≡◌, ◌+◌, ◌<◌, ◌≤◌, All, OnOk, length, true};
ghost use Rattle.rt_base.specs.declared.TheConstants.{MOST_STEPS, TICK_END};
ghost use Rattle.job_facts.specs.Deeds as deeds;
ghost use Rattle.job_facts.specs.Rows.{job_in, listed_in, row_from};
ghost use Rattle.job_facts.specs.Tallies.{no_jobs};
ghost use Rattle.view_acts.specs.ShownActs.{act_shown};
ghost use Rattle.block_counts.specs.SeenWords.{tallies_of};
ghost use Rattle.job_views.specs.RowsShown.{row_shown};
ghost use Rattle.job_views.specs.inside.Times.{IsEarly};

use crate::deeds::{is_queued, is_switch, locks, works};
use crate::ends::{ends_all_in, ends_in};
use crate::row::JobRow;
use crate::tally::{JobTally, is_elsewhere};
use crate::times::{finish, is_there, outcome, release_at, time_to};
use block_counts::Seen;
use rt_base::{NoMemory, Tick};
use rt_task::Task;
use std::alloc::Global;
use std::mem;
use view_acts::ShownAct;

/// The jobs of a task: those that ended, in order, and the job after them; the processor that took the task up last; and its
/// arrivals.
#[derive(Drop)]
pub(crate) struct TaskJobs {
    pub(crate) ended: Vec<JobTally>,
    pub(crate) current: JobTally,
    pub(crate) last_cpu: Option<u32>,
    pub(crate) arrivals: Vec<u64>,
    ghost arrivals_in_time: { All (λ r. r < TICK_END) arrivals.items },
}

impl TaskJobs {
    ghost use Rattle.job_views.specs.Told.{HasRoom, jobs_of, tally_of};

    /// Before the first move.
    pub(crate) fn new(alloc: Global) -> TaskJobs
        ensures { jobs_of result ≡ no_jobs }
    {
        TaskJobs {
            ended: Vec::new(alloc),
            current: JobTally::new(alloc),
            last_cpu: None,
            arrivals: Vec::new(alloc),
        }
    }

    /// A processor takes the task up.
    pub(crate) fn take_up(&mut self, cpu: u32)
        requires { self.old.current.moves ≤ MOST_STEPS }
        ensures { jobs_of self.new ≡ deeds.taken true cpu (jobs_of self.old) }
    {
        if is_elsewhere(cpu, self.last_cpu) {
            self.current.move_on();
        }
        self.last_cpu = Some(cpu);
    }

    /// The task ran on the processor of an act. It is told whether the task has worked there since the processor switched last, and
    /// how many requests there were before.
    pub(crate) fn run(
        &mut self,
        is_worker: bool,
        clock: Tick,
        asked: u32,
        act: &ShownAct,
    ) -> Result<(), NoMemory>
        requires clock { clock.0 < TICK_END }
        requires room { HasRoom (tally_of self.old.current) }
        ensures { OnOk result (jobs_of self.new
            ≡ deeds.run true is_worker clock.0 asked (act_shown act.now) (jobs_of self.old)) }
    {
        if works(act.act, act.reply) {
            self.current.work(clock.0, act.cpu.0);
        }
        if is_switch(act.reply) && is_worker {
            self.current.preempt();
        }
        if locks(act.act, act.reply) {
            self.current.ask(is_queued(act.reply), asked)?;
        }
        Ok(())
    }

    /// A job arrives.
    pub(crate) fn arrive(&mut self, clock: Tick) -> Result<(), NoMemory>
        requires { clock.0 < TICK_END }
        ensures { OnOk result (jobs_of self.new ≡ deeds.arrived true clock.0 (jobs_of self.old)) }
    {
        self.arrivals.push(clock.0)?;
        Ok(())
    }

    /// The current job ends.
    pub(crate) fn end(&mut self, alloc: Global, clock: Tick) -> Result<(), NoMemory>
        requires { clock.0 < TICK_END }
        ensures { OnOk result (jobs_of self.new ≡ deeds.closed clock.0 (jobs_of self.old)) }
    {
        self.current.end(clock.0);
        let job = mem::replace(&mut self.current, JobTally::new(alloc));
        self.ended.push(job)?;
        Ok(())
    }

    /// The job with this number, from 1: one of those that ended, and beyond these the current one.
    fn job(&self, job: u32) -> &JobTally
        requires { 1 ≤ job }
        ensures { tally_of result.now ≡ job_in (jobs_of self.now) job }
    {
        match self.ended.get(job as usize - 1) {
            Some(ended) => ended,
            None => &self.current,
        }
    }

    /// How many jobs are listed: those that ended, and the current one where it is there.
    pub(crate) fn listed(&self, task: &Task, clock: Tick) -> u32
        requires early { IsEarly task.now self.now.arrivals.items }
        requires few { length self.now.ended.items ≤ MOST_STEPS }
        ensures { result
            ≡ listed_in task.now self.now.arrivals.items (length self.now.ended.items) clock.0 }
    {
        let ended = self.ended.len() as u32;
        if is_there(task, self.arrivals.as_slice(), ended, clock.0) {
            ended + 1
        } else {
            ended
        }
    }

    /// The line of the job with this number.
    pub(crate) fn row(&self, task: &Task, job: u32, clock: Tick, requests: &[Seen]) -> JobRow
        requires early { IsEarly task.now self.now.arrivals.items }
        requires number { 1 ≤ job }
        requires few { job ≤ MOST_STEPS + 1 }
        requires made { length (job_in (jobs_of self.now) job).requests ≤ MOST_STEPS }
        requires placed { All (λ i. i < length requests.now)
            (job_in (jobs_of self.now) job).requests }
        ensures { row_shown result
            ≡ row_from task.now self.now.arrivals.items (tallies_of requests.now)
            clock.0 task.now.number.0 job (job_in (jobs_of self.now) job) }
    {
        let tally = self.job(job);
        let release = release_at(task, self.arrivals.as_slice(), job - 1).unwrap_or(0);
        let deadline = release + task.rel_deadline;
        let finish = finish(tally.unit, tally.end);
        JobRow {
            task: task.number,
            job,
            release,
            deadline,
            start: tally.start,
            finish,
            end: tally.end,
            outcome: outcome(tally.end, deadline, clock.0),
            units: tally.units,
            response: time_to(release, finish),
            lateness: time_to(deadline, finish),
            preemptions: tally.preemptions,
            migrations: tally.migrations,
            moves: tally.moves,
            requests: tally.requests.len() as u32,
            queued: tally.queued,
            ends: ends_in(requests, tally.requests.as_slice()),
            ends_all: ends_all_in(requests, tally.requests.as_slice()),
        }
    }
}
