//! The jobs of a group.
ghost use Rattle.std.specs.Prelude.{◌≡◌, ◌+◌, ◌<◌, ◌≤◌, ◌∷◌, [], ℕ, IfOk, OnOk, length, map, vec_len};
ghost use Rattle.rt_base.specs.declared.TheConstants.{MOST_TASKS, TICK_END};
ghost use Rattle.rt_rules.specs.Numbers.{numbers_from};
ghost use Rattle.rt_model.specs.Group.{Group};
ghost use Rattle.rt_model.specs.Jobs.{done};
ghost use Rattle.rt_model.specs.Past.{Acted, Past};
ghost use Rattle.trace_views.specs.JobRows.{job_row, listed};
ghost use Rattle.trace_views.specs.TaskRows.{task_row};
ghost use Rattle.view_acts.specs.ShownActs.{act_shown};
ghost use Rattle.job_facts.specs.Sums.{sums_of};
ghost use Rattle.job_facts.specs.Tallies.{no_jobs};
ghost use Rattle.job_views.specs.Tables.{CanFeed, IsLineOf, IsTableOf, IsTableWith, Keeps, task_count, worker_in};
ghost use Rattle.job_views.specs.RowsShown.{row_shown};
ghost use Rattle.job_views.specs.inside.SumsShown.{sums_shown};
ghost use Rattle.job_views.specs.TaskRowsShown.{task_row_shown};
ghost use Rattle.job_views.specs.Told.{jobs_in};

use crate::deeds::{asks, worker_after};
use crate::due::{due_in, released_in};
use crate::most::{most_ends, most_ends_all};
use crate::moves::{arrive, end, run, take_up};
use crate::row::JobRow;
use crate::sums::Sums;
use crate::task_jobs::TaskJobs;
use crate::task_row::TaskRow;
use block_counts::Seen;
use rt_base::{MOST_CPUS, NoMemory, TaskNo, Tick};
use rt_task::Task;
use std::alloc::Global;
use view_acts::ShownAct;

const CPUS: usize = MOST_CPUS as usize;

/// The jobs of the tasks of a group, fed by each act of its history; who worked on each processor since that switched last; and the
/// number of requests.
///
/// Memory grows with the jobs that end, with arrivals and with requests.
#[derive(Drop)]
pub struct JobTable {
    // at the number of a task; there is no task 0
    tasks: Vec<TaskJobs>,
    workers: [Option<TaskNo>; CPUS],
    asked: u32,
}

/// The jobs of so many tasks before the first move.
fn unbegun(alloc: Global, count: u32) -> Result<Vec<TaskJobs>, NoMemory>
    ensures count { IfOk result (λ v. vec_len v ≡ count) }
    ensures unbegun { IfOk result
        (λ v. (t : ℕ) → t < length v.items → jobs_in v.items t ≡ no_jobs) }
{
    let mut tasks = Vec::new(alloc);
    for _ in 0..count {
        tasks.push(TaskJobs::new(alloc))?;
    }
    Ok(tasks)
}

fn nobody() -> [Option<TaskNo>; CPUS]
    ensures { (q : ℕ) → worker_in result q ≡ None }
{
    [None; CPUS]
}

impl JobTable {
    /// Before the first move, for so many tasks.
    pub fn open(alloc: Global, tasks: u32) -> Result<JobTable, NoMemory>
        requires { tasks ≤ MOST_TASKS }
        ensures opened { IfOk result (λ v. Keeps v []) }
        ensures count { IfOk result (λ v. task_count v ≡ tasks) }
    {
        let tasks = unbegun(alloc, tasks + 1)?;
        Ok(JobTable {
            tasks,
            workers: nobody(),
            asked: 0,
        })
    }

    /// Takes an act of the group, at the clock. Where memory runs out, the table is not to be used any more.
    pub fn feed(&mut self, alloc: Global, clock: Tick, act: &ShownAct) -> Result<(), NoMemory>
        requires clock { clock.0 < TICK_END }
        requires next { (past : Past) × CanFeed self.old past clock.0 (act_shown act.now) }
        ensures kept { OnOk result ((past : Past)
            → CanFeed self.old past clock.0 (act_shown act.now)
            → Keeps self.new (Acted (act_shown act.now) ∷ past)) }
        ensures count { task_count self.new ≡ task_count self.old }
    {
        let cpu = act.cpu.0 as usize;
        let worker = self.workers[cpu];
        let tasks = self.tasks.as_mut_slice();
        take_up(tasks, act);
        run(tasks, worker, clock, self.asked, act)?;
        arrive(tasks, clock, act)?;
        end(alloc, tasks, clock, act)?;
        self.workers[cpu] = worker_after(act.act, act.reply, act.task, worker);
        if asks(act) {
            self.asked += 1;
        }
        Ok(())
    }

    /// How many jobs of a task are listed at the clock: those that ended, and the current one where it is there.
    pub fn listed(&self, task: &Task, clock: Tick) -> u32
        requires { (g : Group) × (past : Past) × IsTableOf g past self.now task.now clock.0 }
        ensures { (g : Group) (past : Past) → IsTableOf g past self.now task.now clock.0
            → result ≡ listed g task.now.number.0 past }
    {
        let jobs = &self.tasks[task.number.0 as usize];
        jobs.listed(task, clock)
    }

    /// The line of a job of a task at the clock, by its number, from 1. `requests` are those of the group so far.
    pub fn row(&self, task: &Task, job: u32, clock: Tick, requests: &[Seen]) -> JobRow
        requires { (g : Group) × (past : Past)
            × IsLineOf g past self.now task.now clock.0 job requests.now }
        ensures { (g : Group) (past : Past)
            → IsLineOf g past self.now task.now clock.0 job requests.now
            → row_shown result ≡ job_row g task.now.number.0 past job }
    {
        let jobs = &self.tasks[task.number.0 as usize];
        jobs.row(task, job, clock, requests)
    }

    /// What the lines of so many jobs of a task come to, from the first on.
    fn sums(&self, task: &Task, jobs: u32, clock: Tick, requests: &[Seen]) -> Sums
        requires { (g : Group) × (past : Past)
            × IsTableWith g past self.now task.now clock.0 requests.now
            × (jobs ≤ done task.now.number.0 past + 1) }
        ensures { (g : Group) (past : Past)
            → IsTableWith g past self.now task.now clock.0 requests.now
            → jobs ≤ done task.now.number.0 past + 1 → sums_shown result
            ≡ sums_of (map (job_row g task.now.number.0 past) (numbers_from 1 jobs)) }
    {
        let mut sums = Sums::new();
        for i in 0..jobs {
            sums.add(&self.row(task, i + 1, clock, requests));
        }
        sums
    }

    /// The line of a task at the clock. `requests` are those of the group so far.
    pub fn task_row(&self, task: &Task, clock: Tick, requests: &[Seen]) -> TaskRow
        requires clock { clock.0 < TICK_END }
        requires table { (g : Group) × (past : Past)
            × IsTableWith g past self.now task.now clock.0 requests.now }
        ensures { (g : Group) (past : Past)
            → IsTableWith g past self.now task.now clock.0 requests.now
            → task_row_shown result ≡ task_row g past task.now.number.0 }
    {
        let jobs = &self.tasks[task.number.0 as usize];
        let arrivals = jobs.arrivals.as_slice();
        let ended = jobs.ended.len() as u32;
        let sums = self.sums(task, self.listed(task, clock), clock, requests);
        TaskRow {
            task: task.number,
            released: released_in(task, arrivals, clock.0),
            ended,
            late: sums.late,
            missed: due_in(task, arrivals, clock.0).saturating_sub(u64::from(ended)),
            units: sums.units,
            response_max: sums.response_max,
            response_sum: sums.response_sum,
            lateness_max: sums.lateness_max,
            preemptions: sums.preemptions,
            migrations: sums.migrations,
            moves: sums.moves,
            requests: sums.requests,
            queued: sums.queued,
            ends_max: most_ends(task.number, requests),
            ends_all_max: most_ends_all(task.number, requests),
        }
    }
}
