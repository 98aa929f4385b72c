//! What is kept of a group's past: the clock, the jobs of each task, and of each processor what it runs and when it worked
//! last. The engine and the slow ranker both keep it.
//!
//! The life of a task, of which this crate keeps when its job is ready and what runs; the semaphores, the reservations and
//! the links tell the rest:
//!
//! ```text
//! not there  -- release, arrival, the end of a sleep -->  ready
//! ready      -- waits for nothing, its reservation serves it -->  eligible
//! eligible   -- among the first of its cluster, by keys -->  linked
//! linked     -- interrupt -->  running
//! running    -- a lock that is queued -->  ready, and waiting until it is granted
//! running    -- end, or a forced end -->  its next job, not there before its release
//! running    -- sleep -->  not there until the sleep is over
//! ```
#![tactic(auto)]

ghost use Rattle.std.specs.Prelude.{◌≡◌, ◌+◌, ◌-◌, ◌<◌, ◌≤◌, ◌∷◌, ◌++◌, [], false, true, IfOk, length, option_map};
ghost use Rattle.rt_base.specs.TaskNos.{number_of_task};
ghost use Rattle.rt_base.specs.declared.TheConstants.{MOST_STEPS, MOST_TASKS, TICK_END};
ghost use Rattle.rt_base.specs.declared.Tick.{Tick};
ghost use Rattle.rt_rules.specs.Numbers.{first, rest, same};
ghost use Rattle.rt_model.specs.Releases as come;
ghost use Rattle.rt_plays.specs.Plays.{group_with};
ghost use Rattle.group_jobs.specs.Bounds.{AreBounded};
ghost use Rattle.group_jobs.specs.Kept.{cpu_of, has_arrived, has_operated, job_of, opened, with_clock, with_cpu, with_job};
ghost use Rattle.group_jobs.specs.Moves.{after_op, is_end};
ghost use Rattle.group_jobs.specs.Replies as told;
ghost use Rattle.group_jobs.specs.Timers as timers;
ghost use Rattle.group_jobs.specs.Words as words;
ghost use Rattle.group_jobs.specs.GroupJobs.{IsTaskOf, RunsTask, is_op_reply, plain_reply, ready_now, task_in};
ghost use Rattle.group_jobs.specs.States.{SleepIsShort, cpu_seen, job_with};

mod cpus;
mod keys;
pub mod laws;
mod shown;
mod situations;
mod states;

use arrival_queue::ArrivalQueue;
use cpus::{CpuState, leaves_nothing};
use keys::{key_under, resv_prio};
use rt_base::{CpuNo, NoMemory, TaskNo, Tick};
use rt_rules::{Key, Reply};
use rt_task::{Kind, Op, Parts, Task};
use states::{TaskState, ends_job};
use std::alloc::Global;
use std::marker::Model;

/// The clock, the jobs of tasks numbered from 1, and the processors of a set, numbered from 0.
///
/// Contracts see what is kept, and room for how many more arrivals. After `open` no call takes memory, and each takes a
/// constant time.
#[derive(Drop)]
pub struct GroupJobs {
    clock: u64,
    states: Vec<TaskState>,
    arrivals: ArrivalQueue,
    cpus: Vec<CpuState>,
}

impl Model for GroupJobs {
    ghost use Rattle.std.specs.Prelude.{◌≡◌, ◌+◌, drop, length, map};
    ghost use Rattle.group_jobs.specs.GroupJobs as seen;
    ghost use Rattle.group_jobs.specs.States.{jobs_with, cpu_seen};

    ghost Value = { seen.GroupJobs };

    ghost view = { λ a. record {
      kept = record {
        clock = a.clock;
        jobs = jobs_with a.states.items (drop 1 a.arrivals.queues);
        cpus = map cpu_seen a.cpus.items;
      };
      room = a.arrivals.room;
    } };

    ghost invariant = { λ a. length a.arrivals.queues ≡ length a.states.items + 1 };
}

impl GroupJobs {
    /// Tasks 1 to `tasks`, which have done nothing, and processors 0 to `cpus` less 1, which run nothing, with room for
    /// `room` arrivals.
    pub fn open(alloc: Global, tasks: u32, cpus: u32, room: u32) -> Result<GroupJobs, NoMemory>
        requires { tasks ≤ MOST_TASKS }
        ensures { IfOk result (λ j. j ≡ record { kept = opened tasks cpus; room = room }) }
    {
        let states = vec![in alloc; TaskState::NEW; tasks as usize]?;
        let cpus = vec![in alloc; CpuState::IDLE; cpus as usize]?;
        let arrivals = ArrivalQueue::new(alloc, tasks + 1, room)?;
        Ok(GroupJobs {
            clock: 0,
            states,
            arrivals,
            cpus,
        })
    }

    /// The clock: the greatest tick so far.
    pub fn clock(&self) -> u64
        ensures { result ≡ self.now.kept.clock }
    {
        self.clock
    }

    /// What the processor runs.
    pub fn runs(&self, cpu: CpuNo) -> Option<TaskNo>
        requires { cpu.0 < length self.now.kept.cpus }
        ensures { number_of_task result ≡ (cpu_of self.now.kept cpu.0).runs }
    {
        self.cpus[cpu.0 as usize].runs
    }

    /// Whether the processor has worked at this clock.
    pub fn has_worked(&self, cpu: CpuNo) -> bool
        requires { cpu.0 < length self.now.kept.cpus }
        ensures { result
            ≡ same (cpu_of self.now.kept cpu.0).worked (Some self.now.kept.clock) }
    {
        self.cpus[cpu.0 as usize].worked == Some(self.clock)
    }

    /// What is counted of the task.
    fn state(&self, task: TaskNo) -> TaskState
        requires low { 1 ≤ task.0 }
        requires high { task.0 ≤ length self.now.kept.jobs }
        ensures { let job = job_of self.now.kept task.0 in job ≡ job_with result job.to_come }
    {
        self.states[task.0 as usize - 1]
    }

    /// The clock of the task's first arrival that is of its current job or of a later one.
    fn first_arrival(&self, task: TaskNo) -> Option<u64>
        requires low { 1 ≤ task.0 }
        requires high { task.0 ≤ length self.now.kept.jobs }
        ensures { result ≡ first (job_of self.now.kept task.0).to_come }
    {
        self.arrivals.first(task)
    }

    /// Whether the task's current job is non-preemptive.
    pub fn is_non_preemptive(&self, task: TaskNo) -> bool
        requires low { 1 ≤ task.0 }
        requires high { task.0 ≤ length self.now.kept.jobs }
        ensures { result ≡ (job_of self.now.kept task.0).np }
    {
        self.state(task).non_preemptive
    }

    /// Whether what the processor runs is non-preemptive.
    pub fn runs_non_preemptive(&self, cpu: CpuNo) -> bool
        requires cpu { cpu.0 < length self.now.kept.cpus }
        requires task { RunsTask self.now.kept cpu.0 }
        ensures { result ≡ told.np_of self.now.kept (cpu_of self.now.kept cpu.0).runs }
    {
        match self.runs(cpu) {
            None => false,
            Some(task) => self.is_non_preemptive(task),
        }
    }

    /// How many operations the task's current job has done.
    pub fn ops_done(&self, task: TaskNo) -> u64
        requires low { 1 ≤ task.0 }
        requires high { task.0 ≤ length self.now.kept.jobs }
        ensures { result ≡ (job_of self.now.kept task.0).ops_done }
    {
        self.state(task).ops_done
    }

    /// The release of the task's current job; none where a sporadic task's has not arrived.
    pub fn release(&self, tasks: &[Task], task: TaskNo) -> Option<u64>
        requires { IsTaskOf self.now.kept tasks.now task.0 }
        ensures { result
            ≡ words.release_of (task_in tasks.now task.0) (job_of self.now.kept task.0) }
    {
        let row = &tasks[task.0 as usize - 1];
        match row.kind {
            Kind::Periodic => Some(row.phase + self.state(task).done * row.period),
            Kind::Sporadic => self.first_arrival(task),
        }
    }

    /// The base key of the task's current job under the set's plugin.
    pub fn base_key(&self, parts: &Parts, task: TaskNo) -> Key
        requires task { IsTaskOf self.now.kept parts.now.tasks task.0 }
        requires deadline { (task_in parts.now.tasks task.0).rel_deadline < TICK_END }
        requires number { (task_in parts.now.tasks task.0).number.0 ≡ task.0 }
        ensures { let g = group_with parts.now 0 in
            result ≡ words.key_of g parts.now.plugin task.0 (job_of self.now.kept task.0) }
    {
        let tasks = parts.tasks.as_slice();
        let release = self.release(tasks, task).unwrap_or(0);
        let row = &tasks[task.0 as usize - 1];
        key_under(parts.plugin, row, Tick(release), resv_prio(parts, row))
    }

    /// Whether the task's current job is there, by its release or early.
    pub fn is_there(&self, tasks: &[Task], task: TaskNo) -> bool
        requires { IsTaskOf self.now.kept tasks.now task.0 }
        ensures { let job = job_of self.now.kept task.0 in
            result ≡ words.is_there self.now.kept.clock (task_in tasks.now task.0) job }
    {
        let is_released = has_come(self.clock, self.release(tasks, task));
        let is_early = tasks[task.0 as usize - 1].early && self.state(task).done > 0;
        is_released || is_early
    }

    /// Whether the task's current job is there and does not sleep.
    pub fn is_ready(&self, tasks: &[Task], task: TaskNo) -> bool
        requires { IsTaskOf self.now.kept tasks.now task.0 }
        ensures { let job = job_of self.now.kept task.0 in
            result ≡ words.is_ready self.now.kept.clock (task_in tasks.now task.0) job }
    {
        self.is_there(tasks, task) && self.state(task).wakes <= self.clock
    }

    /// The release of the task's job, where that is ready.
    pub fn ready_release(&self, tasks: &[Task], task: TaskNo) -> Option<Tick>
        requires { IsTaskOf self.now.kept tasks.now task.0 }
        ensures { option_map (λ (t : Tick). t.0) result
            ≡ ready_now tasks.now self.now.kept task.0 }
    {
        if self.is_ready(tasks, task) {
            Some(Tick(self.release(tasks, task).unwrap_or(0)))
        } else {
            None
        }
    }

    /// The next moment that the task's current job waits for: its release or the end of its sleep, whichever is ahead
    /// and comes first.
    pub fn timer(&self, tasks: &[Task], task: TaskNo) -> Option<u64>
        requires { IsTaskOf self.now.kept tasks.now task.0 }
        ensures { let job = job_of self.now.kept task.0 in
            result ≡ timers.timer self.now.kept.clock (task_in tasks.now task.0) job }
    {
        let release = if_later(self.clock, self.release(tasks, task));
        let wakes = if_later(self.clock, Some(self.state(task).wakes));
        first_of_two(release, wakes)
    }

    /// The reply to an arrival of the task: a sporadic task's first job may arrive from its phase on, a later one from a
    /// period after the one before.
    pub fn arrival_reply(&self, tasks: &[Task], task: TaskNo) -> Reply
        requires { IsTaskOf self.now.kept tasks.now task.0 }
        ensures { let job = job_of self.now.kept task.0 in result
            ≡ told.arrival_reply self.now.kept.clock (task_in tasks.now task.0) job }
    {
        let row = &tasks[task.0 as usize - 1];
        if row.kind == Kind::Periodic {
            return Reply::NotSporadic;
        }
        let earliest = match self.state(task).newest {
            None => row.phase,
            Some(newest) => newest + row.period,
        };
        if earliest <= self.clock {
            Reply::Done
        } else {
            Reply::TooEarly
        }
    }

    /// The reply to an operation but Lock and Unlock of the task that the processor runs: whether its reservation lacks
    /// budget, and whether it holds no semaphore.
    pub fn op_reply(
        &self,
        cpu: CpuNo,
        task: TaskNo,
        op: Op,
        lacks_budget: bool,
        holds_none: bool,
    ) -> Reply
        requires cpu { cpu.0 < length self.now.kept.cpus }
        requires low { 1 ≤ task.0 }
        requires high { task.0 ≤ length self.now.kept.jobs }
        ensures { let worked = (cpu_of self.now.kept cpu.0).worked in
            let np = (job_of self.now.kept task.0).np in result
            ≡ plain_reply op self.now.kept.clock worked np lacks_budget holds_none }
    {
        let np = self.is_non_preemptive(task);
        match op {
            Op::Work => self.work_reply(cpu, lacks_budget),
            Op::NpOn => if np { Reply::InNp } else { Reply::Done },
            Op::NpOff => if np { Reply::Done } else { Reply::NotInNp },
            _ => if np {
                Reply::InNp
            } else if holds_none {
                Reply::Done
            } else {
                Reply::Holding
            },
        }
    }

    fn work_reply(&self, cpu: CpuNo, lacks_budget: bool) -> Reply
        requires { cpu.0 < length self.now.kept.cpus }
        ensures { let worked = (cpu_of self.now.kept cpu.0).worked in
            result ≡ told.work_reply self.now.kept.clock worked lacks_budget }
    {
        if self.has_worked(cpu) {
            Reply::Spent
        } else if lacks_budget {
            Reply::NoBudget
        } else {
            Reply::Done
        }
    }

    /// Moves the clock to the tick, if that is later.
    pub fn move_clock(&mut self, tick: Tick)
        ensures { self.new ≡ record self.old { kept = with_clock tick.0 self.old.kept } }
    {
        self.clock = self.clock.max(tick.0);
    }

    /// Has the processor run the task, or nothing.
    pub fn run(&mut self, cpu: CpuNo, task: Option<TaskNo>)
        requires { cpu.0 < length self.old.kept.cpus }
        ensures { let now = record (cpu_of self.old.kept cpu.0) { runs = number_of_task task } in
            self.new ≡ record self.old { kept = with_cpu cpu.0 now self.old.kept } }
    {
        let worked = self.cpu(cpu).worked;
        self.put_cpu(cpu, CpuState { runs: task, worked });
    }

    /// Writes the counts of the task.
    fn put(&mut self, task: TaskNo, state: TaskState)
        requires low { 1 ≤ task.0 }
        requires high { task.0 ≤ length self.old.kept.jobs }
        ensures { let job = job_with state (job_of self.old.kept task.0).to_come in
            self.new ≡ record self.old { kept = with_job task.0 job self.old.kept } }
    {
        self.states[task.0 as usize - 1] = state;
    }

    /// Writes the counts of the task, and adds an arrival at the clock to those of its arrivals that wait.
    fn put_arrival(&mut self, task: TaskNo, state: TaskState)
        requires low { 1 ≤ task.0 }
        requires high { task.0 ≤ length self.old.kept.jobs }
        requires room { 0 < self.old.room }
        ensures { let queue = (job_of self.old.kept task.0).to_come in
            let job = job_with state (queue ++ self.old.kept.clock ∷ []) in
            self.new ≡ record {
              kept = with_job task.0 job self.old.kept;
              room = self.old.room - 1;
            } }
    {
        self.states[task.0 as usize - 1] = state;
        self.arrivals.push(task, Tick(self.clock));
    }

    /// Writes the counts of the task, and removes the first of its arrivals.
    fn put_next(&mut self, task: TaskNo, state: TaskState)
        requires low { 1 ≤ task.0 }
        requires high { task.0 ≤ length self.old.kept.jobs }
        ensures { let job = job_with state (rest (job_of self.old.kept task.0).to_come) in
            self.new ≡ record self.old { kept = with_job task.0 job self.old.kept } }
    {
        self.states[task.0 as usize - 1] = state;
        self.arrivals.drop_first(task);
    }

    /// An accepted arrival of the task at this clock.
    pub fn arrive(&mut self, task: TaskNo)
        requires low { 1 ≤ task.0 }
        requires high { task.0 ≤ length self.old.kept.jobs }
        requires few { (job_of self.old.kept task.0).arrived ≤ MOST_STEPS }
        requires room { 0 < self.old.room }
        ensures kept { self.new.kept ≡ has_arrived task.0 self.old.kept }
        ensures room { self.old.room ≤ self.new.room + 1 }
    {
        let state = self.state(task);
        let after = state.arrived_at(self.clock);
        if state.done <= state.arrived {
            self.put_arrival(task, after);
        } else {
            self.put(task, after);
        }
    }

    /// An accepted operation of the task that the processor runs, with this reply; whether the task holds no semaphore
    /// after it. It says whether the job has ended: by an End, or by force where an enforced job has used its cost.
    #[inline(always)]
    pub fn operate(
        &mut self,
        tasks: &[Task],
        cpu: CpuNo,
        task: TaskNo,
        op: Op,
        reply: Reply,
        holds_none: bool,
    ) -> bool
        requires cpu { cpu.0 < length self.old.kept.cpus }
        requires task { IsTaskOf self.old.kept tasks.now task.0 }
        requires sleep { SleepIsShort op }
        requires reply { is_op_reply reply ≡ true }
        ensures ends { let job = job_of self.old.kept task.0 in result
            ≡ is_end (task_in tasks.now task.0) self.old.kept.clock op holds_none job }
        ensures kept { self.new ≡ record self.old {
          kept
              = has_operated tasks.now cpu.0 task.0 op reply holds_none self.old.kept;
        } }
    {
        let ends = self.count(&tasks[task.0 as usize - 1], task, op, holds_none);
        let is_left = ends || leaves_nothing(op, reply);
        let state = self.cpu(cpu).after(self.clock, op, is_left);
        self.put_cpu(cpu, state);
        ends
    }

    /// Counts an accepted operation for its task; whether the job ends by it.
    #[inline(always)]
    fn count(&mut self, row: &Task, task: TaskNo, op: Op, holds_none: bool) -> bool
        requires low { 1 ≤ task.0 }
        requires high { task.0 ≤ length self.old.kept.jobs }
        requires clock { self.old.kept.clock < TICK_END }
        requires bounded { AreBounded MOST_STEPS self.old.kept.clock (job_of self.old.kept task.0) }
        requires sleep { SleepIsShort op }
        ensures ends { let job = job_of self.old.kept task.0 in result
            ≡ is_end row.now self.old.kept.clock op holds_none job }
        ensures job { let job = job_of self.old.kept task.0 in
            let after = after_op row.now self.old.kept.clock op holds_none job in
            self.new ≡ record self.old { kept = with_job task.0 after self.old.kept } }
    {
        let after = self.state(task).after_op(self.clock, op);
        let ends = ends_job(op, after, row, holds_none);
        if ends {
            self.put_next(task, after.next_job());
        } else {
            self.put(task, after);
        }
        ends
    }

    /// What is kept of the processor.
    fn cpu(&self, cpu: CpuNo) -> CpuState
        requires { cpu.0 < length self.now.kept.cpus }
        ensures { cpu_seen result ≡ cpu_of self.now.kept cpu.0 }
    {
        self.cpus[cpu.0 as usize]
    }

    /// Writes the state of the processor.
    fn put_cpu(&mut self, cpu: CpuNo, state: CpuState)
        requires { cpu.0 < length self.old.kept.cpus }
        ensures { self.new
            ≡ record self.old { kept = with_cpu cpu.0 (cpu_seen state) self.old.kept } }
    {
        self.cpus[cpu.0 as usize] = state;
    }
}

/// Whether a moment has come at this clock.
fn has_come(clock: u64, moment: Option<u64>) -> bool
    ensures { result ≡ come.has_come clock moment }
{
    match moment {
        None => false,
        Some(moment) => moment <= clock,
    }
}

/// The moment, if it is still ahead.
fn if_later(clock: u64, moment: Option<u64>) -> Option<u64>
    ensures { result ≡ timers.if_later clock moment }
{
    match moment {
        Some(moment) if clock < moment => Some(moment),
        _ => None,
    }
}

/// The earlier of two moments that may be there.
fn first_of_two(a: Option<u64>, b: Option<u64>) -> Option<u64>
    ensures { result ≡ timers.first_of_two a b }
{
    match (a, b) {
        (None, b) => b,
        (a, None) => a,
        (Some(a), Some(b)) => Some(a.min(b)),
    }
}
