//! The state of a partition, and what moves make of it.
ghost use Rattle.std.specs.Prelude.{◌≡◌, ◌-◌, ◌<◌, ◌≤◌, true, length, slice_set, Some, IfOk};
ghost use Rattle.rt_base.specs.TaskNos.{number_of_task};
ghost use Rattle.rt_base.specs.declared.TheConstants.{MOST_TASKS};
ghost use Rattle.rt_task.specs.declared.Act.TheVariants as acts;
ghost use Rattle.group_jobs.specs.Kept.{cpu_of};
ghost use Rattle.group_jobs.specs.Replies.{run_reply};
ghost use Rattle.group_jobs.specs.GroupJobs.{IsTaskOf, is_op_reply};
ghost use Rattle.group_jobs.specs.States.{SleepIsShort};
ghost use Rattle.split_rules.specs.PartPast.{deed_of};
ghost use Rattle.part_state.specs.States.{after_act, after_deed, after_take, lock_of, opened, with_clock};

use crate::locks::TaskLock;
use group_jobs::GroupJobs;
use rt_base::{CpuNo, NoMemory, SemNo, TaskNo, Tick};
use rt_rules::Reply;
use rt_task::{Op, Task};
use std::alloc::Global;
use std::marker::Model;

/// The clock, the jobs and what the processor of a partition runs, and what each task holds and waits for. Tasks are
/// numbered from 1 through the whole set, and processors from 0; those of other partitions are there, and do nothing.
///
/// After `open` no call takes memory.
#[derive(Drop)]
pub struct PartState {
    pub(crate) jobs: GroupJobs,
    locks: Vec<TaskLock>,
}

impl Model for PartState {
    ghost use Rattle.std.specs.Prelude.{◌≡◌, length};
    ghost use Rattle.part_state.specs.States as seen;

    ghost Value = { seen.PartState };

    ghost view = { λ a. record { kept = a.jobs.kept; locks = a.locks.items } };

    ghost invariant = { λ a. length a.locks.items ≡ length a.jobs.kept.jobs };
}

impl PartState {
    /// The state before the first entry, of `tasks` tasks and `cpus` processors.
    pub fn open(alloc: Global, tasks: u32, cpus: u32) -> Result<PartState, NoMemory>
        requires { tasks ≤ MOST_TASKS }
        ensures { IfOk result (λ p. p ≡ opened tasks cpus) }
    {
        let jobs = GroupJobs::open(alloc, tasks, cpus, 0)?;
        let locks = vec![in alloc; TaskLock::NONE; tasks as usize]?;
        Ok(PartState { jobs, locks })
    }

    /// Moves the clock to the tick, if that is later.
    pub fn move_clock(&mut self, tick: Tick)
        ensures { self.new ≡ with_clock tick.0 self.old }
    {
        self.jobs.move_clock(tick);
    }

    /// The processor takes its interrupt and runs its link.
    pub fn interrupt(&mut self, cpu: CpuNo, link: Option<TaskNo>)
        requires { cpu.0 < length self.old.kept.cpus }
        ensures { (all : _)
            → self.new ≡ after_act all cpu.0 acts.Irq (run_reply (number_of_task link)) self.old }
    {
        self.jobs.run(cpu, link);
    }

    /// The task that the processor runs does an operation, which is accepted with this reply.
    pub fn operate(&mut self, tasks: &[Task], cpu: CpuNo, task: TaskNo, op: Op, reply: Reply)
        requires cpu { cpu.0 < length self.old.kept.cpus }
        requires runs { (cpu_of self.old.kept cpu.0).runs ≡ Some task.0 }
        requires task { IsTaskOf self.old.kept tasks.now task.0 }
        requires sleep { SleepIsShort op }
        requires reply { is_op_reply reply ≡ true }
        ensures { self.new ≡ after_act tasks.now cpu.0 (acts.Do op) reply self.old }
    {
        self.note(task, op, reply);
        let _ = self.jobs.operate(tasks, cpu, task, op, reply, true);
    }

    /// What the task holds and waits for after an operation that is answered so.
    fn note(&mut self, task: TaskNo, op: Op, reply: Reply)
        requires low { 1 ≤ task.0 }
        requires high { task.0 ≤ length self.old.kept.jobs }
        ensures { self.new ≡ after_deed (deed_of (acts.Do op) reply (Some task.0)) self.old }
    {
        let clock = self.jobs.clock();
        let lock = self.lock(task);
        match (op, reply) {
            (Op::Lock(sem), Reply::Granted) => self.put(task, lock.began(sem, clock)),
            (Op::Lock(sem), Reply::Queued) => self.put(task, lock.queued(sem)),
            (Op::Unlock(_), Reply::Done) => self.put(task, lock.freed()),
            _ => {}
        }
    }

    /// The task is granted the semaphore that it waits for.
    pub fn take(&mut self, task: TaskNo, sem: SemNo)
        requires low { 1 ≤ task.0 }
        requires high { task.0 ≤ length self.old.kept.jobs }
        ensures { (no : _)
            → self.new ≡ after_take (record { sem = sem.0; no = no; task = task.0 }) self.old }
    {
        let lock = self.lock(task).granted(sem, self.jobs.clock());
        self.put(task, lock);
    }

    /// The clock: the greatest tick so far.
    pub fn clock(&self) -> u64
        ensures { result ≡ self.now.kept.clock }
    {
        self.jobs.clock()
    }

    /// What the processor runs.
    pub fn runs(&self, cpu: CpuNo) -> Option<TaskNo>
        requires { cpu.0 < length self.now.kept.cpus }
        ensures { number_of_task result ≡ (cpu_of self.now.kept cpu.0).runs }
    {
        self.jobs.runs(cpu)
    }

    /// What the task holds and waits for.
    pub fn lock(&self, task: TaskNo) -> TaskLock
        requires low { 1 ≤ task.0 }
        requires high { task.0 ≤ length self.now.kept.jobs }
        ensures { result ≡ lock_of self.now task.0 }
    {
        self.locks[task.0 as usize - 1]
    }

    /// Writes what the task holds and waits for.
    fn put(&mut self, task: TaskNo, lock: TaskLock)
        requires low { 1 ≤ task.0 }
        requires high { task.0 ≤ length self.old.kept.jobs }
        ensures { self.new
            ≡ record self.old { locks = slice_set self.old.locks (task.0 - 1) lock } }
    {
        self.locks[task.0 as usize - 1] = lock;
    }
}
