//! The tasks that wait for a semaphore as an act frees it, and which of them are priority-blocked: what the counts of
//! critical sections are made of.
ghost use Rattle.std.specs.Prelude.{◌≡◌, ◌+◌, ◌≤◌, ◌<◌, ◌++◌, [], IfOk, length, vec_len, vec_capacity};
ghost use Rattle.rt_base.specs.TaskNos.{numbers};
ghost use Rattle.rt_rules.specs.Distinct.{IsDistinct};
ghost use Rattle.rt_model.specs.Blocking as definitions;
ghost use Rattle.rt_changes.specs.Tallies.{waiter_tasks};
ghost use Rattle.block_counts.specs.SeenWords.{waiters_of};
ghost use Rattle.group_jobs.specs.Kept.{cpu_of};
ghost use Rattle.sem_table.specs.Told.{state_of};
ghost use Rattle.group_core.specs.inside.Blocked.{CanRankAll, waiters_now};
ghost use Rattle.group_core.specs.Listing.{AreWaitersAt, CanAsk, CanList, GroupAt, NamesSem, freed_at};

mod blocked;

use block_counts::Waiting;
use blocked::is_among_first;
use group_jobs::GroupJobs;
use group_sems::GroupSems;
use rt_base::{CpuNo, NoMemory, SemNo, TaskNo};
use rt_task::{Act, Op, Parts};
use std::alloc::Global;
use std::marker::Model;

/// The tasks that wait for the semaphore that an act frees, each with whether it is priority-blocked: it waits, and fewer
/// tasks of its cluster than this has processors have a current job with a higher base key (Brandenburg and Anderson,
/// RTSS 2010).
///
/// Contracts see the list, and for how many tasks there is room. After `open` no call takes memory.
#[derive(Drop)]
pub struct WaitingList {
    room: u32,
    // Empty between calls.
    tasks: Vec<TaskNo>,
    waiting: Vec<Waiting>,
}

impl Model for WaitingList {
    ghost use Rattle.std.specs.Prelude.{◌≡◌, ◌≤◌, [], vec_capacity};
    ghost use Rattle.block_counts.specs.SeenWords.{waiters_of};
    ghost use Rattle.group_core.specs.WaitingList as seen;

    ghost Value = { seen.WaitingList };

    ghost view = { λ a. record { room = a.room; waiting = waiters_of a.waiting.items } };

    ghost invariant = { λ a. (a.tasks.items ≡ [])
        × (a.room ≤ vec_capacity a.tasks)
        × (a.room ≤ vec_capacity a.waiting) };
}

impl WaitingList {
    /// An empty list, with room for `room` tasks. All memory is taken here.
    pub fn open(alloc: Global, room: u32) -> Result<WaitingList, NoMemory>
        ensures { IfOk result (λ l. l ≡ record { room = room; waiting = [] }) }
    {
        let tasks = Vec::with_capacity(alloc, room as usize)?;
        let waiting = Vec::with_capacity(alloc, room as usize)?;
        Ok(WaitingList {
            room,
            tasks,
            waiting,
        })
    }

    /// The tasks.
    pub fn tasks(&self) -> &[Waiting]
        ensures { waiters_of result.now ≡ self.now.waiting }
    {
        self.waiting.as_slice()
    }

    /// Lists the tasks that wait for the semaphore that the act of the processor frees, by what is kept of jobs and of
    /// semaphores between the two moves of a step; none where it frees none. Each task stands once.
    #[inline(always)]
    pub fn list(&mut self, parts: &Parts, jobs: &GroupJobs, sems: &GroupSems, cpu: CpuNo, act: Act)
        requires { (at : GroupAt)
            × CanList at parts.now jobs.now.kept sems.now cpu.0 act self.old.room }
        ensures waiting { (at : GroupAt)
            → CanList at parts.now jobs.now.kept sems.now cpu.0 act self.old.room
            → AreWaitersAt at cpu.0 act self.new.waiting }
        ensures once { IsDistinct (waiter_tasks self.new.waiting) }
        ensures room { self.new.room ≡ self.old.room }
    {
        self.waiting.clear();
        if let Some(sem) = freed_by(parts, jobs, sems, cpu, act) {
            self.list_for(parts, jobs, sems, sem);
        }
    }

    /// Adds the tasks that wait for the semaphore to a list that is empty.
    fn list_for(&mut self, parts: &Parts, jobs: &GroupJobs, sems: &GroupSems, sem: SemNo)
        requires empty { self.old.waiting ≡ [] }
        requires can { CanRankAll parts.now jobs.now.kept (state_of sems.now.table sem.0).waiting }
        requires few { length (state_of sems.now.table sem.0).waiting ≤ self.old.room }
        ensures { self.new ≡ record self.old {
          waiting = waiters_now parts.now jobs.now.kept (state_of sems.now.table sem.0).waiting;
        } }
    {
        sems.table().list_waiting(sem, &mut self.tasks);
        tell(parts, jobs, self.tasks.as_slice(), &mut self.waiting);
        self.tasks.clear();
    }
}

/// Whether the task is priority-blocked, by what is kept of jobs and of semaphores: it waits, and fewer tasks of its cluster
/// than this has processors have a current job with a higher base key.
pub fn is_blocked(parts: &Parts, jobs: &GroupJobs, sems: &GroupSems, task: TaskNo) -> bool
    requires { (at : GroupAt) × CanAsk at parts.now jobs.now.kept sems.now task.0 }
    ensures { (at : GroupAt) → CanAsk at parts.now jobs.now.kept sems.now task.0
        → result ≡ definitions.is_blocked at.group task.0 at.past }
{
    sems.waits(task) && is_among_first(parts, jobs, task)
}

/// Adds these tasks, each with whether it is priority-blocked, for which there is room.
fn tell(parts: &Parts, jobs: &GroupJobs, tasks: &[TaskNo], into: &mut Vec<Waiting>)
    requires can { CanRankAll parts.now jobs.now.kept (numbers tasks.now) }
    requires room { vec_len into.old + length tasks.now ≤ vec_capacity into.old }
    ensures waiting { waiters_of into.new.items
        ≡ waiters_of into.old.items ++ waiters_now parts.now jobs.now.kept (numbers tasks.now) }
    ensures capacity { vec_capacity into.old ≤ vec_capacity into.new }
{
    for task in tasks {
        let blocked = is_among_first(parts, jobs, *task);
        into.push_reserved(Waiting {
            task: *task,
            blocked,
        });
    }
}

/// The semaphore that the act of the processor frees: it is an Unlock by the task that runs there, and not refused.
#[inline(always)]
fn freed_by(
    parts: &Parts,
    jobs: &GroupJobs,
    sems: &GroupSems,
    cpu: CpuNo,
    act: Act,
) -> Option<SemNo>
    requires cpu { cpu.0 < length jobs.now.kept.cpus }
    requires sem { NamesSem parts.now act }
    ensures { result ≡ freed_at parts.now sems.now.table (cpu_of jobs.now.kept cpu.0).runs act }
{
    match act {
        Act::Do(Op::Unlock(sem)) => {
            let task = jobs.runs(cpu)?;
            match sems.unlock_refusal(parts, task, sem) {
                None => Some(sem),
                Some(_) => None,
            }
        }
        _ => None,
    }
}
