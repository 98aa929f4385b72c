//! What is so of a task and of a reservation of the group.
ghost use Rattle.std.specs.Prelude.{◌≡◌, ◌≤◌, IfOk, filter, length, map, true};
ghost use Rattle.rt_base.specs.declared.SemNo as sems;
ghost use Rattle.rt_base.specs.declared.TheConstants.{MOST_STEPS};
ghost use Rattle.rt_rules.specs.Numbers.{has, is, numbers_from};
ghost use Rattle.rt_model.specs.BaseKeys.{base_key};
ghost use Rattle.rt_model.specs.EffectiveKeys.{effective_key};
ghost use Rattle.rt_model.specs.Group.{in_group, resv, tasks};
ghost use Rattle.rt_model.specs.Holders.{holds};
ghost use Rattle.rt_model.specs.Jobs.{done};
ghost use Rattle.rt_model.specs.NonPreemptive.{non_preemptive};
ghost use Rattle.rt_model.specs.Past.{Past};
ghost use Rattle.rt_model.specs.Releases.{exists};
ghost use Rattle.rt_model.specs.Reservations.{left};
ghost use Rattle.rt_model.specs.Sleep.{sleeps};
ghost use Rattle.sem_table.specs.Told.{state_of};
ghost use Rattle.rank_afresh.specs.Standing.{IsAt, group_of};

use super::Afresh;
use group_core::GroupCore;
use rt_base::{NoMemory, ResvNo, SemNo, TaskNo};
use rt_rules::Key;
use std::alloc::Global;

/// Whether the task holds the semaphore.
fn is_held(core: &GroupCore, sem: SemNo, task: TaskNo) -> bool
    ensures { result ≡ is task.0 (state_of core.now.facts.sems.table sem.0).holder }
{
    match core.holder(sem) {
        Some(holder) => task.0 == holder.0,
        None => false,
    }
}

/// The first semaphores, as many, that the task holds, by rising number.
fn held_of(
    alloc: Global,
    core: &GroupCore,
    count: u32,
    task: TaskNo,
) -> Result<Vec<SemNo>, NoMemory>
    ensures { let table = core.now.facts.sems.table in
        IfOk result (λ v. map (λ (s : sems.SemNo). s.0) v.items
        ≡ filter (λ s. is task.0 (state_of table s).holder) (numbers_from 1 count)) }
{
    let mut held = Vec::new(alloc);
    for i in 0..count {
        let sem = SemNo(i + 1);
        if is_held(core, sem, task) {
            held.push(sem)?;
        }
    }
    Ok(held)
}

impl Afresh {
    /// Whether the task's current job is there, by its release or early.
    pub fn exists(&self, task: TaskNo) -> bool
        requires { has task.0 (tasks (group_of self.now)) ≡ true }
        ensures { (past : Past) → IsAt self.now past
            → result ≡ exists (group_of self.now) task.0 past }
    {
        self.facts.core().is_there(self.setup.parts(), task)
    }

    /// Whether the task's current job sleeps.
    pub fn sleeps(&self, task: TaskNo) -> bool
        requires { has task.0 (tasks (group_of self.now)) ≡ true }
        ensures { (past : Past) → IsAt self.now past → result ≡ sleeps task.0 past }
    {
        self.facts.core().sleeps(task)
    }

    /// Whether the task's current job is non-preemptive.
    pub fn non_preemptive(&self, task: TaskNo) -> bool
        requires { has task.0 (tasks (group_of self.now)) ≡ true }
        ensures { (past : Past) → IsAt self.now past → result ≡ non_preemptive task.0 past }
    {
        self.facts.core().is_non_preemptive(task)
    }

    /// How many jobs of the task have ended.
    pub fn done(&self, task: TaskNo) -> u64
        requires { has task.0 (tasks (group_of self.now)) ≡ true }
        ensures shown { (past : Past) → IsAt self.now past → result ≡ done task.0 past }
        ensures few { result ≤ MOST_STEPS }
    {
        self.facts.core().done(task)
    }

    /// The base key of the task's current job.
    pub fn base_key(&self, task: TaskNo) -> Key
        requires { has task.0 (tasks (group_of self.now)) ≡ true }
        ensures { (past : Past) → IsAt self.now past
            → result ≡ base_key (group_of self.now) task.0 past }
    {
        self.facts.core().base_key(self.setup.parts(), task)
    }

    /// The effective key of the task's current job: its base key, or a higher one by a semaphore.
    pub fn effective_key(&self, task: TaskNo) -> Key
        requires { has task.0 (tasks (group_of self.now)) ≡ true }
        ensures { (past : Past) → IsAt self.now past
            → result ≡ effective_key (group_of self.now) task.0 past }
    {
        self.facts.core().key(task)
    }

    /// The semaphores that the task holds, by rising number. Where it holds none no memory is taken.
    pub fn held(&self, alloc: Global, task: TaskNo) -> Result<Vec<SemNo>, NoMemory>
        requires { has task.0 (tasks (group_of self.now)) ≡ true }
        ensures { IfOk result (λ v. (past : Past) → IsAt self.now past
            → map (λ (s : sems.SemNo). s.0) v.items ≡ holds (group_of self.now) task.0 past) }
    {
        let core = self.facts.core();
        if core.holds_none(task) {
            return Ok(Vec::new(alloc));
        }
        let count = self.setup.parts().sems.as_slice().len() as u32;
        let held = held_of(alloc, core, count, task)?;
        Ok(held)
    }

    /// What is left of the budget of a reservation of the group.
    pub fn left(&self, number: ResvNo) -> u64
        requires low { 1 ≤ number.0 }
        requires high { number.0 ≤ length self.now.setup.resvs }
        requires here { in_group (group_of self.now)
            (resv (group_of self.now) number.0).cluster.0 ≡ true }
        requires at { (past : Past) × IsAt self.now past }
        ensures { (past : Past) → IsAt self.now past
            → result ≡ left (group_of self.now) number.0 past }
    {
        self.facts.core().left(number)
    }
}
