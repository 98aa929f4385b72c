//! What explains why a task runs or does not: who is ranked before it, who holds what it waits for, and how its reservation stands.
ghost use Rattle.std.specs.Prelude.{◌≡◌, ◌<◌, ◌≤◌, ◌^◌, IfOk, IfSome, length, option_map, true};
ghost use Rattle.rt_base.specs.TaskNos.{number_of_task, numbers};
ghost use Rattle.rt_base.specs.declared.Tick as ticks;
ghost use Rattle.rt_rules.specs.Numbers.{has};
ghost use Rattle.rt_rules.specs.Rankings.{tasks_of};
ghost use Rattle.rt_model.specs.EffectiveKeys.{waits_for};
ghost use Rattle.rt_model.specs.Group.{clusters, in_group, resv, sems, tasks};
ghost use Rattle.rt_model.specs.Holders.{holder};
ghost use Rattle.rt_model.specs.Jobs.{used};
ghost use Rattle.rt_model.specs.Past.{Past};
ghost use Rattle.rt_model.specs.Releases.{release};
ghost use Rattle.rt_model.specs.Reservations.{front, last};
ghost use Rattle.rt_model.specs.Sleep.{wakes};
ghost use Rattle.rt_model.specs.Tops.{eligible, ranking};
ghost use Rattle.rank_afresh.specs.Standing.{IsAt, group_of};

use super::Afresh;
use rt_base::{ClusterNo, NoMemory, ResvNo, SemNo, TaskNo, Tick};
use std::alloc::Global;

impl Afresh {
    /// Whether the task may be linked: its job is there, neither sleeps nor waits, its reservation serves it, and SRP admits it.
    pub fn eligible(&self, task: TaskNo) -> bool
        requires { has task.0 (tasks (group_of self.now)) ≡ true }
        ensures { (past : Past) → IsAt self.now past
            → result ≡ eligible (group_of self.now) task.0 past }
    {
        self.facts.core().is_eligible(self.setup.parts(), task)
    }

    /// The eligible tasks of a cluster by effective key and then by number.
    pub fn ranking(&self, alloc: Global, cluster: ClusterNo) -> Result<Vec<TaskNo>, NoMemory>
        requires { has cluster.0 (clusters (group_of self.now)) ≡ true }
        ensures { IfOk result (λ v. (past : Past) → IsAt self.now past
            → numbers v.items ≡ tasks_of (ranking (group_of self.now) cluster.0 past)) }
    {
        self.facts.ranking(alloc, cluster)
    }

    /// The release of the task's current job; none where a sporadic task's has not arrived.
    pub fn release(&self, task: TaskNo) -> Option<u64>
        requires { has task.0 (tasks (group_of self.now)) ≡ true }
        ensures release { (past : Past) → IsAt self.now past
            → result ≡ release (group_of self.now) task.0 past }
        ensures low { IfSome result (λ r. r < 2 ^ 62) }
    {
        self.facts.core().release(self.setup.parts(), task)
    }

    /// How many units of its cost the task's current job has used.
    pub fn used(&self, task: TaskNo) -> u64
        requires { has task.0 (tasks (group_of self.now)) ≡ true }
        ensures { (past : Past) → IsAt self.now past → result ≡ used task.0 past }
    {
        self.facts.core().used(task)
    }

    /// The clock at which the last sleep of the task's current job is over; 0 where it did not sleep.
    pub fn wakes(&self, task: TaskNo) -> u64
        requires { has task.0 (tasks (group_of self.now)) ≡ true }
        ensures { (past : Past) → IsAt self.now past → result ≡ wakes task.0 past }
    {
        self.facts.core().wakes(task)
    }

    /// The task that holds the semaphore.
    pub fn holder(&self, sem: SemNo) -> Option<TaskNo>
        requires { has sem.0 (sems (group_of self.now)) ≡ true }
        ensures { (past : Past) → IsAt self.now past
            → number_of_task result ≡ holder (group_of self.now) sem.0 past }
    {
        self.facts.core().holder(sem)
    }

    /// The task for which the task waits: the holder of the semaphore, under PCP the task that keeps it from it.
    pub fn waits_for(&self, task: TaskNo) -> Option<TaskNo>
        requires { has task.0 (tasks (group_of self.now)) ≡ true }
        ensures { (past : Past) → IsAt self.now past
            → number_of_task result ≡ waits_for (group_of self.now) task.0 past }
    {
        self.facts.core().waits_for(task)
    }

    /// The clock of the last refill of a reservation of the group, of a table reservation the begin of its slot.
    pub fn refilled(&self, number: ResvNo) -> Option<Tick>
        requires low { 1 ≤ number.0 }
        requires high { number.0 ≤ length self.now.setup.resvs }
        requires here { in_group (group_of self.now)
            (resv (group_of self.now) number.0).cluster.0 ≡ true }
        requires at { (past : Past) × IsAt self.now past }
        ensures { (past : Past) → IsAt self.now past → option_map (λ (t : ticks.Tick). t.0) result
            ≡ last (group_of self.now) number.0 past }
    {
        self.facts.core().resv_state(number).last
    }

    /// The front client of a reservation of the group: the ready one of the earliest release.
    pub fn front(&self, number: ResvNo) -> Option<TaskNo>
        requires low { 1 ≤ number.0 }
        requires high { number.0 ≤ length self.now.setup.resvs }
        requires here { in_group (group_of self.now)
            (resv (group_of self.now) number.0).cluster.0 ≡ true }
        requires at { (past : Past) × IsAt self.now past }
        ensures { (past : Past) → IsAt self.now past
            → number_of_task result ≡ front (group_of self.now) number.0 past }
    {
        self.facts.core().front(number)
    }
}
