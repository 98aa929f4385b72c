//! The semaphores of a group together with the effective keys of its tasks: what an accepted Lock and an accepted Unlock
//! make of both, and when they are refused.
#![tactic(auto)]

ghost use Rattle.std.specs.Prelude.{◌≡◌, ◌<◌, ◌≤◌, ◌+◌, ◌-◌, ◌==◌, ◌↔◌, [], ◌∷◌, ℕ, true, false, IfOk, None, Some, is_some, length, replicate, slice_index_or, slice_set};
ghost use Rattle.rt_base.specs.TaskNos.{number_of_task};
ghost use Rattle.prio_inherit.specs.Waits.{effective_key};
ghost use Rattle.sem_table.specs.Asked.{is_granted};
ghost use Rattle.sem_table.specs.Opened.{IsOpened};
ghost use Rattle.sem_table.specs.Told.{awaits_of, held_of, owner_of, passes_of, state_of, waiters_of};
ghost use Rattle.mpcp_ceilings.specs.Ceilings.{AreCeilings};
ghost use Rattle.rt_plays.specs.Plays.{group_with};
ghost use Rattle.group_sems.specs.Locking.{after_lock, after_unlock, served_waits, with_boost, with_next, CanLock, CanRetell, CanServe, CanUnlock};
ghost use Rattle.group_sems.specs.BoostKeys.{IsSemOf};
ghost use Rattle.group_sems.specs.BoostKeys as boosting;
ghost use Rattle.group_sems.specs.Refusing as refusing;
ghost use Rattle.group_sems.specs.Refusing.{AreSemsOf};
ghost use Rattle.group_sems.specs.Telling.{retold, told, CanTell, HasBase};

mod boosts;
mod keys;
pub mod laws;
mod refusals;

use boosts::boost_now;
use mpcp_ceilings::MpcpCeilings;
use prio_inherit::Inherit;
use rt_base::{Ask, GroupNo, NoMemory, SemNo, TaskNo, Tick};
use rt_rules::{Key, Reply};
use rt_task::{Parts, Setup};
use sem_table::Sems;
use std::alloc::Global;
use std::marker::Model;

/// The semaphores of a group under FMLP, OMLP, MPCP, PCP and SRP, and of each of its tasks the base key, whom it waits for and
/// its boost, from which its effective key follows. With them is kept which tasks are under way: these need not pass the test
/// of SRP.
///
/// After `open` no call takes memory. A Lock or an Unlock can change the effective keys of two tasks alone: of the owner
/// of the semaphore before it and of the owner after it.
#[derive(Drop)]
pub struct GroupSems {
    sems: Sems,
    keys: Inherit,
    ceilings: MpcpCeilings,
    ways: Vec<bool>,
    // Empty between calls.
    waiters: Vec<TaskNo>,
}

impl Model for GroupSems {
    ghost use Rattle.std.specs.Prelude.{◌≡◌, ◌≤◌, [], length, vec_capacity};
    ghost use Rattle.group_sems.specs.GroupSems as seen;

    ghost Value = { seen.GroupSems };

    ghost view = { λ a. record {
      table = a.sems;
      waits = a.keys;
      ceilings = a.ceilings;
      ways = a.ways.items;
    } };

    ghost invariant = { λ a. (a.waiters.items ≡ [])
        × (length a.keys.bases ≤ vec_capacity a.waiters) };
}

impl GroupSems {
    /// The semaphores of the group. Nobody holds one or waits, no base key is known, and no task is under way.
    ///
    /// Example: `GroupSems::open(alloc, &setup, GroupNo(0))` has all semaphores of a set with one group.
    pub fn open(alloc: Global, setup: &Setup, group: GroupNo) -> Result<GroupSems, NoMemory>
        ensures table { IfOk result (λ v. IsOpened (group_with setup.now group.0) v.table) }
        ensures ceilings { IfOk result
            (λ v. AreCeilings (group_with setup.now group.0) v.ceilings) }
        ensures waits { let room = length setup.now.tasks + 1 in
            IfOk result (λ v. v.waits ≡ record {
              bases = replicate room None;
              nexts = replicate room None;
              boosts = replicate room None;
            }) }
        ensures ways { IfOk result (λ v. v.ways ≡ replicate (length setup.now.tasks) false) }
    {
        let parts = setup.parts();
        let Ok(tasks) = u32::try_from(parts.tasks.as_slice().len()) else {
            return Err(NoMemory);
        };
        if tasks == u32::MAX {
            return Err(NoMemory);
        }
        let waiters = Vec::with_capacity(alloc, tasks as usize + 1)?;
        Ok(GroupSems {
            sems: Sems::new(alloc, setup, group)?,
            keys: Inherit::new(alloc, tasks + 1)?,
            ceilings: MpcpCeilings::open(alloc, parts, group)?,
            ways: vec![in alloc; false; tasks as usize]?,
            waiters,
        })
    }

    /// Sets the base key of the task.
    #[inline(always)]
    pub fn base(&mut self, task: TaskNo, key: Key)
        requires { task.0 < length self.old.waits.bases }
        ensures { self.new ≡ record self.old {
          waits = record self.old.waits {
            bases = slice_set self.old.waits.bases task.0 (Some key);
          };
        } }
    {
        self.keys.base(task, key);
    }

    /// The effective key of the task, whose base key has to be known: its boost, or the highest base key among its own and those
    /// of the tasks that wait for it.
    pub fn key(&self, task: TaskNo) -> Key
        requires { HasBase self.now.waits.bases task.0 }
        ensures { result ≡ effective_key self.now.waits task.0 }
    {
        self.keys.key(task)
    }

    /// The table of keys.
    pub fn keys(&self) -> &Inherit
        ensures { result.now ≡ self.now.waits }
    {
        &self.keys
    }

    /// The table of semaphores.
    pub fn table(&self) -> &Sems
        ensures { result.now ≡ self.now.table }
    {
        &self.sems
    }

    /// The task that holds the semaphore.
    pub fn holder(&self, sem: SemNo) -> Option<TaskNo>
        ensures { number_of_task result ≡ (state_of self.now.table sem.0).holder }
    {
        self.sems.holder(sem)
    }

    /// The owner of the semaphore, for which all wait that wait for it: its holder, under PCP the task of the newest grant
    /// of its cluster.
    pub fn owner(&self, sem: SemNo) -> Option<TaskNo>
        ensures { number_of_task result ≡ owner_of self.now.table sem.0 }
    {
        self.sems.owner(sem)
    }

    /// Whether the task waits for a semaphore.
    pub fn waits(&self, task: TaskNo) -> bool
        ensures { result ≡ is_some (awaits_of self.now.table task.0) }
    {
        self.sems.awaits(task).is_some()
    }

    /// Whether the task holds no semaphore.
    pub fn holds_none(&self, task: TaskNo) -> bool
        ensures { result ≡ (held_of self.now.table task.0 == 0) }
    {
        self.sems.held_by(task) == 0
    }

    /// Whether the task is under way.
    ///
    /// Example: no task is right after `open`.
    pub fn is_under_way(&self, task: TaskNo) -> bool
        ensures { result ≡ slice_index_or self.now.ways (task.0 - 1) false }
    {
        let position = (task.0 as usize).saturating_sub(1);
        match self.ways.as_slice().get(position) {
            Some(way) => *way,
            None => false,
        }
    }

    /// Writes whether the task is under way.
    #[tactic(auto, using(std::proofs::lemmas::List::set_past))]
    pub fn put_way(&mut self, task: TaskNo, way: bool)
        ensures { self.new ≡ record self.old {
          ways = slice_set self.old.ways (task.0 - 1) way;
        } }
    {
        let position = (task.0 as usize).saturating_sub(1);
        if position < self.ways.len() {
            self.ways[position] = way;
        }
    }

    /// Whether the number, the relative deadline of the task, is below the ceilings of all SRP semaphores of its cluster
    /// that other tasks hold.
    pub fn passes(&self, task: TaskNo, rel_deadline: u64) -> bool
        ensures { result ≡ passes_of self.now.table task.0 rel_deadline }
    {
        self.sems.passes(task, rel_deadline)
    }

    /// Why the task may not ask for the semaphore: it does not declare it, or the request would nest where it must not.
    pub fn lock_refusal(&self, parts: &Parts, task: TaskNo, sem: SemNo) -> Option<Reply>
        requires task { (1 ≤ task.0) × (task.0 ≤ length parts.now.tasks) }
        requires sem { (1 ≤ sem.0) × (sem.0 ≤ length parts.now.sems) }
        requires uses { AreSemsOf parts.now task.0 }
        ensures { result ≡ refusing.lock_refusal parts.now self.now.table task.0 sem.0 }
    {
        refusals::lock_refusal(&self.sems, parts, task, sem)
    }

    /// Why the task may not free the semaphore: it does not hold it, or under PCP and SRP it was granted another one since.
    pub fn unlock_refusal(&self, parts: &Parts, task: TaskNo, sem: SemNo) -> Option<Reply>
        requires sem { (1 ≤ sem.0) × (sem.0 ≤ length parts.now.sems) }
        ensures { result ≡ refusing.unlock_refusal parts.now self.now.table task.0 sem.0 }
    {
        refusals::unlock_refusal(&self.sems, parts, task, sem)
    }

    /// The task, which waits for no semaphore, asks for this one with its base key at this clock. It holds it from now on,
    /// and may be boosted, or waits for its owner.
    pub fn lock(&mut self, parts: &Parts, clock: Tick, task: TaskNo, key: Key, sem: SemNo) -> Ask
        requires { CanLock parts.now task.0 key sem.0 self.old }
        ensures after { self.new ≡ after_lock parts.now clock.0 task.0 key sem.0 self.old }
        ensures granted { (result ≡ Ask.Granted)
            ↔ (is_granted task.0 key sem.0 self.old.table ≡ true) }
        ensures queued { (result ≡ Ask.Queued)
            ↔ (is_granted task.0 key sem.0 self.old.table ≡ false) }
    {
        let before = self.sems.owner(sem);
        let answer = self.sems.ask(task, key, sem);
        match answer {
            Ask::Granted => {
                self.boost(parts, clock, task, sem);
                self.tell_waiters(before, sem);
            }
            Ask::Queued => self.wait_for_owner(task, sem),
        }
        answer
    }

    /// The task frees the semaphore that it holds, under PCP and SRP the last that it was granted, at this clock. The answer
    /// is the task, if any, that is granted one: it waits no longer, and may be boosted.
    pub fn unlock(&mut self, parts: &Parts, clock: Tick, task: TaskNo, sem: SemNo) -> Option<TaskNo>
        requires { CanUnlock parts.now clock.0 task.0 sem.0 self.old }
        ensures after { self.new ≡ after_unlock parts.now clock.0 task.0 sem.0 self.old }
        ensures served { number_of_task result ≡ self.new.table.served }
    {
        let before = self.sems.owner(sem);
        self.sems.release(task, sem);
        self.keys.drop_boost(task);
        let served = self.sems.granted(0);
        self.serve(parts, clock, served, sem);
        self.tell_waiters(before, sem);
        served
    }

    /// The task, which is granted the semaphore at this clock, is boosted as the plugin and the protocol say.
    fn boost(&mut self, parts: &Parts, clock: Tick, task: TaskNo, sem: SemNo)
        requires task { CanServe parts.now task.0 self.old.waits.bases }
        requires sem { IsSemOf parts.now self.old.ceilings sem.0 }
        ensures { self.new ≡ record self.old {
          waits = let key = boosting.boost_now parts.now self.old.ceilings clock.0 sem.0 task.0 in
              with_boost task.0 key self.old.waits;
        } }
    {
        match boost_now(parts, &self.ceilings, clock, sem, task) {
            Some(key) => self.keys.boost(task, key),
            None => self.keys.drop_boost(task),
        }
    }

    /// The task, if any, waits no longer, and is boosted as one that is granted the semaphore at this clock.
    fn serve(&mut self, parts: &Parts, clock: Tick, served: Option<TaskNo>, sem: SemNo)
        requires task { (u : ℕ) → number_of_task served ≡ Some u →
            CanServe parts.now u self.old.waits.bases }
        requires sem { IsSemOf parts.now self.old.ceilings sem.0 }
        ensures { self.new ≡ record self.old {
          waits = served_waits parts.now self.old.ceilings clock.0 sem.0 (number_of_task served)
              self.old.waits;
        } }
    {
        if let Some(task) = served {
            self.keys.stops(task);
            self.boost(parts, clock, task, sem);
        }
    }

    /// The task waits for the owner of the semaphore.
    fn wait_for_owner(&mut self, task: TaskNo, sem: SemNo)
        requires based { HasBase self.old.waits.bases task.0 }
        requires can { (o : ℕ) → owner_of self.old.table sem.0 ≡ Some o →
            CanTell o (task.0 ∷ []) self.old.waits.bases self.old.waits.nexts }
        ensures { self.new ≡ record self.old {
          waits = with_next task.0 (owner_of self.old.table sem.0) self.old.waits;
        } }
    {
        match self.sems.owner(sem) {
            Some(owner) => keys::tell(&mut self.keys, task, owner),
            None => self.keys.stops(task),
        }
    }

    /// Where the owner of the semaphore is another than before, its waiters wait for the new one.
    fn tell_waiters(&mut self, before: Option<TaskNo>, sem: SemNo)
        requires { CanRetell self.old.table sem.0 self.old.waits.bases self.old.waits.nexts }
        ensures { self.new ≡ record self.old {
          waits = retold (number_of_task before) self.old.table sem.0 self.old.waits;
        } }
    {
        let owner = self.sems.owner(sem);
        if owner == before {
            return;
        }
        if let Some(owner) = owner {
            self.tell_waiters_of(sem, owner);
        }
    }

    /// The waiters of the semaphore wait for this task.
    fn tell_waiters_of(&mut self, sem: SemNo, owner: TaskNo)
        requires few { length (waiters_of self.old.table sem.0) ≤ length self.old.waits.bases }
        requires can { CanTell owner.0 (waiters_of self.old.table sem.0) self.old.waits.bases
            self.old.waits.nexts }
        ensures { self.new ≡ record self.old {
          waits = record self.old.waits {
            nexts = told owner.0 (waiters_of self.old.table sem.0) self.old.waits.nexts;
          };
        } }
    {
        self.sems.list_waiters(sem, &mut self.waiters);
        keys::tell_all(&mut self.keys, self.waiters.as_slice(), owner);
        self.waiters.clear();
    }
}
