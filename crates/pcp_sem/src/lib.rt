//! The semaphores of one cluster under the PCP (Sha, Rajkumar and Lehoczky, IEEE Transactions on Computers, 1990): a
//! task is granted a semaphore where its base key is above the ceilings of all that other tasks hold.
#![tactic(auto)]

ghost use Rattle.std.specs.Prelude.{◌≡◌, ◌≢◌, ◌<◌, ◌≤◌, ◌↔◌, ◌+◌, ◌++◌, ◌==◌, [], ℕ, true, false, length, reverse, replicate, filter, IfOk, IsNone, Some, None, slice_set, slice_get, vec_len, vec_capacity};
ghost use Rattle.rt_base.specs.TaskNos.{number_of_task, numbers};
ghost use Rattle.rt_rules.specs.KeyOrder.{higher, equal_keys, lowest_key};
ghost use Rattle.rt_rules.specs.Numbers.{first, has};
ghost use Rattle.rt_rules.specs.SemState.{Asks, Frees};
ghost use Rattle.rt_rules.specs.Pcp.{of_others, pcp_after, pcp_sem_state, passes, without_pair};
ghost use Rattle.sem_laws.specs.KeptKeys.{key_at, above};
ghost use Rattle.pcp_sem.specs.Pairs.{has_pair, tasks_of};
ghost use Rattle.pcp_sem.specs.PcpKept.{PcpKept, above_ceiling, blocker_of, last_granted};
ghost use Rattle.pcp_sem.specs.AfterActs.{HoldsAfterActs};

use pairs::Pair;
use rt_base::{Ask, NoMemory, TaskNo};
use rt_rules::Key;
use std::alloc::Global;
use std::marker::Model;

mod pairs;

/// PCP semaphores (Sha, Rajkumar and Lehoczky, 1990), numbered from 0, with their ceilings: the highest base key of
/// the users of each. It keeps the key with which a task asked.
///
/// The waiting requests stand in falling order of keys from call to call, so that a call takes no more steps than a
/// constant times what is held and waited for.
#[derive(Drop)]
pub struct PcpSet {
    ceilings: Vec<Key>,
    keys: Vec<Key>,
    held: Vec<Pair>,
    waiting: Vec<Pair>,
    order: Vec<Pair>,
    grants: Vec<TaskNo>,
}

impl Model for PcpSet {
    ghost use Rattle.std.specs.Prelude.{vec_capacity};
    ghost use Rattle.rt_base.specs.TaskNos.{numbers};
    ghost use Rattle.pcp_sem.specs.Listed.{pairs};
    ghost use Rattle.pcp_sem.specs.PcpKept.{PcpKept};
    ghost use Rattle.pcp_sem.specs.IsPcp.{IsPcpTable};

    ghost Value = { PcpKept };

    ghost view = { λ a. record {
      ceilings = a.ceilings.items;
      state = record { held = pairs a.held.items; waiting = pairs a.waiting.items };
      keys = a.keys.items;
      grants = numbers a.grants.items;
    } };

    ghost invariant = { λ a. IsPcpTable a.ceilings.items a.keys.items
        (record {
          held = pairs a.held.items;
          waiting = pairs a.waiting.items;
        }) (pairs a.order.items) (vec_capacity a.held)
        (vec_capacity a.waiting) (vec_capacity a.order) (vec_capacity a.grants) };
}

impl PcpSet {
    /// A set whose semaphores nobody holds, for tasks whose numbers are below `room`, each with the lowest of all
    /// keys until it asks. No later call takes memory.
    ///
    /// Example: `PcpSet::new(alloc, &ceilings, 64)` has semaphore 0 with the first of the ceilings.
    pub fn new(alloc: Global, ceilings: &[Key], room: u32) -> Result<PcpSet, NoMemory>
        ensures free { IfOk result (λ s. s.state ≡ record { held = []; waiting = [] }) }
        ensures ceilings { IfOk result (λ s. s.ceilings ≡ ceilings.now) }
        ensures room { IfOk result (λ s. length s.keys ≡ room) }
        ensures keys { IfOk result (λ s. s.keys ≡ replicate room lowest_key) }
        ensures grants { IfOk result (λ s. s.grants ≡ []) }
    {
        let room = room as usize;
        let most = ceilings.len().checked_add(room).ok_or(NoMemory)?;
        Ok(PcpSet {
            ceilings: Vec::from_slice(alloc, ceilings)?,
            keys: pairs::lowest_keys(alloc, room)?,
            held: pairs::reserved(alloc, most)?,
            waiting: pairs::reserved(alloc, room)?,
            order: pairs::reserved(alloc, room)?,
            grants: pairs::reserved_tasks(alloc, room)?,
        })
    }

    /// The task asks for the semaphore with its base key. It holds it from now on where its key is above the ceilings
    /// of all semaphores that other tasks hold, else it waits.
    ///
    /// The task waits for no semaphore, does not hold this one and holds fewer than eight. Its key is not higher than
    /// the ceiling of the semaphore, is the one with which it asked for what it holds, and differs from the keys of
    /// all other tasks that hold or wait.
    ///
    /// Example: where task 1 holds a semaphore whose ceiling is above the key of task 2, task 2 is `Ask::Queued`,
    /// even at a free one.
    pub fn ask(&mut self, task: TaskNo, key: Key, sem: u32) -> Ask
        requires below { task.0 < length self.old.keys }
        requires known { sem < length self.old.ceilings }
        requires idle { has task.0 (tasks_of self.old.state.waiting) ≡ false }
        requires fresh { has_pair task.0 sem self.old.state.held ≡ false }
        requires few { length (filter (λ p. p.task == task.0) self.old.state.held) < 8 }
        requires low { higher key (key_at self.old.ceilings sem) ≡ false }
        requires same { has task.0 (tasks_of self.old.state.held) ≡ true →
            key_at self.old.keys task.0 ≡ key }
        requires apart { (t : ℕ) → t ≢ task.0 →
            has t (tasks_of self.old.state.held ++ tasks_of self.old.state.waiting) ≡ true →
            equal_keys (key_at self.old.keys t) key ≡ false }
        ensures after { let keys = slice_set self.old.keys task.0 key in
            self.new ≡ record self.old {
              state = pcp_after (above keys) (above_ceiling keys self.old.ceilings)
                  (Asks task.0 sem) self.old.state;
              keys = keys;
            } }
        ensures granted { (result ≡ Ask.Granted) ↔
            (passes (above_ceiling self.new.keys self.new.ceilings)
            self.old.state.held task.0 ≡ true) }
        ensures queued { (result ≡ Ask.Queued) ↔
            (passes (above_ceiling self.new.keys self.new.ceilings)
            self.old.state.held task.0 ≡ false) }
        ensures holds { HoldsAfterActs self.new }
    {
        self.keys[task.0 as usize] = key;
        let pair = Pair { task, sem };
        if pairs::does_pass(
            self.held.as_slice(),
            self.keys.as_slice(),
            self.ceilings.as_slice(),
            task,
        ) {
            pairs::put_first(&mut self.held, pair);
            Ask::Granted
        } else {
            pairs::put_behind(&mut self.waiting, pair);
            pairs::insert_by_key(&mut self.order, self.keys.as_slice(), pair);
            Ask::Queued
        }
    }

    /// The task frees the semaphore, the last that it was granted among those it holds. Then each waiting task is
    /// tested once, in falling order of keys, and is granted its semaphore where it passes at its turn. The answer is
    /// how many were granted: at most one, since no later one passes once one holds.
    ///
    /// Example: `set.release(TaskNo(1), 0)` is 1 where a waiting task passes then.
    pub fn release(&mut self, task: TaskNo, sem: u32) -> u32
        requires known { sem < length self.old.ceilings }
        requires last { last_granted self.old.state.held task.0 ≡ Some sem }
        ensures after { self.new ≡
            record self.old {
              state = pcp_after (above self.old.keys)
                  (above_ceiling self.old.keys self.old.ceilings) (Frees task.0 sem) self.old.state;
              grants = self.new.grants;
            } }
        ensures grants { tasks_of self.new.state.held ≡ reverse self.new.grants ++
            tasks_of (without_pair (record { task = task.0; sem = sem }) self.old.state.held) }
        ensures count { result ≡ length self.new.grants }
        ensures one { result ≤ 1 }
        ensures holds { HoldsAfterActs self.new }
    {
        pairs::take_out(&mut self.held, Pair { task, sem });
        self.grants.clear();
        let Some(next) = pairs::first_to_pass(
            self.order.as_slice(),
            self.held.as_slice(),
            self.keys.as_slice(),
            self.ceilings.as_slice(),
        ) else {
            return 0;
        };
        // No later one passes once this one holds, so that at most one is granted.
        pairs::put_first(&mut self.held, next);
        pairs::take_out(&mut self.waiting, next);
        pairs::take_out(&mut self.order, next);
        pairs::put_last(&mut self.grants, next.task);
        self.grants.len() as u32
    }

    /// The task that the last release granted at that position, counted from 0, in order of granting; `None` past the
    /// last of them, and before the first release.
    ///
    /// Example: `set.granted(0)` is the first task that the last release granted.
    pub fn granted(&self, i: u32) -> Option<TaskNo>
        ensures task { number_of_task result ≡ slice_get self.now.grants i }
        ensures past { IsNone result ↔ (length self.now.grants ≤ i) }
    {
        self.grants.get(i as usize).copied()
    }

    /// The task that holds the highest ceiling among the semaphores that other tasks hold, ties to the lower number
    /// of the semaphore; `None` where no other task holds one. A waiting task has one, which does not wait.
    ///
    /// Example: `set.blocker(TaskNo(2))` is whom task 2 waits for, and so the one that inherits its key.
    pub fn blocker(&self, task: TaskNo) -> Option<TaskNo>
        ensures holder { number_of_task result ≡
            blocker_of self.now.ceilings self.now.state.held task.0 }
        ensures nobody { IsNone result ↔ (of_others task.0 self.now.state.held ≡ []) }
        ensures holds { HoldsAfterActs self.now }
    {
        pairs::newest_of_others(self.held.as_slice(), task)
    }

    /// The task of the newest grant among those that are held, `None` where nothing is held. It is the blocker of
    /// each waiting task.
    ///
    /// Example: where task 1 and then task 2 are granted semaphores, `set.newest()` is task 2.
    pub fn newest(&self) -> Option<TaskNo>
        ensures { number_of_task result ≡ first (tasks_of self.now.state.held) }
    {
        self.held.first().map(|p| p.task)
    }

    /// The task that holds the semaphore; `None` also of a number that is no semaphore of the set.
    ///
    /// Example: `set.holder(0)` is `None` in a new set.
    pub fn holder(&self, sem: u32) -> Option<TaskNo>
        ensures { number_of_task result ≡ (pcp_sem_state sem self.now.state).holder }
    {
        pairs::holder_in(self.held.as_slice(), sem)
    }

    /// The semaphore that the task was granted last among those that it holds.
    ///
    /// Example: only what `set.last_of(task)` names may be released by the task.
    pub fn last_of(&self, task: TaskNo) -> Option<u32>
        ensures { result ≡ last_granted self.now.state.held task.0 }
    {
        pairs::last_in(self.held.as_slice(), task)
    }

    /// Adds the tasks that wait for the semaphore, in the order of asking, behind what `into` holds, which has room
    /// for them. It takes no memory, and adds none for a number that is no semaphore of the set.
    ///
    /// Example: where task 4 waits for semaphore 0 and task 2 for semaphore 1, `set.list_waiting(0, &mut into)` adds 4.
    pub fn list_waiting(&self, sem: u32, into: &mut Vec<TaskNo>)
        requires room { vec_len into.old + length (pcp_sem_state sem self.now.state).waiting ≤
            vec_capacity into.old }
        ensures tasks { numbers into.new.items ≡
            numbers into.old.items ++ (pcp_sem_state sem self.now.state).waiting }
        ensures capacity { vec_capacity into.new ≡ vec_capacity into.old }
    {
        pairs::list_of_sem(self.waiting.as_slice(), sem, into);
    }

    /// Adds the tasks that wait for any semaphore of the set, in the order of asking, behind what `into` holds, which
    /// has room for them. It takes no memory.
    ///
    /// Example: where task 4 waits for semaphore 0 and task 2 for semaphore 1, `set.list_all_waiting(&mut into)` adds
    /// both.
    pub fn list_all_waiting(&self, into: &mut Vec<TaskNo>)
        requires room { vec_len into.old + length (tasks_of self.now.state.waiting) ≤
            vec_capacity into.old }
        ensures tasks { numbers into.new.items ≡
            numbers into.old.items ++ tasks_of self.now.state.waiting }
        ensures capacity { vec_capacity into.new ≡ vec_capacity into.old }
    {
        pairs::list_tasks(self.waiting.as_slice(), into);
    }
}
