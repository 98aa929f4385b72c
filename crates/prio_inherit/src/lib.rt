//! Priority inheritance (Sha, Rajkumar and Lehoczky, IEEE Transactions on Computers, 1990): the keys that tasks
//! inherit from those that wait for them.
#![tactic(auto)]

ghost use Rattle.std.specs.Prelude.{◌≡◌, ◌<◌, IsSome, IfOk, None, Some, length, replicate, slice_index_or, slice_set};
ghost use Rattle.prio_inherit.specs.Waits.{Waits, NoWalkComesRound, effective_key};

use rt_base::{NoMemory, TaskNo};
use rt_rules::Key;
use std::alloc::Global;
use std::marker::Model;

mod keys;

/// Tasks, each with its base key, the task that it waits for and its boost: a boosted task has its boost, as a holder
/// under MPCP (Rajkumar, ICDCS 1990). The keys are kept call by call along those that are waited for, and how many
/// wait for each, so that no call looks for waiting tasks where there are none.
#[derive(Drop)]
pub struct Inherit {
    bases: Vec<Option<Key>>,
    nexts: Vec<Option<TaskNo>>,
    boosts: Vec<Option<Key>>,
    keys: Vec<Key>,
    counts: Vec<u32>,
}

impl Model for Inherit {
    ghost use Rattle.rt_base.specs.TaskNos.{numbers_of_tasks};
    ghost use Rattle.prio_inherit.specs.Waits.{Waits};
    ghost use Rattle.prio_inherit.specs.Counts.{IsTable};

    ghost Value = { Waits };

    ghost view = { λ a. record {
      bases = a.bases.items;
      nexts = numbers_of_tasks a.nexts.items;
      boosts = a.boosts.items;
    } };

    ghost invariant = { λ a. IsTable a.bases.items (numbers_of_tasks a.nexts.items)
        a.boosts.items a.keys.items a.counts.items };
}

impl Inherit {
    /// A table for tasks whose numbers are below `room`: no base key is known, and no task waits or is boosted. No later
    /// call takes memory.
    ///
    /// Example: `Inherit::new(alloc, 64)` takes the tasks 0 to 63.
    pub fn new(alloc: Global, room: u32) -> Result<Inherit, NoMemory>
        ensures { IfOk result (λ t. t ≡ record {
          bases = replicate room None;
          nexts = replicate room None;
          boosts = replicate room None;
        }) }
    {
        let room = room as usize;
        Ok(Inherit {
            bases: keys::no_keys(alloc, room)?,
            nexts: keys::no_tasks(alloc, room)?,
            boosts: keys::no_keys(alloc, room)?,
            keys: keys::lowest_keys(alloc, room)?,
            counts: keys::no_counts(alloc, room)?,
        })
    }

    /// Sets the base key of the task.
    ///
    /// Example: `table.base(TaskNo(1), key)` before the first call for task 1, and at each new job under EDF.
    #[inline(always)]
    pub fn base(&mut self, task: TaskNo, key: Key)
        requires { task.0 < length self.old.bases }
        ensures { self.new ≡
            record self.old { bases = slice_set self.old.bases task.0 (Some key) } }
    {
        // Most acts leave the base key as it is.
        if keys::is_known(self.bases.as_slice(), task, key) {
            return;
        }
        self.bases[task.0 as usize] = Some(key);
        keys::update_walk(
            self.bases.as_slice(),
            self.nexts.as_slice(),
            self.counts.as_slice(),
            &mut self.keys,
            Some(task),
        );
    }

    /// The task waits for the holder from now on, and for no other. No walk may come round. `base` was called for both.
    ///
    /// Example: `table.waits(TaskNo(2), TaskNo(1))` where task 2 begins to wait for what task 1 holds.
    pub fn waits(&mut self, task: TaskNo, holder: TaskNo)
        requires task { IsSome (slice_index_or self.old.bases task.0 None) }
        requires holder { IsSome (slice_index_or self.old.bases holder.0 None) }
        requires ends { NoWalkComesRound (slice_set self.old.nexts task.0 (Some holder.0)) }
        ensures { self.new ≡
            record self.old { nexts = slice_set self.old.nexts task.0 (Some holder.0) } }
    {
        self.stops(task);
        self.nexts[task.0 as usize] = Some(holder);
        self.counts[holder.0 as usize] += 1;
        let key = self.keys[task.0 as usize];
        keys::raise(self.nexts.as_slice(), &mut self.keys, Some(holder), key);
    }

    /// The task waits no longer. `base` was called for it.
    ///
    /// Example: `table.stops(TaskNo(2))` where task 2 is granted what it waited for.
    pub fn stops(&mut self, task: TaskNo)
        requires { IsSome (slice_index_or self.old.bases task.0 None) }
        ensures { self.new ≡ record self.old { nexts = slice_set self.old.nexts task.0 None } }
    {
        let Some(holder) = self.nexts[task.0 as usize] else {
            return;
        };
        self.nexts[task.0 as usize] = None;
        self.counts[holder.0 as usize] -= 1;
        keys::update_walk_left(
            self.bases.as_slice(),
            self.nexts.as_slice(),
            self.counts.as_slice(),
            &mut self.keys,
            holder,
            task,
        );
    }

    /// The task is boosted with the key. `base` was called for it.
    ///
    /// Example: `table.boost(TaskNo(1), key)` where task 1 begins to hold an MPCP semaphore.
    pub fn boost(&mut self, task: TaskNo, key: Key)
        requires { IsSome (slice_index_or self.old.bases task.0 None) }
        ensures { self.new ≡
            record self.old { boosts = slice_set self.old.boosts task.0 (Some key) } }
    {
        self.boosts[task.0 as usize] = Some(key);
    }

    /// The task is boosted no longer. `base` was called for it.
    ///
    /// Example: `table.drop_boost(TaskNo(1))` where task 1 frees it.
    pub fn drop_boost(&mut self, task: TaskNo)
        requires { IsSome (slice_index_or self.old.bases task.0 None) }
        ensures { self.new ≡ record self.old { boosts = slice_set self.old.boosts task.0 None } }
    {
        self.boosts[task.0 as usize] = None;
    }

    /// The effective key of the task: its boost where it is boosted, else the highest base key among its own and
    /// those of all tasks from which a walk from waiter to holder leads to it. `base` was called for it.
    ///
    /// Example: where task 2 waits for task 1 and has the higher base key, `table.key(TaskNo(1))` is that of task 2.
    pub fn key(&self, task: TaskNo) -> Key
        requires { IsSome (slice_index_or self.now.bases task.0 None) }
        ensures { result ≡ effective_key self.now task.0 }
    {
        match self.boosts[task.0 as usize] {
            Some(key) => key,
            None => self.keys[task.0 as usize],
        }
    }
}
