//! The requests of one group, counted entry by entry.
ghost use Rattle.std.specs.Prelude.{◌≡◌, ◌+◌, ◌<◌, ◌≤◌, [], All, IfOk};
ghost use Rattle.rt_base.specs.TaskNos.{number_of_task};
ghost use Rattle.rt_base.specs.declared.TheConstants.{MOST_STEPS};
ghost use Rattle.rt_rules.specs.Distinct.{IsDistinct};
ghost use Rattle.rt_model.specs.Blocking.{bound};
ghost use Rattle.rt_model.specs.Histories.{after};
ghost use Rattle.rt_model.specs.Reachable.{IsReachable};
ghost use Rattle.rt_model.specs.Past.{Past};
ghost use Rattle.rt_changes.specs.OpenLaws.{IsWithin};
ghost use Rattle.rt_changes.specs.Tallies.{act_by, fed, tallies, waiter_tasks};
ghost use Rattle.block_counts.specs.GroupRequests.{IsAt, IsBetween, NamesKnown, group_of};
ghost use Rattle.block_counts.specs.SeenWords.{tallies_of, waiters_of};

use crate::at_sem::{AtSem, at_sem};
use crate::bounds::{bound_of, no_user_counts};
use crate::requests::{ask, count_end, no_positions, no_requests};
use crate::seen::{Seen, Waiting};
use rt_base::{GroupNo, NoMemory, TaskNo};
use rt_rules::Entry;
use rt_task::Setup;
use std::alloc::Global;
use std::marker::Model;

/// The requests of one group of a setup, each with how many critical sections of its semaphore ended while it was open.
///
/// Contracts say what each call gives for every past of which the value keeps the counts. After `open` no call takes memory.
#[derive(Drop)]
pub struct Blocks {
    setup: Setup,
    group: GroupNo,
    seen: Vec<Seen>,
    positions: Vec<Option<u32>>,
    // At the number of a semaphore how many tasks declare it, once it was asked for.
    users: Vec<Option<u32>>,
    entries: u32,
    spare: u32,
}

impl Model for Blocks {
    ghost use Rattle.std.specs.Prelude.{vec_capacity};
    ghost use Rattle.block_counts.specs.Bounding.{AreUserCounts};
    ghost use Rattle.block_counts.specs.GroupRequests.{GroupRequests, IsFit};
    ghost use Rattle.block_counts.specs.SeenWords.{tallies_of};

    ghost Value = { GroupRequests };

    ghost view = { λ a. record {
      setup = a.setup;
      group = a.group.0;
      tallies = tallies_of a.seen.items;
      entries = a.entries;
      spare = a.spare;
    } };

    ghost invariant = { λ a.
        IsFit a.setup (tallies_of a.seen.items) a.positions.items (vec_capacity a.seen)
        a.entries a.spare
        × AreUserCounts (record { setup = a.setup; number = a.group.0 }) a.users.items };
}

impl Blocks {
    /// The counts of a group before its first entry, with room for `room` entries. All memory is taken here.
    ///
    /// Example: `Blocks::open(alloc, &setup, GroupNo(0), 1000)?`.
    pub fn open(alloc: Global, setup: &Setup, group: GroupNo, room: u32) -> Result<Blocks, NoMemory>
        requires { room ≤ MOST_STEPS }
        ensures setup { IfOk result (λ b. b.setup ≡ setup.now) }
        ensures group { IfOk result (λ b. b.group ≡ group.0) }
        ensures room { IfOk result (λ b. b.spare ≡ room) }
        ensures opened { IfOk result (λ b. IsAt b []) }
    {
        let setup = setup.share()?;
        let tasks = setup.parts().tasks.as_slice().len();
        let positions = no_positions(alloc, tasks + 1)?;
        let seen = no_requests(alloc, room as usize)?;
        let users = no_user_counts(alloc, setup.parts().sems.as_slice().len())?;
        Ok(Blocks {
            setup,
            group,
            seen,
            positions,
            users,
            entries: 0,
            spare: room,
        })
    }

    /// Takes an entry of the group, with what its processor runs and, where it frees a semaphore, which tasks wait for
    /// that; both are as they stand between the two moves of its step, so a task that the entry grants the semaphore still
    /// waits. The caller tells them: `group_core` lists them.
    ///
    /// There must be room for the entry, the running task and the semaphore of a Lock must be of the setup, and no task may
    /// stand twice in `waiting`.
    #[inline(always)]
    pub fn feed(&mut self, entry: Entry, runs: Option<TaskNo>, waiting: &[Waiting])
        requires room { 0 < self.old.spare }
        requires names { NamesKnown self.old.setup entry.step.act (number_of_task runs) }
        requires once { IsDistinct (waiter_tasks (waiters_of waiting.now)) }
        ensures fed { self.new.tallies ≡ fed (bound (group_of self.old)) self.old.entries
            (act_by entry.step.act entry.reply (number_of_task runs)) (waiters_of waiting.now)
            self.old.tallies }
        ensures at { (past : Past) → IsAt self.old past
            → IsBetween self.old past entry (number_of_task runs) (waiters_of waiting.now)
            → IsAt self.new (after (group_of self.old) entry.step past) }
        ensures setup { self.new.setup ≡ self.old.setup }
        ensures group { self.new.group ≡ self.old.group }
        ensures entries { self.new.entries ≡ self.old.entries + 1 }
        ensures room { self.new.spare + 1 ≡ self.old.spare }
    {
        let no = self.entries;
        self.entries += 1;
        self.spare -= 1;
        match at_sem(entry, runs) {
            AtSem::Asks(task, sem) => {
                let parts = self.setup.parts();
                let users = self.users.as_mut_slice();
                let bound = bound_of(users, parts, self.group, task, sem);
                let new = Seen {
                    no,
                    task,
                    sem,
                    ends: 0,
                    ends_all: 0,
                    bound,
                };
                ask(&mut self.seen, self.positions.as_mut_slice(), new);
            }
            AtSem::Frees(_, sem) => count_end(
                self.seen.as_mut_slice(),
                self.positions.as_slice(),
                sem,
                waiting,
            ),
            AtSem::Neither => {}
        }
    }

    /// The requests, in order of asking: one for each accepted Lock that was fed. Under OMLP `ends` is at most 2m - 1, m
    /// the number of processors of the task's cluster; under FMLP `ends` and `ends_all` are at most n - 1, n the number of
    /// tasks of the group that declare the semaphore.
    pub fn requests(&self) -> &[Seen]
        ensures requests { tallies_of result.now ≡ self.now.tallies }
        ensures exact { (past : Past) → IsAt self.now past
            → tallies_of result.now ≡ tallies (group_of self.now) past }
        ensures bounds { (past : Past) → IsReachable (group_of self.now) past → IsAt self.now past
            → All (IsWithin (group_of self.now)) (tallies_of result.now) }
    {
        self.seen.as_slice()
    }
}
