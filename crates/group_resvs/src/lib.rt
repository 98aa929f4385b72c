//! The reservations of a group, polling or sporadic as in LITMUS-RT's P-RES, with the client that each of them serves.
#![tactic(auto)]

ghost use Rattle.std.specs.Prelude.{◌≡◌, ◌≤◌, [], IfOk, IsSome, None, is_some, length, replicate, vec_capacity, vec_len};
ghost use Rattle.rt_base.specs.TaskNos.{numbers};
ghost use Rattle.resv_core.specs.Served.{charged, opened, server_of};
ghost use Rattle.resv_core.specs.Kept.{told_now};
ghost use Rattle.resv_core.specs.Serving.{all_settled, clock_to, for_task};
ghost use Rattle.group_resvs.specs.GroupResvs.{IsSettled, HasUnit, is_served, lacks_budget, tick_of};

mod changes;
mod laws;
mod serving;
mod settling;
mod shown;
mod touched;

use changes::list_changed;
pub use laws::{move_is_kept, opening_is_kept, resvs_are_read, work_has_unit};
use resv_core::Resvs;
use rt_base::{GroupNo, NoMemory, ResvNo, TaskNo, Tick};
use rt_task::Setup;
use serving::list_served;
use settling::settle_one;
use std::alloc::Global;
use std::marker::Model;
use std::mem;
use touched::Touched;

/// The reservations of one group, the client that each of them serves since the last move ended, and the tasks that the end
/// of that move made or unmade such clients. A reservation serves its front client as long as it has budget.
///
/// A move of the group is told by `move_clock` where it moves the clock, `charge` where a client worked, `tell` for the
/// clients that it made ready or not, and `settle` at its end; the opening by `tell` and `settle`. After `open` no call
/// takes memory.
#[derive(Drop)]
pub struct GroupResvs {
    resvs: Resvs,
    // Which of them may have changed since the last move ended.
    touched: Touched,
    // By the numbers of the reservations, less 1: as the last move ended, and as the one before it ended.
    serves: Vec<Option<TaskNo>>,
    before: Vec<Option<TaskNo>>,
    changed: Vec<TaskNo>,
}

impl Model for GroupResvs {
    ghost use Rattle.std.specs.Prelude.{◌≡◌, ◌+◌, ◌≤◌, length, vec_capacity, vec_len};
    ghost use Rattle.rt_base.specs.declared.TheConstants.{MOST_RESVS};
    ghost use Rattle.rt_base.specs.TaskNos.{numbers, numbers_of_tasks};
    ghost use Rattle.group_resvs.specs.GroupResvs as seen;
    ghost use Rattle.group_resvs.specs.Touched.{IsSettledBut};

    ghost Value = { seen.GroupResvs };

    ghost view = { λ a. record {
      resvs = a.resvs;
      serves = numbers_of_tasks a.serves.items;
      changed = numbers a.changed.items;
    } };

    ghost invariant = { λ a. (length a.resvs.servers ≤ MOST_RESVS)
        × (vec_len a.serves ≡ length a.resvs.servers)
        × (length a.resvs.servers ≤ vec_capacity a.serves)
        × (length a.resvs.servers ≤ vec_capacity a.before)
        × (length a.resvs.servers + length a.resvs.servers ≤ vec_capacity a.changed)
        × IsSettledBut a.touched a.resvs (numbers_of_tasks a.serves.items) };
}

impl GroupResvs {
    /// The reservations of a group at tick 0, not yet settled, with no client ready and none that is served.
    pub fn open(alloc: Global, setup: &Setup, group: GroupNo) -> Result<GroupResvs, NoMemory>
        ensures { IfOk result (λ v. v ≡ record {
          resvs = opened setup.now group.0;
          serves = replicate (length setup.now.resvs) None;
          changed = [];
        }) }
    {
        let count = setup.parts().resvs.as_slice().len();
        let resvs = Resvs::new(alloc, setup, group)?;
        let serves = nobody(alloc, count)?;
        let before = nobody(alloc, count)?;
        let changed = Vec::with_capacity(alloc, count + count)?;
        Ok(GroupResvs {
            resvs,
            touched: Touched::Many,
            serves,
            before,
            changed,
        })
    }

    /// Whether the task is a client of a reservation.
    pub fn is_client(&self, task: TaskNo) -> bool
        ensures { result ≡ is_some (server_of self.now.resvs task.0) }
    {
        self.resvs.server_of(task).is_some()
    }

    /// Whether no reservation stands in the way of the task: it is a client of none, or its reservation serves it.
    pub fn is_served(&self, task: TaskNo) -> bool
        ensures { result ≡ is_served self.now task.0 }
    {
        match self.resvs.server_of(task) {
            None => true,
            Some(resv) => self.serves[resv.0 as usize - 1] == Some(task),
        }
    }

    /// Whether the task is a client of a reservation that has no budget left.
    pub fn lacks_budget(&self, task: TaskNo) -> bool
        ensures { result ≡ lacks_budget self.now.resvs task.0 }
    {
        match self.resvs.server_of(task) {
            None => false,
            Some(resv) => self.resvs.budget(resv) == 0,
        }
    }

    /// The tasks that the end of the last move made or unmade served clients.
    pub fn changed(&self) -> &[TaskNo]
        ensures { numbers result.now ≡ self.now.changed }
    {
        self.changed.as_slice()
    }

    /// Moves the clock, which never falls.
    #[inline(always)]
    pub fn move_clock(&mut self, tick: Tick)
        requires { self.old.resvs.clock ≤ tick.0 }
        ensures { self.new ≡ record self.old { resvs = clock_to tick.0 self.old.resvs } }
    {
        if self.resvs.clock() < tick.0 {
            self.touched = Touched::Many;
            self.resvs.tick(tick);
        }
    }

    /// The client has a ready job of this release, or none.
    pub fn tell(&mut self, task: TaskNo, release: Option<Tick>)
        requires { IsSome (server_of self.old.resvs task.0) }
        ensures { let told = told_now (tick_of release) task.0 in
            self.new ≡ record self.old { resvs = for_task task.0 told self.old.resvs } }
    {
        if let Some(resv) = self.resvs.server_of(task) {
            self.touched = self.touched.also(resv);
            match release {
                None => self.resvs.client_gone(task),
                Some(release) => self.resvs.client_ready(task, release),
            }
        }
    }

    /// The task did a unit of work. Where it is a client, its reservation has a unit left.
    pub fn charge(&mut self, task: TaskNo)
        requires { HasUnit self.old.resvs task.0 }
        ensures { self.new ≡ record self.old { resvs = for_task task.0 charged self.old.resvs } }
    {
        if let Some(resv) = self.resvs.server_of(task) {
            self.touched = self.touched.also(resv);
            self.resvs.charge(resv);
        }
    }

    /// Ends a move, or the opening, once it knows the clients that the move made ready or not.
    #[inline(always)]
    pub fn settle(&mut self)
        ensures { IsSettled self.old self.new }
    {
        let touched = self.touched;
        self.touched = Touched::Nothing;
        match touched {
            Touched::Nothing => self.changed.clear(),
            Touched::One(resv) => {
                settle_one(&mut self.resvs, &mut self.serves, &mut self.changed, resv);
            }
            Touched::Many => {
                self.resvs.settle();
                mem::swap(&mut self.serves, &mut self.before);
                list_served(&self.resvs, &mut self.serves);
                list_changed(
                    self.before.as_slice(),
                    self.serves.as_slice(),
                    &mut self.changed,
                );
            }
        }
    }
}

/// A list of `count` reservations, none of which serves a client.
fn nobody(alloc: Global, count: usize) -> Result<Vec<Option<TaskNo>>, NoMemory>
    ensures items { IfOk result (λ v. v.items ≡ replicate count None) }
    ensures len { IfOk result (λ v. vec_len v ≡ count) }
    ensures capacity { IfOk result (λ v. count ≤ vec_capacity v) }
{
    Ok(vec![in alloc; None; count]?)
}
