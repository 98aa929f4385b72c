//! Reservations of a group, polling, sporadic or table-driven as in LITMUS-RT's P-RES: the ready clients and the budget of
//! each.
#![tactic(auto)]

ghost use Rattle.std.specs.Prelude.{◌≡◌, ◌≤◌, IfNone, IfOk, IfSome, IsSome, None, false, length, option_map, slice_index_or};
ghost use Rattle.rt_base.specs.declared.Tick.{Tick};
ghost use Rattle.resv_core.specs.Served.{charged, gone, has_ready, last_of, left_of, opened, readied, settled, ticked};
ghost use Rattle.resv_core.specs.Served.{server, server_of, with_each, with_server, IsFront, IsResv};

pub mod laws;
mod opening;
mod server;

use resv_table::Table;
use rt_base::{ClusterNo, GroupNo, NoMemory, ResvNo, TaskNo, Tick};
use rt_task::Setup;
use server::Server;
use std::alloc::Global;
use std::marker::Model;

/// What is shown of a reservation between two moves.
#[derive(Clone, Copy, Debug, PartialEq, Eq)]
pub struct ResvState {
    /// The tick of the last replenishment; of a polling reservation, the tick at which the period of that one began; of a
    /// table reservation, the tick at which the slot that holds the clock began.
    pub last: Option<Tick>,
    /// The units of work that are left of the budget; of a table reservation, the ticks that are left of the slot.
    pub left: u64,
}

/// The reservations of one group, polling, sporadic or table-driven as in LITMUS-RT's P-RES, with their ready clients and
/// budgets.
///
/// A move of the group is told by `tick` where it moves the clock, `charge` where a client worked, `client_ready` and
/// `client_gone` for the clients that it made so, and `settle` at its end. So is the opening, with no `tick`. Each
/// reservation that a call names is of the group, and each task a client of one.
#[derive(Drop)]
pub struct Resvs {
    clock: u64,
    // By their numbers in the set, less 1. Those of other groups have no room for a client.
    servers: Vec<Server>,
    // By the number of the task.
    served_by: Vec<Option<ResvNo>>,
    // By the numbers of the reservations, less 1.
    homes: Vec<ClusterNo>,
    // By the numbers of the clusters; of each that has table reservations.
    tables: Vec<Option<Table>>,
}

impl Model for Resvs {
    ghost use Rattle.resv_core.specs.Served.{Served, IsPlaced};
    ghost use Rattle.resv_core.specs.Known.{AreKnown};

    ghost Value = { Served };

    ghost view = { λ a. record {
      clock = a.clock;
      servers = a.servers.items;
      served_by = a.served_by.items;
    } };

    ghost invariant = { λ a. IsPlaced a.servers.items a.served_by.items
        × AreKnown a.tables.items a.homes.items a.servers.items };
}

impl Resvs {
    /// The reservations of a group at tick 0, not yet settled, with no client ready. No later call takes memory.
    ///
    /// Example: `Resvs::new(alloc, &setup, GroupNo(0))`, then `client_ready` for each ready client, then `settle`.
    pub fn new(alloc: Global, setup: &Setup, group: GroupNo) -> Result<Resvs, NoMemory>
        ensures { IfOk result (λ resvs. resvs ≡ opened setup.now group.0) }
    {
        let parts = setup.parts();
        let servers = opening::servers(alloc, parts, group)?;
        let served_by = opening::served_by(alloc, parts, group)?;
        let homes = opening::homes(alloc, parts)?;
        let tables = opening::tables(alloc, setup)?;
        Ok(Resvs {
            clock: 0,
            servers,
            served_by,
            homes,
            tables,
        })
    }

    /// The clock of the last move.
    ///
    /// Example: `resvs.clock()` is 0 until `tick` moves it.
    pub fn clock(&self) -> u64
        ensures { result ≡ self.now.clock }
    {
        self.clock
    }

    /// How many reservations the set has.
    ///
    /// Example: `resvs.count()` is 0 under a plugin without reservations.
    pub fn count(&self) -> usize
        ensures { result ≡ length self.now.servers }
    {
        self.servers.len()
    }

    /// The reservation of the group that serves the task; none where it is a client of none.
    ///
    /// Example: `resvs.server_of(TaskNo(2))` is the reservation that task 2 names in the set.
    pub fn server_of(&self, task: TaskNo) -> Option<ResvNo>
        ensures server { result ≡ server_of self.now task.0 }
        ensures resv { IfSome result (λ r. IsResv self.now r.0) }
    {
        resv_at(self.served_by.as_slice(), task)
    }

    /// The client is ready, with a job of this release. It may have been ready with another.
    ///
    /// Example: `resvs.client_ready(TaskNo(2), Tick(5))` where task 2 begins the job of release 5.
    pub fn client_ready(&mut self, task: TaskNo, release: Tick)
        requires { IsSome (server_of self.old task.0) }
        ensures { IfSome (server_of self.old task.0) (λ r. self.new ≡
            with_server self.old r.0 (readied task.0 release.0 (server self.old r.0))) }
    {
        if let Some(r) = self.served_by[task.0 as usize] {
            self.servers[r.0 as usize - 1].client_ready(task, release);
        }
    }

    /// The client is not ready: its job has ended, or sleeps.
    ///
    /// Example: `resvs.client_gone(TaskNo(2))` where task 2 has no further job yet.
    pub fn client_gone(&mut self, task: TaskNo)
        requires { IsSome (server_of self.old task.0) }
        ensures { IfSome (server_of self.old task.0) (λ r. self.new ≡
            with_server self.old r.0 (gone task.0 (server self.old r.0))) }
    {
        if let Some(r) = self.served_by[task.0 as usize] {
            self.servers[r.0 as usize - 1].client_gone(task);
        }
    }

    /// Moves the clock, which never falls. Several periods that begin in one move are one replenishment of a polling
    /// reservation. A table reservation has what is left of its slot that holds the clock, and else nothing.
    ///
    /// Example: `resvs.tick(Tick(25))` from tick 0 replenishes a polling reservation of period 10 once.
    pub fn tick(&mut self, now: Tick)
        requires { self.old.clock ≤ now.0 }
        ensures { self.new ≡
            record (with_each (ticked self.old.clock now.0) self.old) { clock = now.0 } }
    {
        if self.clock < now.0 {
            let homes = self.homes.as_slice();
            let tables = self.tables.as_slice();
            server::tick_each(&mut self.servers, homes, tables, self.clock, now.0);
            self.clock = now.0;
        }
    }

    /// A client of the reservation worked one unit. It counts before what its move replenishes or loses. A table reservation
    /// stays as it is.
    ///
    /// Example: `resvs.charge(r)` where a client's work was accepted, which needs a budget of at least 1.
    pub fn charge(&mut self, r: ResvNo)
        requires resv { IsResv self.old r.0 }
        requires left { 1 ≤ left_of (server self.old r.0) }
        ensures { self.new ≡ with_server self.old r.0 (charged (server self.old r.0)) }
    {
        self.servers[r.0 as usize - 1].charge();
    }

    /// Ends a move, or the opening, once it knows the clients that the move made ready or not. A polling reservation with no ready client loses what
    /// is left; a sporadic one with a ready client is replenished where it never was or its period is over.
    ///
    /// Example: `resvs.settle()` after `tick`, `charge` and the clients of the same move.
    pub fn settle(&mut self)
        ensures { self.new ≡ with_each (settled self.old.clock) self.old }
    {
        server::settle_each(&mut self.servers, self.clock);
    }

    /// Ends a move for one reservation alone, as `settle` does for all.
    ///
    /// Example: `resvs.settle_one(r)` where `r` alone changed since the last `settle`.
    pub fn settle_one(&mut self, r: ResvNo)
        requires { IsResv self.old r.0 }
        ensures { self.new ≡
            with_server self.old r.0 (settled self.old.clock (server self.old r.0)) }
    {
        self.servers[r.0 as usize - 1].settle(self.clock);
    }

    /// The units of work that are left of the reservation's budget.
    ///
    /// Example: `resvs.budget(r)` is 0 where a polling reservation had no ready client at the opening.
    pub fn budget(&self, r: ResvNo) -> u64
        requires { IsResv self.now r.0 }
        ensures { result ≡ left_of (server self.now r.0) }
    {
        self.servers[r.0 as usize - 1].left()
    }

    /// The last replenishment, and what is left.
    ///
    /// Example: `resvs.state(r).last` is `None` for a sporadic reservation with no ready client so far.
    pub fn state(&self, r: ResvNo) -> ResvState
        requires { IsResv self.now r.0 }
        ensures last { option_map (λ (t : Tick). t.0) result.last ≡ last_of (server self.now r.0) }
        ensures left { result.left ≡ left_of (server self.now r.0) }
    {
        self.servers[r.0 as usize - 1].state()
    }

    /// The front client: the ready client of the earliest release, and of several that of the lowest number.
    ///
    /// Example: `resvs.front(r)` is `None` where no client is ready.
    pub fn front(&self, r: ResvNo) -> Option<TaskNo>
        requires { IsResv self.now r.0 }
        ensures front { IfSome result (λ task. IsFront (server self.now r.0).releases task.0) }
        ensures none { IfNone result (has_ready (server self.now r.0).releases ≡ false) }
    {
        self.servers[r.0 as usize - 1].front()
    }
}

/// The reservation at the task's number.
fn resv_at(served_by: &[Option<ResvNo>], task: TaskNo) -> Option<ResvNo>
    ensures { result ≡ slice_index_or served_by.now task.0 None }
{
    served_by.get(task.0 as usize).copied().flatten()
}
