//! One reservation as it stands.
ghost use Rattle.std.specs.Prelude.{◌≡◌, ◌≤◌, ◌<◌, IfNone, IfOk, IfSome, false, length, map, option_map};
ghost use Rattle.resv_core.specs.Known.{in_slot_for, in_slot_in, served_of, AreKnown, IsLookup};
ghost use Rattle.rt_base.specs.declared.Tick.{Tick};
ghost use Rattle.resv_core.specs.Releases.{key_of_release};
ghost use Rattle.resv_core.specs.Served.{charged, first_refill, fresh, gone, has_ready, is_over, last_of, left_of, in_slot_at, in_slot_by};
ghost use Rattle.resv_core.specs.Served.{readied, refilled_at, settled, ticked, ticked_to, unspent, IsFront};

use crate::ResvState;
use ready_heap::{ReadyHeap, uncounted};
use resv_table::{Served, Table};
use rt_base::{ClusterNo, NoMemory, ResvNo, TaskNo, Tick};
use rt_rules::{ByKey, Key};
use rt_task::{Resv, ResvKind, Slot, Slots};
use std::alloc::Global;
use std::marker::Model;

/// Where a clock stands in a slot of a table.
#[derive(Clone, Copy, PartialEq, Eq)]
pub(crate) struct InSlot {
    /// The clock at which the slot began.
    pub(crate) began: u64,
    /// The ticks up to its end.
    pub(crate) left: u64,
}

/// A reservation, with its ready clients in a heap by release.
#[derive(Drop)]
pub(crate) struct Server {
    kind: ResvKind,
    budget: u64,
    period: u64,
    slots: Slots,
    clients: ReadyHeap<ByKey>,
    // The clock of the last replenishment.
    refilled: Option<u64>,
    // The units that were worked since.
    spent: u64,
    // Whether what was left was lost since.
    lost: bool,
    // Of a table reservation, where the clock stands in its slots.
    in_slot: Option<InSlot>,
}

impl Model for Server {
    ghost use Rattle.std.specs.Prelude.{◌≤◌};
    ghost use Rattle.resv_core.specs.Served.{ServerState};
    ghost use Rattle.resv_core.specs.Releases.{releases_in, AreReleases};

    ghost Value = { ServerState };

    ghost view = { λ s. record {
      kind = s.kind;
      budget = s.budget;
      period = s.period;
      slots = s.slots;
      releases = releases_in s.clients.keys;
      refilled = s.refilled;
      spent = s.spent;
      lost = s.lost;
      in_slot = s.in_slot;
    } };

    ghost invariant = { λ s. (1 ≤ s.period) × AreReleases s.clients.keys };
}

// A release as a key: the earlier is the higher.
fn key_of(release: u64) -> Key
    ensures { result ≡ key_of_release release }
{
    Key {
        band: 0,
        major: release,
        minor: 0,
    }
}

fn copied(alloc: Global, slots: &[Slot]) -> Result<Slots, NoMemory>
    ensures { IfOk result (λ copy. copy ≡ slots.now) }
{
    let copy = Vec::from_slice(alloc, slots)?;
    Ok(Slots::from_vec(copy))
}

/// Where the clock stands in the slots of a cycle.
fn in_slot_at(cycle: u64, slots: &[Slot], clock: u64) -> Option<InSlot>
    requires { 1 ≤ cycle }
    ensures { result ≡ in_slot_at cycle slots.now clock }
{
    let t = clock % cycle;
    for slot in slots {
        if slot.from <= t && t < slot.to {
            return Some(InSlot {
                began: clock - (t - slot.from),
                left: slot.to - t,
            });
        }
    }
    None
}

/// The last replenishment at the opening, before it is settled.
fn first_refill(kind: ResvKind) -> Option<u64>
    ensures { result ≡ first_refill kind }
{
    match kind {
        ResvKind::Polling => Some(0),
        ResvKind::Sporadic | ResvKind::Table => None,
    }
}

/// Where clock 0 stands in the slots of a table.
fn first_slot(kind: ResvKind, period: u64, slots: &[Slot]) -> Option<InSlot>
    requires { 1 ≤ period }
    ensures { result ≡ in_slot_by kind period slots.now 0 }
{
    match kind {
        ResvKind::Polling | ResvKind::Sporadic => None,
        ResvKind::Table => in_slot_at(period, slots, 0),
    }
}

impl Server {
    /// A reservation at the opening, for clients whose numbers are below the room, none of them ready.
    pub(crate) fn new(alloc: Global, resv: &Resv, room: u32) -> Result<Server, NoMemory>
        requires { 1 ≤ resv.now.period }
        ensures { IfOk result (λ s. s ≡
            fresh resv.now.kind resv.now.budget resv.now.period resv.now.slots room) }
    {
        let clients = ReadyHeap::new(alloc, ByKey, room)?;
        let slots = copied(alloc, resv.slots.as_slice())?;
        let in_slot = first_slot(resv.kind, resv.period, slots.as_slice());
        Ok(Server {
            kind: resv.kind,
            budget: resv.budget,
            period: resv.period,
            slots,
            clients,
            refilled: first_refill(resv.kind),
            spent: 0,
            lost: false,
            in_slot,
        })
    }

    /// The client is ready, with a job of this release.
    pub(crate) fn client_ready(&mut self, task: TaskNo, release: Tick)
        requires { task.0 < length self.old.releases }
        ensures { self.new ≡ readied task.0 release.0 self.old }
    {
        uncounted::take_out(&mut self.clients, task);
        uncounted::put_in(&mut self.clients, task, key_of(release.0));
    }

    /// The client is not ready.
    pub(crate) fn client_gone(&mut self, task: TaskNo)
        requires { task.0 < length self.old.releases }
        ensures { self.new ≡ gone task.0 self.old }
    {
        uncounted::take_out(&mut self.clients, task);
    }

    /// Moves the clock from `old` to `new`. Where the reservation is a table, `slot` is the slot that holds `new`.
    pub(crate) fn tick(&mut self, old: u64, new: u64, slot: Option<InSlot>)
        ensures { self.new ≡ ticked_to slot old new self.old }
    {
        match self.kind {
            ResvKind::Polling => {
                if old / self.period < new / self.period {
                    self.refill(new);
                }
            }
            ResvKind::Sporadic => {}
            ResvKind::Table => {
                if old < new {
                    self.in_slot = slot;
                }
            }
        }
    }

    /// A client worked one unit.
    pub(crate) fn charge(&mut self)
        requires { 1 ≤ left_of self.old }
        ensures { self.new ≡ charged self.old }
    {
        match self.kind {
            ResvKind::Polling | ResvKind::Sporadic => self.spent += 1,
            ResvKind::Table => {}
        }
    }

    /// Ends a move at this clock.
    pub(crate) fn settle(&mut self, clock: u64)
        ensures { self.new ≡ settled clock self.old }
    {
        match self.kind {
            ResvKind::Polling => {
                if !self.has_ready() {
                    self.lost = true;
                }
            }
            ResvKind::Sporadic => {
                if self.has_ready() && self.is_over(clock) {
                    self.refill(clock);
                }
            }
            ResvKind::Table => {}
        }
    }

    /// What is left of the budget, or of the slot.
    pub(crate) fn left(&self) -> u64
        ensures { result ≡ left_of self.now }
    {
        match self.kind {
            ResvKind::Polling | ResvKind::Sporadic => self.unspent(),
            ResvKind::Table => match self.in_slot {
                Some(slot) => slot.left,
                None => 0,
            },
        }
    }

    fn unspent(&self) -> u64
        ensures { result ≡ unspent self.now }
    {
        if self.refilled.is_some() && !self.lost {
            self.budget.saturating_sub(self.spent)
        } else {
            0
        }
    }

    /// The last replenishment, and what is left.
    pub(crate) fn state(&self) -> ResvState
        ensures last { option_map (λ (t : Tick). t.0) result.last ≡ last_of self.now }
        ensures left { result.left ≡ left_of self.now }
    {
        ResvState {
            last: self.last(),
            left: self.left(),
        }
    }

    /// The ready client of the earliest release, and of several that of the lowest number.
    pub(crate) fn front(&self) -> Option<TaskNo>
        ensures front { IfSome result (λ task. IsFront self.now.releases task.0) }
        ensures none { IfNone result (has_ready self.now.releases ≡ false) }
    {
        self.clients.first()
    }

    fn last(&self) -> Option<Tick>
        ensures { option_map (λ (t : Tick). t.0) result ≡ last_of self.now }
    {
        match (self.kind, self.refilled) {
            (ResvKind::Table, _) => self.in_slot.map(|slot| Tick(slot.began)),
            (ResvKind::Polling, Some(clock)) => Some(Tick(clock / self.period * self.period)),
            (ResvKind::Sporadic, Some(clock)) => Some(Tick(clock)),
            (_, None) => None,
        }
    }

    fn has_ready(&self) -> bool
        ensures { result ≡ has_ready self.now.releases }
    {
        self.clients.first().is_some()
    }

    // Whether there was no replenishment, or a period is over since the last.
    fn is_over(&self, clock: u64) -> bool
        ensures { result ≡ is_over clock self.now.period self.now.refilled }
    {
        match self.refilled {
            None => true,
            Some(last) => last <= clock && clock - last >= self.period,
        }
    }

    fn refill(&mut self, clock: u64)
        ensures { self.new ≡ refilled_at clock self.old }
    {
        self.refilled = Some(clock);
        self.spent = 0;
        self.lost = false;
    }
}

// What the table of a cluster serves at a clock, if there is one.
fn served_in(tables: &[Option<Table>], home: ClusterNo, clock: u64) -> Option<Served>
    ensures { result ≡ served_of tables.now home clock }
{
    match tables.get(home.0 as usize) {
        Some(Some(table)) => table.served(Tick(clock)),
        _ => None,
    }
}

fn in_slot_for(served: Option<Served>, resv: ResvNo) -> Option<InSlot>
    ensures { result ≡ in_slot_for resv.0 served }
{
    let served = served?;
    if served.resv != resv {
        return None;
    }
    Some(InSlot {
        began: served.from.0,
        left: served.left,
    })
}

// What was looked up last, so that the reservations of a cluster are told by one search of its table.
#[derive(Clone, Copy)]
struct Lookup {
    home: ClusterNo,
    served: Option<Served>,
}

// Where the table of the cluster has the clock in the slots of the reservation.
fn in_slot_in(
    last: &mut Lookup,
    tables: &[Option<Table>],
    home: ClusterNo,
    resv: ResvNo,
    clock: u64,
) -> Option<InSlot>
    requires { IsLookup tables.now clock last.old }
    ensures slot { result ≡ in_slot_in tables.now home resv.0 clock }
    ensures last { IsLookup tables.now clock last.new }
{
    if last.home != home {
        *last = Lookup {
            home,
            served: served_in(tables, home, clock),
        };
    }
    in_slot_for(last.served, resv)
}

/// Moves the clock of each reservation from `old` to `new`.
pub(crate) fn tick_each(
    servers: &mut [Server],
    homes: &[ClusterNo],
    tables: &[Option<Table>],
    old: u64,
    new: u64,
)
    requires { AreKnown tables.now homes.now servers.old }
    ensures { servers.new ≡ map (ticked old new) servers.old }
{
    let home = ClusterNo(0);
    let mut last = Lookup {
        home,
        served: served_in(tables, home, new),
    };
    for (i, home) in homes.iter().enumerate() {
        let slot = in_slot_in(&mut last, tables, *home, ResvNo(i as u32 + 1), new);
        servers[i].tick(old, new, slot);
    }
}

/// Ends a move for each reservation, at this clock.
pub(crate) fn settle_each(servers: &mut [Server], clock: u64)
    ensures { servers.new ≡ map (settled clock) servers.old }
{
    for server in servers.iter_mut() {
        server.settle(clock);
    }
}
