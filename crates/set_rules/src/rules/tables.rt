//! What is known of the reservations before one: the cycle of each cluster, and the slots that are taken.
ghost use Rattle.std.specs.Prelude.{◌≡◌, ◌&&◌, ◌++◌, nat_eq, List, [], ◌∷◌, OnOk, IsTrue};
ghost use Rattle.std.specs.List.{list_all};
ghost use Rattle.rt_task.specs.declared.draft.DraftResv.{DraftResv};
ghost use Rattle.rt_task.specs.SlotRules.{fit_together};
ghost use Rattle.std.specs.HashMap as hash;
ghost use Rattle.set_rules.specs.inside.Tables as words;

use rt_task::{DraftResv, ResvKind, Slot};
use std::alloc::{AllocError, Global};
use std::collections::{BTreeMap, HashMap};
use std::ops::Bound;

/// Of each cluster the cycle of its tables, or `None` where it has others; and on one line of all clusters' ticks
/// where each slot ends and begins.
#[derive(Drop)]
pub(super) struct Tables {
    cycles: HashMap<u64, Option<u64>>,
    taken: BTreeMap<u128, u128>,
}

fn cycle_of(r: &DraftResv) -> Option<u64>
    ensures { result ≡ words.cycle_of r.now.kind r.now.period }
{
    match r.kind {
        ResvKind::Table => Some(r.period),
        ResvKind::Polling | ResvKind::Sporadic => None,
    }
}

fn slots_of(r: &DraftResv) -> &[Slot]
    ensures { result.now ≡ words.slots_of r.now.kind r.now.slots }
{
    match r.kind {
        ResvKind::Table => r.slots.as_slice(),
        ResvKind::Polling | ResvKind::Sporadic => &[],
    }
}

fn same_cycle(a: Option<u64>, b: Option<u64>) -> bool
    ensures { result ≡ words.same_cycle a b }
{
    match (a, b) {
        (None, None) => true,
        (Some(a), Some(b)) => a == b,
        _ => false,
    }
}

/// A tick of a cluster on the line.
fn on_line(cluster: u64, tick: u64) -> u128
    ensures { result ≡ words.on_line cluster tick }
{
    u128::from(cluster) * 18_446_744_073_709_551_616 + u128::from(tick)
}

fn is_free(taken: &BTreeMap<u128, u128>, from: u128, to: u128) -> bool
    ensures { result ≡ words.is_free taken.now.entries (to, from) }
{
    match taken
        .range((Bound::Excluded(from), Bound::Unbounded))
        .next()
    {
        None => true,
        Some((_, begin)) => to <= *begin,
    }
}

fn is_slot_free(taken: &BTreeMap<u128, u128>, cluster: u64, slot: Slot) -> bool
    ensures { result ≡ words.is_free taken.now.entries (words.placed cluster slot) }
{
    is_free(
        taken,
        on_line(cluster, slot.from),
        on_line(cluster, slot.to),
    )
}

fn has_room(taken: &BTreeMap<u128, u128>, cluster: u64, slots: &[Slot]) -> bool
    ensures { result ≡ words.has_room taken.now.entries cluster slots.now }
{
    slots.iter().all(|s| is_slot_free(taken, cluster, *s))
}

fn take_slot(taken: &mut BTreeMap<u128, u128>, cluster: u64, slot: Slot) -> Result<(), AllocError>
    ensures { OnOk result (taken.new.entries
        ≡ words.with_entry taken.old.entries (words.placed cluster slot)) }
{
    taken.insert(on_line(cluster, slot.to), on_line(cluster, slot.from))?;
    Ok(())
}

fn take_slots(
    taken: &mut BTreeMap<u128, u128>,
    cluster: u64,
    slots: &[Slot],
) -> Result<(), AllocError>
    ensures { OnOk result (taken.new.entries ≡ words.with_slots taken.old.entries cluster slots.now) }
{
    for s in slots {
        take_slot(taken, cluster, *s)?;
    }
    Ok(())
}

impl Tables {
    /// Before the first reservation.
    pub(super) fn new(alloc: Global) -> Tables
        ensures { words.Knows result [] }
    {
        Tables {
            cycles: HashMap::new(alloc),
            taken: BTreeMap::new(alloc),
        }
    }

    fn has_cycle(&self, cluster: u64, cycle: Option<u64>) -> bool
        ensures { result ≡ words.allows (hash.get nat_eq self.now.cycles cluster) cycle }
    {
        match self.cycles.get(&cluster) {
            None => true,
            Some(c) => same_cycle(*c, cycle),
        }
    }

    fn has_room_for(&self, r: &DraftResv) -> bool
        ensures { result ≡ (words.allows (hash.get nat_eq self.now.cycles r.now.cluster)
            (words.cycle_of r.now.kind r.now.period)
            && words.has_room self.now.taken.entries r.now.cluster
            (words.slots_of r.now.kind r.now.slots)) }
    {
        self.has_cycle(r.cluster, cycle_of(r)) && has_room(&self.taken, r.cluster, slots_of(r))
    }

    /// Whether a reservation fits all those that were added.
    pub(super) fn fits(&self, r: &DraftResv) -> bool
        requires { IsTrue (words.is_in_range r.now) }
        ensures { (earlier : List DraftResv) → words.Knows self.now earlier
            → result ≡ list_all (λ (q : DraftResv). fit_together q r.now) earlier }
    {
        self.has_room_for(r)
    }

    /// Adds a reservation that fits.
    pub(super) fn add(&mut self, r: &DraftResv) -> Result<(), AllocError>
        requires { IsTrue (words.is_in_range r.now) }
        ensures { OnOk result ((earlier : List DraftResv) → words.Knows self.old earlier
            → IsTrue (list_all (λ (q : DraftResv). fit_together q r.now) earlier)
            → words.Knows self.new (earlier ++ r.now ∷ [])) }
    {
        self.cycles.insert(r.cluster, cycle_of(r))?;
        take_slots(&mut self.taken, r.cluster, slots_of(r))?;
        Ok(())
    }
}
