//! Slots of table reservations.
ghost use Rattle.std.specs.Prelude.{◌≡◌, is_some, IfSome};
ghost use Rattle.rt_task.specs.SlotRules as rules;

use rt_base::MOST_SLOTS;
use rt_task::{ResvKind, Slot};

/// Whether a reservation of this kind may have these slots.
pub fn may_have(kind: ResvKind, slots: &[Slot]) -> bool
    ensures { result ≡ rules.may_have kind slots.now }
{
    match kind {
        ResvKind::Table => true,
        ResvKind::Polling | ResvKind::Sporadic => slots.is_empty(),
    }
}

/// The ticks of all the slots, where each follows the one before it and ends within the cycle.
fn ticks_of(cycle: u64, slots: &[Slot]) -> Option<u64>
    ensures ticks { IfSome result (λ n. n ≡ rules.slots_length slots.now) }
    ensures follow { is_some result ≡ rules.slots_follow 0 cycle slots.now }
{
    let mut start: u64 = 0;
    let mut ticks: u64 = 0;
    for slot in slots {
        if slot.from < start || slot.from >= slot.to || slot.to > cycle {
            return None;
        }
        ticks += slot.to - slot.from;
        start = slot.to;
    }
    Some(ticks)
}

fn is_table(cycle: u64, budget: u64, slots: &[Slot]) -> bool
    ensures { result ≡ rules.is_table cycle budget slots.now }
{
    if slots.is_empty() || slots.len() > MOST_SLOTS as usize {
        return false;
    }
    match ticks_of(cycle, slots) {
        Some(ticks) => budget == ticks,
        None => false,
    }
}

/// Whether the slots of a reservation are those of a table of its period and budget; other kinds have none to ask for.
pub fn slots_in_range(kind: ResvKind, cycle: u64, budget: u64, slots: &[Slot]) -> bool
    ensures { result ≡ rules.slots_in_range kind cycle budget slots.now }
{
    match kind {
        ResvKind::Table => is_table(cycle, budget, slots),
        ResvKind::Polling | ResvKind::Sporadic => true,
    }
}
