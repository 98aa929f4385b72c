//! Tables that share a cluster.
ghost use Rattle.std.specs.Prelude.{◌≡◌, not};
ghost use Rattle.std.specs.List.{list_all};
ghost use Rattle.rt_task.specs.SlotRules as rules;

use rt_task::{DraftResv, ResvKind, Slot};

fn overlap(a: Slot, b: Slot) -> bool
    ensures { result ≡ rules.overlap a b }
{
    a.from < b.to && b.from < a.to
}

fn is_apart(a: Slot, slots: &[Slot]) -> bool
    ensures { result ≡ list_all (λ b. not (rules.overlap a b)) slots.now }
{
    slots.iter().all(|b| !overlap(a, *b))
}

fn stand_apart(left: &[Slot], right: &[Slot]) -> bool
    ensures { result ≡ rules.stand_apart left.now right.now }
{
    left.iter().all(|a| is_apart(*a, right))
}

/// Whether both reservations can be in their clusters.
fn fit_together(q: &DraftResv, r: &DraftResv) -> bool
    ensures { result ≡ rules.fit_together q.now r.now }
{
    if q.cluster != r.cluster {
        return true;
    }
    match (q.kind, r.kind) {
        (ResvKind::Table, ResvKind::Table) => {
            q.period == r.period && stand_apart(q.slots.as_slice(), r.slots.as_slice())
        }
        (ResvKind::Table, _) | (_, ResvKind::Table) => false,
        _ => true,
    }
}

/// Whether the reservation fits all of these.
pub(crate) fn fits_all(earlier: &[DraftResv], r: &DraftResv) -> bool
    ensures { result ≡ list_all (λ q. rules.fit_together q r.now) earlier.now }
{
    earlier.iter().all(|q| fit_together(q, r))
}
