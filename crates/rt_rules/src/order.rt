//! Orders of keys whose comparisons are counted.
ghost use Rattle.std.specs.Prelude.{◌≡◌, ◌+◌};

use crate::{Key, Steps};
use std::sync::ledger::Ledger;

/// A strict order of keys that is total on different keys: which of two keys is the higher.
pub trait Ordered: Drop {
    ghost use Rattle.std.specs.Prelude.{Bool, true, false};
    ghost use Rattle.rt_rules.specs.declared.Key.{Key};

    /// Whether the first key is higher than the second.
    ghost is_higher: { Self → Key → Key → Bool };

    ghost irreflexive: { (o : Self) (a : Key) → is_higher o a a ≡ false };

    ghost transitive: { (o : Self) (a b c : Key) → is_higher o a b ≡ true → is_higher o b c ≡ true →
        is_higher o a c ≡ true };

    ghost total: { (o : Self) (a b : Key) → is_higher o a b ≡ false → is_higher o b a ≡ false →
        a ≡ b };
}

/// An order whose comparisons are counted in one ledger.
///
/// Code that is given an order of some ledger compares through that ledger alone, so that each comparison counts there.
pub trait Order<L: Ledger>: Ordered {
    /// Whether `a` is higher than `b`. Each call is one step.
    fn higher(&self, a: &Key, b: &Key, steps: &mut Steps<L>) -> bool
        ensures higher { result ≡ Self.is_higher self.now a.now b.now }
        ensures steps { steps.new ≡ steps.old + 1 };
}

/// The order of the keys themselves: band, then major, then minor, the smaller being the higher.
#[derive(Clone, Copy)]
pub struct ByKey;

impl Ordered for ByKey {
    ghost use Rattle.rt_rules.specs.KeyOrder.{higher};
    ghost use Rattle.rt_rules.specs.OrderLaws.{higher-irreflexive, higher-transitive, higher-total};

    ghost is_higher = { λ _. higher };

    ghost irreflexive = { λ _. higher-irreflexive };

    ghost transitive = { λ _. higher-transitive };

    ghost total = { λ _. higher-total };
}

impl<L: Ledger> Order<L> for ByKey {
    fn higher(&self, a: &Key, b: &Key, steps: &mut Steps<L>) -> bool {
        steps.tick();
        a.is_higher(*b)
    }
}
