//! The tool `M`.
ghost use Rattle.std.specs.Prelude.{◌≡◌, ◌∷◌, []};
ghost use Rattle.trace_tools.specs.Rules.{miss_rules, new_misses};
ghost use Rattle.trace_tools.specs.Laws.{MissesAreCounted};

use crate::shown::Shown;
use crate::tool::TraceTool;

/// Counts the entries that ended a job late.
#[derive(Drop)]
pub struct Misses {
    late: u64,
}

impl Misses {
    /// Nothing is counted yet.
    pub fn new() -> Misses
        ensures tool { ⟦<Misses as TraceTool>⟧.tool result ≡ new_misses }
        ensures counts { MissesAreCounted }
    {
        Misses { late: 0 }
    }
}

impl TraceTool for Misses {
    ghost tool = { λ m. record { rules = miss_rules; state = m.late ∷ [] } };

    fn feed(&mut self, e: &Shown) {
        if e.ended.is_some() && e.late {
            self.late = self.late.saturating_add(1);
        }
    }

    fn total(&self, i: u32) -> Option<u64> {
        if i == 0 { Some(self.late) } else { None }
    }

    fn ended(&self) -> bool {
        false
    }

    fn name(&self) -> u8 {
        b'M'
    }
}
