//! The tool `S`.
ghost use Rattle.std.specs.Prelude.{◌≡◌, ◌∷◌, []};
ghost use Rattle.trace_tools.specs.Rules.{switch_rules, new_switches};
ghost use Rattle.trace_tools.specs.Laws.{SwitchesAreCounted};

use crate::shown::Shown;
use crate::tool::TraceTool;
use rt_rules::Reply;

/// Counts the entries whose reply is Runs or Idles.
#[derive(Drop)]
pub struct Switches {
    switches: u64,
}

impl Switches {
    /// Nothing is counted yet.
    pub fn new() -> Switches
        ensures tool { ⟦<Switches as TraceTool>⟧.tool result ≡ new_switches }
        ensures counts { SwitchesAreCounted }
    {
        Switches { switches: 0 }
    }
}

impl TraceTool for Switches {
    ghost tool = { λ s. record { rules = switch_rules; state = s.switches ∷ [] } };

    fn feed(&mut self, e: &Shown) {
        if matches!(e.entry.reply, Reply::Runs(_) | Reply::Idles) {
            self.switches = self.switches.saturating_add(1);
        }
    }

    fn total(&self, i: u32) -> Option<u64> {
        if i == 0 { Some(self.switches) } else { None }
    }

    fn ended(&self) -> bool {
        false
    }

    fn name(&self) -> u8 {
        b'S'
    }
}
