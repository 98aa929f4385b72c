//! A tool of one's own: it counts the acts that were refused.
ghost use Rattle.std.specs.Prelude.{◌≡◌, ◌∷◌, []};
ghost use Rattle.rt_model.specs.Past.{accepted};
ghost use Rattle.library_tour.specs.RefusedActs.{refused_rules};

use rt_rules::Reply;
use trace_tools::{Shown, TraceTool};

/// Counts the entries whose reply is a refusal.
#[derive(Drop)]
pub(crate) struct RefusedActs {
    count: u64,
}

fn is_accepted(reply: Reply) -> bool
    ensures { result ≡ accepted reply }
{
    matches!(
        reply,
        Reply::Done | Reply::Runs(_) | Reply::Idles | Reply::Granted | Reply::Queued
    )
}

impl RefusedActs {
    /// Nothing is counted yet.
    pub(crate) fn new() -> RefusedActs
        ensures { ⟦<RefusedActs as TraceTool>⟧.tool result ≡ record { rules = refused_rules; state = 0 ∷ [] } }
    {
        RefusedActs { count: 0 }
    }
}

impl TraceTool for RefusedActs {
    ghost tool = { λ t. record { rules = refused_rules; state = t.count ∷ [] } };

    fn feed(&mut self, e: &Shown) {
        if !is_accepted(e.entry.reply) {
            self.count = self.count.saturating_add(1);
        }
    }

    fn total(&self, i: u32) -> Option<u64> {
        if i == 0 { Some(self.count) } else { None }
    }

    fn ended(&self) -> bool {
        false
    }

    fn name(&self) -> u8 {
        b'R'
    }
}
