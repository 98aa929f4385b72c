//! The tool `F`.
ghost use Rattle.std.specs.Prelude.{◌≡◌};
ghost use Rattle.trace_tools.specs.Rules.{first_miss_rules, new_first_miss};
ghost use Rattle.trace_tools.specs.Laws.{FirstMissIsFound};
ghost use Rattle.trace_tools.specs.Found.{numbers_of};

use crate::shown::Shown;
use crate::tool::TraceTool;
use rt_base::TaskNo;

/// Finds the first entry that ended a job late, and ends there: its number, and its task.
#[derive(Drop)]
pub struct FirstMiss {
    found: Option<(u32, TaskNo)>,
}

impl FirstMiss {
    /// Nothing is found yet.
    pub fn new() -> FirstMiss
        ensures tool { ⟦<FirstMiss as TraceTool>⟧.tool result ≡ new_first_miss }
        ensures finds { FirstMissIsFound }
    {
        FirstMiss { found: None }
    }
}

impl TraceTool for FirstMiss {
    ghost tool = { λ f. record { rules = first_miss_rules; state = numbers_of f.found } };

    fn feed(&mut self, e: &Shown) {
        if self.found.is_none()
            && e.late
            && let Some(task) = e.ended
        {
            self.found = Some((e.no, task));
        }
    }

    fn total(&self, i: u32) -> Option<u64> {
        let (no, task) = self.found?;
        match i {
            0 => Some(u64::from(no)),
            1 => Some(u64::from(task.0)),
            _ => None,
        }
    }

    fn ended(&self) -> bool {
        self.found.is_some()
    }

    fn name(&self) -> u8 {
        b'F'
    }
}
