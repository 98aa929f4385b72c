//! Which calls are to fail.
ghost use Rattle.std.specs.Prelude.{◌↔◌, ◌<◌, ◌^◌, IsTrue, Contains};

use std::marker::Model;

/// The numbers of the calls that are to fail, from 0, and the number of the next call.
///
/// That number stays at 2^64 - 1, where no call fails any more.
#[derive(Drop)]
pub(crate) struct Plan {
    fails: Vec<u32>,
    calls: u64,
}

impl Model for Plan {
    ghost use Rattle.rt_fault.specs.Memory as memory;

    ghost Value = { memory.Plan };

    ghost view = { λ p. record { fails = p.fails.items; calls = p.calls } };
}

impl Plan {
    ghost use Rattle.std.specs.Prelude.{◌≡◌, ◌↔◌, ◌<◌, ◌≤◌, IsFalse, IsTrue};
    ghost use Rattle.rt_fault.specs.Memory.{IsFailing, after_call, failed_calls};

    pub fn new(fails: Vec<u32>) -> Plan
        ensures { result ≡ record { fails = fails.items; calls = 0 } }
    {
        Plan { fails, calls: 0 }
    }

    /// Counts a call, and says whether it is to fail.
    pub fn fails_next(&mut self) -> bool
        ensures answer { IsTrue result ↔ IsFailing self.old }
        ensures counted { self.new ≡ after_call self.old }
        ensures fault { IsTrue result → failed_calls self.old < failed_calls self.new }
        ensures no_fault { IsFalse result → failed_calls self.new ≡ failed_calls self.old }
        ensures never_falls { failed_calls self.old ≤ failed_calls self.new }
    {
        let number = self.calls;
        self.calls = number.saturating_add(1);
        has_number(self.fails.as_slice(), number)
    }
}

fn has_number(fails: &[u32], number: u64) -> bool
    ensures { IsTrue result ↔ ((number < 2 ^ 32) × Contains fails.now number) }
{
    match u32::try_from(number) {
        Ok(number) => fails.contains(&number),
        Err(_) => false,
    }
}
