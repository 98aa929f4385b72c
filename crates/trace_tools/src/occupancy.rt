//! The tool `O`.
ghost use Rattle.std.specs.Prelude.{◌≡◌, ◌+◌, ◌<◌, ◌≤◌, ℕ, length, take, max, slice_index, slice_set};
ghost use Rattle.rt_base.specs.declared.TheConstants.{MOST_CPUS};
ghost use Rattle.trace_tools.specs.Rules as rules;
ghost use Rattle.trace_tools.specs.Rules.{occupancy_rules, new_occupancy};
ghost use Rattle.trace_tools.specs.Entries.{is_work};
ghost use Rattle.trace_tools.specs.Laws.{OccupancyIsCounted};

use crate::shown::Shown;
use crate::tool::TraceTool;
use rt_base::MOST_CPUS;
use rt_rules::Reply;
use rt_task::{Act, Op};

const CPUS: usize = MOST_CPUS as usize;

/// Counts the accepted Works of each processor, up to the greatest processor that was shown.
#[derive(Drop)]
pub struct Occupancy {
    works: [u64; CPUS],
    shown: usize,
    ghost within: { shown ≤ MOST_CPUS },
    ghost rest: { (q : ℕ) → shown ≤ q → slice_index works q ≡ 0 },
}

fn is_accepted_work(act: Act, reply: Reply) -> bool
    ensures { result ≡ is_work act reply }
{
    matches!((act, reply), (Act::Do(Op::Work), Reply::Done))
}

fn raised(is_counted: bool, count: u64) -> u64
    ensures { result ≡ rules.raised is_counted count }
{
    if is_counted {
        count.saturating_add(1)
    } else {
        count
    }
}

fn no_works() -> [u64; CPUS]
    ensures { (q : ℕ) → slice_index result q ≡ 0 }
{
    [0; CPUS]
}

impl Occupancy {
    /// Nothing is counted yet.
    pub fn new() -> Occupancy
        ensures tool { ⟦<Occupancy as TraceTool>⟧.tool result ≡ new_occupancy }
        ensures counts { OccupancyIsCounted }
    {
        Occupancy {
            works: no_works(),
            shown: 0,
        }
    }
}

impl TraceTool for Occupancy {
    ghost tool = { λ o. record { rules = occupancy_rules; state = take o.shown o.works } };

    fn feed(&mut self, e: &Shown) {
        let cpu = e.entry.step.cpu.0 as usize;
        if cpu < CPUS {
            let works = is_accepted_work(e.entry.step.act, e.entry.reply);
            self.works[cpu] = raised(works, self.works[cpu]);
            self.shown = self.shown.max(cpu + 1);
        }
    }

    fn total(&self, i: u32) -> Option<u64> {
        if (i as usize) < self.shown {
            Some(self.works[i as usize])
        } else {
            None
        }
    }

    fn ended(&self) -> bool {
        false
    }

    fn name(&self) -> u8 {
        b'O'
    }
}
