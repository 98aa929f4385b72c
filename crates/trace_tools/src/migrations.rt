//! The tool `G`.
ghost use Rattle.std.specs.Prelude.{◌≡◌, ◌+◌, ◌∷◌, ◌<◌, ◌≤◌, IfOk, vec_len, slice_index, slice_set};
ghost use Rattle.rt_base.specs.declared.TheConstants.{MOST_TASKS};
ghost use Rattle.trace_tools.specs.Rules.{migration_rules, new_migrations, is_elsewhere};
ghost use Rattle.trace_tools.specs.Entries.{begun_by};
ghost use Rattle.trace_tools.specs.Laws.{MigrationsAreCounted};

use crate::shown::Shown;
use crate::tool::TraceTool;
use rt_base::{MOST_TASKS, NoMemory};
use rt_rules::Reply;
use std::alloc::Global;

/// Counts how often a task begins to run on another processor than the last time, of the entries with reply Runs.
#[derive(Drop)]
pub struct Migrations {
    count: u64,
    // one more than the processor that each task began to run on last, or 0
    last_cpus: Vec<u64>,
    ghost all_tasks: { vec_len last_cpus ≡ MOST_TASKS + 1 },
}

fn begun(reply: Reply) -> Option<usize>
    ensures { result ≡ begun_by reply }
{
    match reply {
        Reply::Runs(task) => {
            if task.0 <= MOST_TASKS {
                Some(task.0 as usize)
            } else {
                None
            }
        }
        _ => None,
    }
}

fn is_other(last_cpu: u64, cpu: u32) -> bool
    ensures { result ≡ is_elsewhere last_cpu cpu }
{
    last_cpu != 0 && last_cpu - 1 != u64::from(cpu)
}

impl Migrations {
    /// Nothing is counted yet. It takes all the memory that the tool ever has.
    pub fn new(alloc: Global) -> Result<Migrations, NoMemory>
        ensures tool { IfOk result (λ m. ⟦<Migrations as TraceTool>⟧.tool m ≡ new_migrations) }
        ensures counts { MigrationsAreCounted }
    {
        let last_cpus = vec![in alloc; 0; MOST_TASKS as usize + 1]?;
        Ok(Migrations {
            count: 0,
            last_cpus,
        })
    }
}

impl TraceTool for Migrations {
    ghost tool = { λ m. record { rules = migration_rules; state = m.count ∷ m.last_cpus.items } };

    fn feed(&mut self, e: &Shown) {
        if let Some(task) = begun(e.entry.reply) {
            let cpu = e.entry.step.cpu.0;
            if is_other(self.last_cpus[task], cpu) {
                self.count = self.count.saturating_add(1);
            }
            self.last_cpus[task] = u64::from(cpu) + 1;
        }
    }

    fn total(&self, i: u32) -> Option<u64> {
        if i == 0 { Some(self.count) } else { None }
    }

    fn ended(&self) -> bool {
        false
    }

    fn name(&self) -> u8 {
        b'G'
    }
}
