//! The steps of a group.
ghost use Rattle.std.specs.Prelude.{◌≡◌, filter, IfOk};
ghost use Rattle.rt_task.specs.declared.Step.{Step};
ghost use Rattle.rt_rules.specs.Numbers.{has};
ghost use Rattle.cpu_site.specs.Cpus.{cpu_numbers};

use rt_base::{CpuNo, NoMemory};
use rt_task::Step;
use std::alloc::Global;

/// Whether the processor is one of these.
fn is_one_of(cpus: &[CpuNo], cpu: CpuNo) -> bool
    ensures { result ≡ has cpu.0 (cpu_numbers cpus.now) }
{
    for own in cpus {
        if cpu.0 == own.0 {
            return true;
        }
    }
    false
}

/// Of the steps, those of these processors, in order.
pub(crate) fn steps_of_cpus(
    alloc: Global,
    steps: &[Step],
    cpus: &[CpuNo],
) -> Result<Vec<Step>, NoMemory>
    ensures { IfOk result (λ v.
        v.items ≡ filter (λ (s : Step). has s.cpu.0 (cpu_numbers cpus.now)) steps.now) }
{
    let mut own = Vec::new(alloc);
    for step in steps {
        if is_one_of(cpus, step.cpu) {
            own.push(*step)?;
        }
    }
    Ok(own)
}
