//! Where the next step of each processor stands.
ghost use Rattle.std.specs.Prelude.{◌≡◌, ◌<◌, All, IfOk};
ghost use Rattle.rt_task.specs.declared.Step.{Step};
ghost use Rattle.cpu_site.specs.StepChains.{IsChained};

use rt_base::NoMemory;
use rt_task::Step;
use std::alloc::Global;

/// The position of the first step of each processor, and for each step the position of the next one of its processor.
/// The position is the length of the list where there is none.
pub(crate) fn chained(
    alloc: Global,
    steps: &[Step],
    cpus: u32,
) -> Result<(Vec<usize>, Vec<usize>), NoMemory>
    requires { All (λ (s : Step). s.cpu.0 < cpus) steps.now }
    ensures { IfOk result (λ r. IsChained steps.now cpus r.0.items r.1.items) }
{
    let none = steps.len();
    let mut firsts = Vec::from_elem(alloc, none, cpus as usize)?;
    let mut nexts = Vec::from_elem(alloc, none, none)?;
    let mut i = none;
    while i > 0 {
        i -= 1;
        let cpu = steps[i].cpu.0 as usize;
        nexts[i] = firsts[cpu];
        firsts[cpu] = i;
    }
    Ok((firsts, nexts))
}
