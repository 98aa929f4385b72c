//! How many entries each processor may add to a semaphore's history.
ghost use Rattle.std.specs.Prelude.{◌≡◌, ◌<◌, ◌≤◌, ◌^◌, length, map, IfOk, filter};
ghost use Rattle.rt_task.specs.declared.Step as sets;
ghost use Rattle.rt_rules.specs.Numbers.{numbers_from};
ghost use Rattle.rt_plays.specs.Scripts.{script};
ghost use Rattle.split_laws.specs.Counts.{names_sem};

use rt_base::{CpuNo, NoMemory, SemNo};
use rt_task::{Act, Op, Step};
use std::alloc::Global;

/// Whether the act locks or unlocks the semaphore.
fn is_at(act: Act, sem: SemNo) -> bool
    ensures { result ≡ names_sem sem.0 act }
{
    match act {
        Act::Do(Op::Lock(other) | Op::Unlock(other)) => other == sem,
        _ => false,
    }
}

/// The steps that lock or unlock the semaphore, in order.
pub(crate) fn steps_at(alloc: Global, steps: &[Step], sem: SemNo) -> Result<Vec<Step>, NoMemory>
    ensures { IfOk result (λ v.
        v.items ≡ filter (λ (x : sets.Step). names_sem sem.0 x.act) steps.now) }
{
    let mut found = Vec::new(alloc);
    for step in steps {
        if is_at(step.act, sem) {
            found.push(*step)?;
        }
    }
    Ok(found)
}

/// How many of the steps are a processor's.
fn count_of(steps: &[Step], cpu: CpuNo) -> u32
    requires { length steps.now < 2 ^ 32 }
    ensures { result ≡ length (script steps.now cpu.0) }
{
    steps.iter().filter(|step| step.cpu == cpu).count() as u32
}

/// How many of the steps are of each processor, by its number, from 0 on.
pub(crate) fn counts(alloc: Global, steps: &[Step], cpus: u32) -> Result<Vec<u32>, NoMemory>
    requires { length steps.now < 2 ^ 32 }
    ensures { IfOk result (λ v.
        v.items ≡ map (λ q. length (script steps.now q)) (numbers_from 0 cpus)) }
{
    let mut counts = Vec::new(alloc);
    for cpu in 0..cpus {
        counts.push(count_of(steps, CpuNo(cpu)))?;
    }
    Ok(counts)
}
