//! A position for each processor of a group, by its number.
ghost use Rattle.std.specs.Prelude.{◌≡◌, ◌<◌, ℕ, All, IfOk, None, Some, replicate, if◌then◌else◌};
ghost use Rattle.rt_base.specs.declared.TheConstants.{MOST_CPUS};
ghost use Rattle.rt_rules.specs.Numbers.{has};
ghost use Rattle.body_play.specs.Turns.{numbers_of};
ghost use Rattle.trace_course.specs.Followed.{position_in};

use rt_base::{CpuNo, MOST_CPUS, NoMemory};
use std::alloc::Global;

/// A position for each number that a processor can have, with nothing in it.
fn no_positions(alloc: Global) -> Result<Vec<Option<usize>>, NoMemory>
    ensures { IfOk result (λ v. v.items ≡ replicate MOST_CPUS None) }
{
    let mut positions = Vec::new(alloc);
    for _ in 0..MOST_CPUS {
        positions.push(None)?;
    }
    Ok(positions)
}

/// This position for each of these processors, and `None` for each other one.
pub(crate) fn positions_at(
    alloc: Global,
    cpus: &[CpuNo],
    position: usize,
) -> Result<Vec<Option<usize>>, NoMemory>
    requires { All (λ q. q.0 < MOST_CPUS) cpus.now }
    ensures { IfOk result (λ v. (q : ℕ) → position_in v.items q
        ≡ (if has q (numbers_of cpus.now) then Some position else None)) }
{
    let mut positions = no_positions(alloc)?;
    for cpu in cpus {
        positions[cpu.0 as usize] = Some(position);
    }
    Ok(positions)
}

/// The position of a processor.
pub(crate) fn position_of(positions: &[Option<usize>], cpu: CpuNo) -> Option<usize>
    ensures { result ≡ position_in positions.now cpu.0 }
{
    let number = cpu.0 as usize;
    if number < positions.len() {
        positions[number]
    } else {
        None
    }
}
