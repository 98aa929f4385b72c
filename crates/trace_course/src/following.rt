//! How far on from each step of a set the next one of its processor is.
ghost use Rattle.std.specs.Prelude.{◌≡◌, ◌⊎◌, ◌+◌, ◌<◌, All, IfOk};
ghost use Rattle.rt_base.specs.declared.TheConstants.{MOST_CPUS};
ghost use Rattle.trace_course.specs.Next.{AreFollowing};

use crate::table::{position_of, positions_at};
use rt_base::{CpuNo, NoMemory};
use rt_task::Step;
use std::alloc::Global;

/// How far a position is from one before it; 1, which never leads too far, where the number is too large to be kept.
fn distance(from: usize, to: usize) -> u32
    requires { from < to }
    ensures { (from + result ≡ to) ⊎ (result ≡ 1) }
{
    u32::try_from(to - from).unwrap_or(1)
}

/// How far on from each step of these processors the next one of its processor is, or the end where none
/// follows; 1 for a step of another processor.
pub(crate) fn following_of(
    alloc: Global,
    steps: &[Step],
    cpus: &[CpuNo],
) -> Result<Vec<u32>, NoMemory>
    requires { All (λ q. q.0 < MOST_CPUS) cpus.now }
    ensures { IfOk result (λ v. AreFollowing steps.now v.items) }
{
    let mut following = vec![in alloc; 1; steps.len()]?;
    let mut next = positions_at(alloc, cpus, steps.len())?;
    for position in (0..steps.len()).rev() {
        let cpu = steps[position].cpu;
        if let Some(to) = position_of(next.as_slice(), cpu) {
            following[position] = distance(position, to);
            next[cpu.0 as usize] = Some(position);
        }
    }
    Ok(following)
}
