//! Counts of the interrupts that were raised, and which of them have changed.
ghost use Rattle.std.specs.Prelude.{◌≡◌, ℕ, ◌+◌, ◌<◌, ◌≤◌, ◌^◌, ◌⊎◌, [], All, IfOk, replicate, length, slice_index, vec_capacity};
ghost use Rattle.turn_cell.specs.Words.{times};

use rt_base::NoMemory;
use std::alloc::Global;

/// A count of 0 for each processor.
pub(crate) fn no_counts(alloc: Global, cpus: usize) -> Result<Vec<u64>, NoMemory>
    ensures { IfOk result (λ v. v.items ≡ replicate cpus 0) }
{
    Ok(Vec::from_elem(alloc, 0, cpus)?)
}

/// An empty list of positions, with room for one of each processor.
pub(crate) fn no_positions(alloc: Global, cpus: usize) -> Result<Vec<u32>, NoMemory>
    ensures { IfOk result (λ v. (v.items ≡ []) × (cpus ≤ vec_capacity v)) }
{
    Ok(Vec::with_capacity(alloc, cpus)?)
}

/// Copies the counts.
pub(crate) fn copy(from: &[u64], to: &mut Vec<u64>)
    requires { length from.now ≡ length to.old.items }
    ensures { to.new.items ≡ from.now }
{
    to.as_mut_slice().copy_from_slice(from);
}

/// The positions of the counts that have changed, where each is as it was or one more.
pub(crate) fn changed(before: &[u64], after: &[u64], positions: &mut Vec<u32>)
    requires same { length before.now ≡ length after.now }
    requires few { length before.now < 2 ^ 32 }
    requires room { length before.now ≤ vec_capacity positions.old }
    requires each { (p : ℕ) → p < length before.now →
        (slice_index after.now p ≡ slice_index before.now p)
        ⊎ (slice_index after.now p ≡ slice_index before.now p + 1) }
    ensures named { All (λ p. p < length before.now) positions.new.items }
    ensures once { (p : ℕ) → times p positions.new.items ≤ 1 }
    ensures counted { (p : ℕ) → p < length before.now →
        slice_index after.now p ≡ slice_index before.now p + times p positions.new.items }
    ensures capacity { vec_capacity positions.old ≤ vec_capacity positions.new }
{
    positions.clear();
    for i in 0..before.len() as u32 {
        if before[i as usize] != after[i as usize] {
            positions.push_reserved(i);
        }
    }
}
