//! The list of requests, and the position of each task's newest one.
ghost use Rattle.std.specs.Prelude.{◌≡◌, ◌+◌, ◌-◌, ◌^◌, ◌<◌, ◌≤◌, ℕ, [], ◌∷◌, ◌++◌, All, Some, None, IfOk, length, replicate, slice_index_or, slice_set, vec_len, vec_capacity};
ghost use Rattle.rt_base.specs.declared.TheConstants.{MOST_STEPS};
ghost use Rattle.rt_rules.specs.Distinct.{IsDistinct};
ghost use Rattle.rt_changes.specs.Tallies.{counted, waiter_tasks};
ghost use Rattle.block_counts.specs.SeenWords.{tallies_of, tally_of, waiter_of, waiters_of};
ghost use Rattle.block_counts.specs.Positions.{ArePositions, IsFew, PointWithin, seen_at, seen_one};

use crate::seen::{Seen, Waiting};
use rt_base::{NoMemory, SemNo, TaskNo};
use std::alloc::Global;

/// As many tasks with no request.
pub(crate) fn no_positions(alloc: Global, tasks: usize) -> Result<Vec<Option<u32>>, NoMemory>
    ensures { IfOk result (λ v. v.items ≡ replicate tasks None) }
{
    Ok(vec![in alloc; None; tasks]?)
}

/// An empty list of requests, with room for `room` of them.
pub(crate) fn no_requests(alloc: Global, room: usize) -> Result<Vec<Seen>, NoMemory>
    ensures items { IfOk result (λ v. v.items ≡ []) }
    ensures room { IfOk result (λ v. room ≤ vec_capacity v) }
{
    Ok(Vec::with_capacity(alloc, room)?)
}

/// Adds a request, for which there is room: the newest of its task.
pub(crate) fn ask(seen: &mut Vec<Seen>, positions: &mut [Option<u32>], new: Seen)
    requires room { vec_len seen.old < vec_capacity seen.old }
    requires few { vec_len seen.old < MOST_STEPS }
    requires task { new.task.0 < length positions.old }
    ensures seen { seen.new.items ≡ seen.old.items ++ new ∷ [] }
    ensures positions { positions.new ≡ slice_set positions.old new.task.0 (Some (vec_len seen.old)) }
    ensures capacity { vec_capacity seen.old ≤ vec_capacity seen.new }
{
    positions[new.task.0 as usize] = Some(seen.len() as u32);
    seen.push_reserved(new);
}

// The position of a task's newest request.
fn position_of(positions: &[Option<u32>], task: TaskNo) -> Option<u32>
    ensures { result ≡ slice_index_or positions.now task.0 None }
{
    match positions.get(task.0 as usize) {
        Some(position) => *position,
        None => None,
    }
}

// The request has seen one more critical section of the semaphore end, if it is one for it.
fn see(one: &mut Seen, sem: SemNo, blocked: bool)
    requires { IsFew (MOST_STEPS + 1) (tally_of one.old) }
    ensures { tally_of one.new ≡ seen_at sem.0 blocked (tally_of one.old) }
{
    if one.sem.0 != sem.0 {
        return;
    }
    one.ends_all += 1;
    if blocked {
        one.ends += 1;
    }
}

// A critical section of the semaphore ends while the task waits: its newest request, if that is one for the semaphore,
// has seen it.
fn see_end(seen: &mut [Seen], positions: &[Option<u32>], sem: SemNo, waiting: Waiting)
    requires positions { PointWithin (length seen.old) positions.now }
    requires few { All (IsFew (MOST_STEPS + 1)) (tallies_of seen.old) }
    ensures { tallies_of seen.new
        ≡ seen_one positions.now sem.0 (waiter_of waiting) (tallies_of seen.old) }
{
    if let Some(position) = position_of(positions, waiting.task) {
        see(&mut seen[position as usize], sem, waiting.blocked);
    }
}

/// A critical section of the semaphore ends while these tasks wait.
pub(crate) fn count_end(
    seen: &mut [Seen],
    positions: &[Option<u32>],
    sem: SemNo,
    waiting: &[Waiting],
)
    requires positions { ArePositions (tallies_of seen.old) positions.now }
    requires few { All (IsFew MOST_STEPS) (tallies_of seen.old) }
    requires once { IsDistinct (waiter_tasks (waiters_of waiting.now)) }
    ensures { tallies_of seen.new ≡ counted sem.0 (waiters_of waiting.now) (tallies_of seen.old) }
{
    for one in waiting {
        see_end(seen, positions, sem, *one);
    }
}
