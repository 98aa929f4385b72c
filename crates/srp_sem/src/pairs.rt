//! Lists of tasks and semaphores.
ghost use Rattle.std.specs.Prelude.{◌≡◌, ◌+◌, ◌<◌, ◌≤◌, ◌↔◌, [], ◌∷◌, false, IfOk, IsNone, vec_len, vec_capacity};
ghost use Rattle.rt_base.specs.TaskNos.{number_of_task};
ghost use Rattle.rt_rules.specs.Numbers.{first, has};
ghost use Rattle.rt_rules.specs.Pcp.{of_sem, without_pair};
ghost use Rattle.rt_rules.specs.Srp.{newest_held, srp_passes};
ghost use Rattle.srp_sem.specs.Pairs.{sems_of, tasks_of};
ghost use Rattle.srp_sem.specs.SrpKept.{ceiling_at};
ghost use Rattle.srp_sem.specs.Listed.{pair, pairs};

use rt_base::{NoMemory, TaskNo};
use std::alloc::Global;

/// A task and a semaphore that it holds.
#[derive(Clone, Copy, PartialEq, Eq)]
pub struct Pair {
    pub task: TaskNo,
    pub sem: u32,
}

/// An empty list with room.
pub fn reserved(alloc: Global, room: usize) -> Result<Vec<Pair>, NoMemory>
    ensures items { IfOk result (λ v. v.items ≡ []) }
    ensures capacity { IfOk result (λ v. room ≤ vec_capacity v) }
{
    Ok(Vec::with_capacity(alloc, room)?)
}

// The ceiling of a semaphore, 0 for a number that is none.
fn ceiling(ceilings: &[u64], sem: u32) -> u64
    ensures { result ≡ ceiling_at ceilings.now sem }
{
    match ceilings.get(sem as usize) {
        None => 0,
        Some(c) => *c,
    }
}

/// Whether a relative deadline is below the ceiling of each semaphore that another task holds.
pub fn does_pass(held: &[Pair], ceilings: &[u64], task: TaskNo, rel_deadline: u64) -> bool
    ensures { result ≡ srp_passes (ceiling_at ceilings.now) (pairs held.now) task.0 rel_deadline }
{
    for p in held {
        if p.task.0 != task.0 && rel_deadline >= ceiling(ceilings, p.sem) {
            return false;
        }
    }
    true
}

/// Takes the pair out.
pub fn take_out(from: &mut Vec<Pair>, gone: Pair)
    ensures items { pairs from.new.items ≡ without_pair (pair gone) (pairs from.old.items) }
    ensures capacity { vec_capacity from.new ≡ vec_capacity from.old }
{
    from.retain(|p| *p != gone);
}

/// Adds the newest lock, for which there is room, before all others.
pub fn put_first(held: &mut Vec<Pair>, new: Pair)
    requires { vec_len held.old < vec_capacity held.old }
    ensures items { pairs held.new.items ≡ pair new ∷ pairs held.old.items }
    ensures len { vec_len held.new ≡ vec_len held.old + 1 }
    ensures capacity { vec_capacity held.old ≤ vec_capacity held.new }
{
    let _ = held.insert(0, new);
}

/// The task that holds a semaphore.
pub fn holder_in(held: &[Pair], sem: u32) -> Option<TaskNo>
    ensures holder { number_of_task result ≡ first (of_sem sem (pairs held.now)) }
    ensures nobody { IsNone result ↔ (has sem (sems_of (pairs held.now)) ≡ false) }
{
    for p in held {
        if p.sem == sem {
            return Some(p.task);
        }
    }
    None
}

/// The semaphore that a task locked last among those that it holds.
pub fn last_in(held: &[Pair], task: TaskNo) -> Option<u32>
    ensures last { result ≡ newest_held (pairs held.now) task.0 }
    ensures nothing { IsNone result ↔ (has task.0 (tasks_of (pairs held.now)) ≡ false) }
{
    for p in held {
        if p.task.0 == task.0 {
            return Some(p.sem);
        }
    }
    None
}
