//! When a Lock and an Unlock are refused.
ghost use Rattle.std.specs.Prelude.{◌≡◌, ◌≤◌, ℕ, length, map, true};
ghost use Rattle.rt_rules.specs.Numbers.{has, is};
ghost use Rattle.sem_table.specs.Told.{last_of};
ghost use Rattle.rt_task.specs.RuleWords as words;
ghost use Rattle.rt_model.specs.Ceilings as ceilings;
ghost use Rattle.rt_model.specs.Group.{declares, protocol};
ghost use Rattle.rt_plays.specs.Plays.{group_with};
ghost use Rattle.group_sems.specs.Refusing as refusing;
ghost use Rattle.group_sems.specs.Refusing.{AreSems, AreSemsOf};

use rt_base::{MOST_HELD, SemNo, TaskNo};
use rt_rules::Reply;
use rt_task::{Parts, Protocol};
use sem_table::Sems;

/// Whether the semaphore is one of PCP.
#[tactic(auto, unfolding(rt_model::specs::Group::protocol, rt_model::specs::Group::sem))]
fn is_pcp(parts: &Parts, sem: SemNo) -> bool
    requires { (1 ≤ sem.0) × (sem.0 ≤ length parts.now.sems) }
    ensures { result ≡ ceilings.is_pcp (protocol (group_with parts.now 0) sem.0) }
{
    matches!(
        parts.sems.as_slice()[sem.0 as usize - 1].protocol,
        Protocol::Pcp
    )
}

/// Whether the unlocks of the semaphore are last in, first out.
#[tactic(auto, unfolding(rt_model::specs::Group::protocol, rt_model::specs::Group::sem))]
fn is_stacked(parts: &Parts, sem: SemNo) -> bool
    requires { (1 ≤ sem.0) × (sem.0 ≤ length parts.now.sems) }
    ensures { result ≡ words.is_stacked (protocol (group_with parts.now 0) sem.0) }
{
    matches!(
        parts.sems.as_slice()[sem.0 as usize - 1].protocol,
        Protocol::Pcp | Protocol::Srp
    )
}

/// Whether the task holds the semaphore.
fn holds_it(sems: &Sems, task: TaskNo, sem: SemNo) -> bool
    ensures { result ≡ refusing.holds_it sems.now task.0 sem.0 }
{
    match sems.holder(sem) {
        Some(holder) => task.0 == holder.0,
        None => false,
    }
}

/// Whether the task declares the semaphore.
#[tactic(auto, unfolding(rt_model::specs::Group::declares, rt_model::specs::Group::task))]
fn declares_it(parts: &Parts, task: TaskNo, sem: SemNo) -> bool
    requires { (1 ≤ task.0) × (task.0 ≤ length parts.now.tasks) }
    ensures { result ≡ declares (group_with parts.now 0) task.0 sem.0 }
{
    let row = &parts.tasks.as_slice()[task.0 as usize - 1];
    has_sem(row.uses.as_slice(), sem)
}

fn has_sem(sems: &[SemNo], sem: SemNo) -> bool
    ensures { result ≡ has sem.0 (map (λ n. n.0) sems.now) }
{
    for s in sems {
        if sem.0 == s.0 {
            return true;
        }
    }
    false
}

/// Whether the task holds the semaphore and that is none of PCP.
fn holds_other_one(sems: &Sems, parts: &Parts, task: TaskNo, sem: SemNo) -> bool
    requires { (1 ≤ sem.0) × (sem.0 ≤ length parts.now.sems) }
    ensures { result ≡ refusing.holds_other_one parts.now sems.now task.0 sem.0 }
{
    !is_pcp(parts, sem) && holds_it(sems, task, sem)
}

/// Whether the task holds one of these semaphores that is none of PCP.
fn holds_other(sems: &Sems, parts: &Parts, task: TaskNo, of: &[SemNo]) -> bool
    requires { AreSems parts.now (map (λ n. n.0) of.now) }
    ensures { result ≡ refusing.holds_other parts.now sems.now task.0 (map (λ n. n.0) of.now) }
{
    for sem in of {
        if holds_other_one(sems, parts, task, *sem) {
            return true;
        }
    }
    false
}

/// The semaphores that the task declares.
#[tactic(auto, unfolding(rt_model::specs::Group::task))]
fn uses_of(parts: &Parts, task: TaskNo) -> &[SemNo]
    requires { (1 ≤ task.0) × (task.0 ≤ length parts.now.tasks) }
    ensures { map (λ n. n.0) result.now ≡ refusing.uses_of parts.now task.0 }
{
    parts.tasks.as_slice()[task.0 as usize - 1].uses.as_slice()
}

/// Whether the task holds one of the semaphores that it declares and that is none of PCP.
fn holds_any_other(sems: &Sems, parts: &Parts, task: TaskNo) -> bool
    requires task { (1 ≤ task.0) × (task.0 ≤ length parts.now.tasks) }
    requires uses { AreSemsOf parts.now task.0 }
    ensures { let uses = refusing.uses_of parts.now task.0 in
        result ≡ refusing.holds_other parts.now sems.now task.0 uses }
{
    holds_other(sems, parts, task, uses_of(parts, task))
}

/// Whether a request for the semaphore would nest where it must not.
#[tactic(auto, unfolding(rt_model::specs::Group::protocol, rt_model::specs::Group::sem))]
fn is_nested(sems: &Sems, parts: &Parts, task: TaskNo, sem: SemNo) -> bool
    requires task { (1 ≤ task.0) × (task.0 ≤ length parts.now.tasks) }
    requires sem { (1 ≤ sem.0) × (sem.0 ≤ length parts.now.sems) }
    requires uses { AreSemsOf parts.now task.0 }
    ensures { result ≡ refusing.is_nested_by (protocol (group_with parts.now 0) sem.0) parts.now
        sems.now task.0 sem.0 }
{
    let held = sems.held_by(task);
    match parts.sems.as_slice()[sem.0 as usize - 1].protocol {
        Protocol::Pcp => {
            holds_any_other(sems, parts, task) || holds_it(sems, task, sem) || held >= MOST_HELD
        }
        Protocol::Srp => holds_it(sems, task, sem) || held >= MOST_HELD,
        Protocol::Fmlp | Protocol::Omlp | Protocol::Mpcp => held != 0,
    }
}

/// Why the task may not ask for the semaphore.
pub(crate) fn lock_refusal(sems: &Sems, parts: &Parts, task: TaskNo, sem: SemNo) -> Option<Reply>
    requires task { (1 ≤ task.0) × (task.0 ≤ length parts.now.tasks) }
    requires sem { (1 ≤ sem.0) × (sem.0 ≤ length parts.now.sems) }
    requires uses { AreSemsOf parts.now task.0 }
    ensures { result ≡ refusing.lock_refusal parts.now sems.now task.0 sem.0 }
{
    if !declares_it(parts, task, sem) {
        Some(Reply::NotDeclared)
    } else if is_nested(sems, parts, task, sem) {
        Some(Reply::Nested)
    } else {
        None
    }
}

/// Whether the semaphore is the last of PCP or SRP that the task was granted among those that it holds.
fn is_last(sems: &Sems, task: TaskNo, sem: SemNo) -> bool
    ensures { result ≡ is sem.0 (last_of sems.now task.0) }
{
    match sems.last_of(task) {
        Some(last) => sem.0 == last.0,
        None => false,
    }
}

/// Why the task may not free the semaphore.
pub(crate) fn unlock_refusal(sems: &Sems, parts: &Parts, task: TaskNo, sem: SemNo) -> Option<Reply>
    requires { (1 ≤ sem.0) × (sem.0 ≤ length parts.now.sems) }
    ensures { result ≡ refusing.unlock_refusal parts.now sems.now task.0 sem.0 }
{
    if !holds_it(sems, task, sem) {
        Some(Reply::NotHeld)
    } else if is_stacked(parts, sem) && !is_last(sems, task, sem) {
        Some(Reply::NotLast)
    } else {
        None
    }
}
