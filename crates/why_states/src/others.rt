//! Of the semaphores that others hold under PCP the one of the highest ceiling.
ghost use Rattle.std.specs.Prelude.{◌≡◌, ◌||◌, ◌==◌, IfOk, ◌&&◌, true};
ghost use Rattle.std.specs.List.{list_all};
ghost use Rattle.rt_base.specs.TaskNos.{number_of_task, numbers};
ghost use Rattle.rt_rules.specs.Numbers.{foremost, has};
ghost use Rattle.rt_task.specs.declared.PluginKind.TheVariants as plugins;
ghost use Rattle.rt_model.specs.Blockers as blockers;
ghost use Rattle.rt_model.specs.Ceilings.{is_pcp};
ghost use Rattle.rt_model.specs.Group as groups;
ghost use Rattle.rt_model.specs.Group.{protocol, sems};
ghost use Rattle.rt_model.specs.Holders.{holder};
ghost use Rattle.rt_model.specs.Past.{Past};
ghost use Rattle.why_texts.specs.Standings as texts;
ghost use Rattle.why_lines.specs.GroupSets.{group_in};
ghost use Rattle.why_lines.specs.SemNos.{number_of_sem, sem_numbers};
ghost use Rattle.why_states.specs.States.{IsAt, group_of};

use crate::ceilings::has_higher_ceiling;
use crate::state::State;
use rt_base::{NoMemory, SemNo, TaskNo};
use rt_task::Protocol;
use std::alloc::Global;
use why_lines::{GroupSet, home_of, protocol_of};

/// Whether the holder of a semaphore is another task of the same cluster.
fn is_other(set: &GroupSet, task: TaskNo, holder: Option<TaskNo>) -> bool
    ensures { result ≡ texts.is_other (group_in set.now) task.0 (number_of_task holder) }
{
    match holder {
        Some(other) => home_of(set, other) == home_of(set, task) && other.0 != task.0,
        None => false,
    }
}

/// Whether a semaphore is of PCP.
fn is_of_pcp(set: &GroupSet, sem: SemNo) -> bool
    ensures { result ≡ is_pcp (protocol (group_in set.now) sem.0) }
{
    matches!(protocol_of(set, sem), Protocol::Pcp)
}

/// Whether another task of the cluster of a task holds the semaphore, and that is of PCP.
fn is_held_by_other(state: &State, task: TaskNo, sem: SemNo) -> bool
    requires at { (past : Past) × IsAt past state.now }
    requires sem { has sem.0 (sems (group_of state.now)) ≡ true }
    ensures { (past : Past) → IsAt past state.now → let g = group_of state.now in
        result ≡ is_pcp (protocol g sem.0) && texts.is_other g task.0 (holder g sem.0 past) }
{
    is_of_pcp(&state.set, sem) && is_other(&state.set, task, state.afresh.holder(sem))
}

/// The semaphores that others hold.
fn held_by_others(alloc: Global, state: &State, task: TaskNo) -> Result<Vec<SemNo>, NoMemory>
    requires { (past : Past) × IsAt past state.now }
    ensures { IfOk result (λ v. (past : Past) → IsAt past state.now
        → sem_numbers v.items ≡ texts.held_by_others (group_of state.now) task.0 past) }
{
    let mut held = Vec::new(alloc);
    for sem in state.sems {
        if is_held_by_other(state, task, *sem) {
            held.push(*sem)?;
        }
    }
    Ok(held)
}

/// Whether the ceiling of a semaphore is before that of each other one of these.
fn is_foremost(set: &GroupSet, tasks: &[TaskNo], sem: SemNo, held: &[SemNo]) -> bool
    requires { numbers tasks.now ≡ groups.tasks (group_in set.now) }
    ensures { (group_in set.now).setup.plugin ≡ plugins.PFp → result ≡ list_all
        (λ s. sem.0 == s || blockers.has_higher_ceiling (group_in set.now) sem.0 s)
        (sem_numbers held.now) }
{
    for other in held {
        if sem.0 != other.0 && !has_higher_ceiling(set, tasks, sem, *other) {
            return false;
        }
    }
    true
}

/// The semaphore of the highest ceiling of these.
fn foremost_of(set: &GroupSet, tasks: &[TaskNo], held: &[SemNo]) -> Option<SemNo>
    requires { numbers tasks.now ≡ groups.tasks (group_in set.now) }
    ensures { (group_in set.now).setup.plugin ≡ plugins.PFp → number_of_sem result ≡ foremost
        (blockers.has_higher_ceiling (group_in set.now)) (sem_numbers held.now) }
{
    for sem in held {
        if is_foremost(set, tasks, *sem, held) {
            return Some(*sem);
        }
    }
    None
}

/// Of the semaphores that others hold the one of the highest ceiling.
pub(crate) fn highest_of_others(
    alloc: Global,
    state: &State,
    task: TaskNo,
) -> Result<Option<SemNo>, NoMemory>
    requires { (past : Past) × IsAt past state.now }
    ensures { IfOk result (λ s. (past : Past) → IsAt past state.now
        → (group_of state.now).setup.plugin ≡ plugins.PFp
        → number_of_sem s ≡ texts.highest_of_others (group_of state.now) task.0 past) }
{
    let held = held_by_others(alloc, state, task)?;
    Ok(foremost_of(&state.set, state.tasks, held.as_slice()))
}
