//! The lines of the semaphores.
ghost use Rattle.std.specs.Prelude.{◌≡◌, ◌++◌, IfOk, OnOk, flat_map, true};
ghost use Rattle.rt_base.specs.TaskNos.{numbers};
ghost use Rattle.rt_rules.specs.Numbers.{has, is};
ghost use Rattle.rt_model.specs.Group.{tasks};
ghost use Rattle.rt_model.specs.Holders.{awaits};
ghost use Rattle.rt_model.specs.Past.{Past};
ghost use Rattle.why_texts.specs.SemLines as texts;
ghost use Rattle.why_texts.specs.SemLines.{declared_sems, sem_line};
ghost use Rattle.why_states.specs.States.{IsAt, group_of};

use crate::ceilings::ceiling_of;
use crate::state::State;
use rt_base::{NoMemory, SemNo, TaskNo};
use std::alloc::Global;
use why_lines::put_sem_line;

/// Whether the task waits for the semaphore.
fn waits_at(state: &State, task: TaskNo, sem: SemNo) -> bool
    requires at { (past : Past) × IsAt past state.now }
    requires task { has task.0 (tasks (group_of state.now)) ≡ true }
    ensures { (past : Past) → IsAt past state.now
        → result ≡ is sem.0 (awaits (group_of state.now) task.0 past) }
{
    match state.afresh.waits(task) {
        Some(awaited) => sem.0 == awaited.0,
        None => false,
    }
}

/// The tasks that wait for a semaphore.
fn waiting_for(alloc: Global, state: &State, sem: SemNo) -> Result<Vec<TaskNo>, NoMemory>
    requires { (past : Past) × IsAt past state.now }
    ensures { IfOk result (λ v. (past : Past) → IsAt past state.now
        → numbers v.items ≡ texts.waiting_for (group_of state.now) sem.0 past) }
{
    let mut waiting = Vec::new(alloc);
    for task in state.tasks {
        if waits_at(state, *task, sem) {
            waiting.push(*task)?;
        }
    }
    Ok(waiting)
}

/// The line of a semaphore.
fn put_sem(alloc: Global, out: &mut Vec<u8>, state: &State, sem: SemNo) -> Result<(), NoMemory>
    requires at { (past : Past) × IsAt past state.now }
    requires sem { has sem.0 (declared_sems (group_of state.now)) ≡ true }
    ensures { OnOk result ((past : Past) → IsAt past state.now → out.new.items
        ≡ out.old.items ++ sem_line (group_of state.now) sem.0 past) }
{
    let waiting = waiting_for(alloc, state, sem)?;
    let holder = state.afresh.holder(sem);
    let ceiling = ceiling_of(&state.set, state.tasks, sem);
    put_sem_line(out, &state.set, sem, holder, ceiling, waiting.as_slice())
}

/// The lines of the semaphores that a task of the group declares.
pub(crate) fn put_sems(alloc: Global, out: &mut Vec<u8>, state: &State) -> Result<(), NoMemory>
    requires { (past : Past) × IsAt past state.now }
    ensures { OnOk result ((past : Past) → IsAt past state.now → out.new.items
        ≡ out.old.items
        ++ flat_map (λ s. sem_line (group_of state.now) s past)
        (declared_sems (group_of state.now))) }
{
    for sem in state.sems {
        put_sem(alloc, out, state, *sem)?;
    }
    Ok(())
}
