//! The semaphores that a group's tasks declare.
ghost use Rattle.std.specs.Prelude.{◌≡◌, ◌≤◌, IfOk, filter, length, map, not};
ghost use Rattle.rt_base.specs.TaskNos.{numbers};
ghost use Rattle.rt_base.specs.declared.TheConstants.{MOST_SEMS};
ghost use Rattle.rt_rules.specs.Numbers.{has, is_empty};
ghost use Rattle.rt_model.specs.Group as groups;
ghost use Rattle.why_texts.specs.SemLines.{declared_sems};
ghost use Rattle.why_lines.specs.GroupSets.{group_in};
ghost use Rattle.why_lines.specs.SemNos.{sem_numbers};

use rt_base::{NoMemory, SemNo, TaskNo};
use std::alloc::Global;
use why_lines::GroupSet;

fn has_sem(sems: &[SemNo], sem: SemNo) -> bool
    ensures { result ≡ has sem.0 (sem_numbers sems.now) }
{
    for s in sems {
        if sem.0 == s.0 {
            return true;
        }
    }
    false
}

/// Whether the task declares the semaphore.
#[tactic(auto, unfolding(rt_model::specs::Group::declares, rt_model::specs::Group::task))]
pub(crate) fn declares(set: &GroupSet, task: TaskNo, sem: SemNo) -> bool
    ensures { result ≡ groups.declares (group_in set.now) task.0 sem.0 }
{
    match set
        .parts
        .tasks
        .as_slice()
        .get(task.0.saturating_sub(1) as usize)
    {
        Some(task) => has_sem(task.uses.as_slice(), sem),
        None => false,
    }
}

/// Whether one of the tasks declares the semaphore.
fn is_declared(set: &GroupSet, tasks: &[TaskNo], sem: SemNo) -> bool
    ensures { result ≡ not (is_empty
        (filter (λ t. groups.declares (group_in set.now) t sem.0) (numbers tasks.now))) }
{
    for task in tasks {
        if declares(set, *task, sem) {
            return true;
        }
    }
    false
}

/// The semaphores that the tasks of a group declare.
pub fn sems_of(alloc: Global, set: &GroupSet, tasks: &[TaskNo]) -> Result<Vec<SemNo>, NoMemory>
    requires few { length set.now.parts.now.sems ≤ MOST_SEMS }
    requires tasks { numbers tasks.now ≡ groups.tasks (group_in set.now) }
    ensures { IfOk result (λ v. sem_numbers v.items ≡ declared_sems (group_in set.now)) }
{
    let mut sems = Vec::new(alloc);
    for i in 0..set.parts.sems.as_slice().len() {
        let sem = SemNo(i as u32 + 1);
        if is_declared(set, tasks, sem) {
            sems.push(sem)?;
        }
    }
    Ok(sems)
}
