//! The ceilings of semaphores under P-FP, where a base key is that of a task's priority.
ghost use Rattle.std.specs.Prelude.{◌≡◌};
ghost use Rattle.rt_base.specs.TaskNos.{numbers};
ghost use Rattle.rt_model.specs.Blockers as blockers;
ghost use Rattle.rt_model.specs.Ceilings as ceilings;
ghost use Rattle.rt_model.specs.Group as groups;
ghost use Rattle.rt_task.specs.declared.PluginKind.TheVariants as plugins;
ghost use Rattle.why_lines.specs.GroupSets.{group_in};
ghost use Rattle.why_states.specs.inside.Keys.{highest_of, key_of_priority};

use crate::declared::declares;
use rt_base::{SemNo, TaskNo};
use rt_rules::Key;
use why_lines::GroupSet;

/// The key that a task has by its priority.
#[tactic(auto, unfolding(rt_model::specs::Group::task))]
fn priority_key(set: &GroupSet, task: TaskNo) -> Key
    ensures { result ≡ key_of_priority (group_in set.now) task.0 }
{
    let prio = match set
        .parts
        .tasks
        .as_slice()
        .get(task.0.saturating_sub(1) as usize)
    {
        Some(row) => row.prio,
        None => 0,
    };
    Key {
        band: 2,
        major: u64::from(prio),
        minor: task.0,
    }
}

/// The highest of these keys of tasks that declare a semaphore.
fn highest_key(set: &GroupSet, tasks: &[TaskNo], sem: SemNo) -> Key
    ensures { result ≡ highest_of (group_in set.now) sem.0 (numbers tasks.now) }
{
    let mut highest = Key::LOWEST;
    for task in tasks {
        if declares(set, *task, sem) {
            let key = priority_key(set, *task);
            if key.is_higher(highest) {
                highest = key;
            }
        }
    }
    highest
}

/// The ceiling of a semaphore under P-FP, of a group with these tasks.
pub(crate) fn ceiling_of(set: &GroupSet, tasks: &[TaskNo], sem: SemNo) -> Key
    requires { numbers tasks.now ≡ groups.tasks (group_in set.now) }
    ensures { (group_in set.now).setup.plugin ≡ plugins.PFp
        → result ≡ ceilings.ceiling (group_in set.now) sem.0 }
{
    highest_key(set, tasks, sem)
}

/// Whether one of two semaphores has the higher ceiling under P-FP; of equal ceilings the lower number is before.
#[tactic(auto, unfolding(rt_model::specs::Blockers::has_higher_ceiling))]
pub(crate) fn has_higher_ceiling(set: &GroupSet, tasks: &[TaskNo], sem: SemNo, other: SemNo) -> bool
    requires { numbers tasks.now ≡ groups.tasks (group_in set.now) }
    ensures { (group_in set.now).setup.plugin ≡ plugins.PFp
        → result ≡ blockers.has_higher_ceiling (group_in set.now) sem.0 other.0 }
{
    let own = ceiling_of(set, tasks, sem);
    let its = ceiling_of(set, tasks, other);
    own.is_higher(its) || !its.is_higher(own) && sem.0 < other.0
}
