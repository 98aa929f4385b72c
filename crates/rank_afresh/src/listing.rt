//! Lists of the tasks that a move touches.
ghost use Rattle.std.specs.Prelude.{◌≡◌, ◌+◌, ◌≤◌, ◌<◌, ◌++◌, [], ◌∷◌, length, option_map, vec_capacity, vec_len};
ghost use Rattle.rt_base.specs.TaskNos.{number_of_task, numbers};
ghost use Rattle.rt_base.specs.declared.ClusterNo as ids;
ghost use Rattle.rt_base.specs.declared.TheConstants.{MOST_TASKS};
ghost use Rattle.rt_plays.specs.Limits.{IsInLimits};
ghost use Rattle.rt_model.specs.Group.{tasks};
ghost use Rattle.rt_rules.specs.Placing.{tasks_in};
ghost use Rattle.group_core.specs.Facts.{tasks_of_some};
ghost use Rattle.group_core.specs.Looked.{looked, named};

use group_core::Looks;
use rt_base::{ClusterNo, GroupNo, TaskNo};
use rt_task::Parts;

/// How many tasks an act names one by one, at most.
pub(crate) const NAMED: usize = 4;

/// Adds the task, if there is one.
fn add_any(list: &mut Vec<TaskNo>, task: Option<TaskNo>)
    requires { vec_len list.old < vec_capacity list.old }
    ensures items { numbers list.new.items
        ≡ numbers list.old.items ++ tasks_in (number_of_task task ∷ []) }
    ensures len { vec_len list.new ≤ vec_len list.old + 1 }
    ensures capacity { vec_capacity list.new ≡ vec_capacity list.old }
{
    if let Some(task) = task {
        list.push_reserved(task);
    }
}

/// Lists the tasks that an act has touched and named one by one.
fn list_named(looks: Looks, list: &mut Vec<TaskNo>)
    requires { 4 ≤ vec_capacity list.old }
    ensures items { numbers list.new.items ≡ named looks }
    ensures len { vec_len list.new ≤ 4 }
    ensures capacity { vec_capacity list.new ≡ vec_capacity list.old }
{
    list.clear();
    add_any(list, looks.task);
    add_any(list, looks.before);
    add_any(list, looks.after);
    add_any(list, looks.served);
}

/// Adds all tasks of the cluster, if there is one.
fn add_cluster(parts: &Parts, cluster: Option<ClusterNo>, list: &mut Vec<TaskNo>)
    requires tasks { length parts.now.tasks ≤ MOST_TASKS }
    requires room { vec_len list.old + length parts.now.tasks ≤ vec_capacity list.old }
    ensures items { let c = option_map (λ (x : ids.ClusterNo). x.0) cluster in
        numbers list.new.items ≡ numbers list.old.items ++ tasks_of_some parts.now c }
    ensures capacity { vec_capacity list.new ≡ vec_capacity list.old }
{
    let Some(home) = cluster else {
        return;
    };
    for (i, task) in parts.tasks.as_slice().iter().enumerate() {
        if task.cluster.0 == home.0 {
            list.push_reserved(TaskNo(i as u32 + 1));
        }
    }
}

/// Lists the tasks that an act has touched.
pub(crate) fn list_looks(parts: &Parts, looks: Looks, list: &mut Vec<TaskNo>)
    requires tasks { length parts.now.tasks ≤ MOST_TASKS }
    requires room { length parts.now.tasks + 4 ≤ vec_capacity list.old }
    ensures items { numbers list.new.items ≡ looked parts.now looks }
    ensures capacity { vec_capacity list.new ≡ vec_capacity list.old }
{
    list_named(looks, list);
    add_cluster(parts, looks.cluster, list);
}

/// Lists all tasks of the group.
pub(crate) fn list_group(parts: &Parts, group: GroupNo, list: &mut Vec<TaskNo>)
    requires limits { IsInLimits parts.now }
    requires room { length parts.now.tasks ≤ vec_capacity list.old }
    ensures items { numbers list.new.items
        ≡ tasks (record { setup = parts.now; number = group.0 }) }
    ensures capacity { vec_capacity list.new ≡ vec_capacity list.old }
{
    list.clear();
    let clusters = parts.clusters.as_slice();
    for (i, task) in parts.tasks.as_slice().iter().enumerate() {
        if clusters[task.cluster.0 as usize].group.0 == group.0 {
            list.push_reserved(TaskNo(i as u32 + 1));
        }
    }
}
