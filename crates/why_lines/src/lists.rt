//! The tasks, reservations and declared semaphores of a group, by number.
ghost use Rattle.std.specs.Prelude.{◌≡◌, ◌≤◌, IfOk, length, map, not};
ghost use Rattle.rt_base.specs.TaskNos.{numbers};
ghost use Rattle.rt_base.specs.declared.ResvNo as resvs;
ghost use Rattle.rt_base.specs.declared.TheConstants.{MOST_RESVS, MOST_TASKS};
ghost use Rattle.rt_model.specs.Group as groups;
ghost use Rattle.chart_texts.specs.Charts as charts;
ghost use Rattle.why_lines.specs.GroupSets.{group_in};

use crate::pieces::GroupSet;
use rt_base::{ClusterNo, NoMemory, ResvNo, TaskNo};
use std::alloc::Global;

/// Whether a cluster is of the group.
#[tactic(auto, unfolding(rt_model::specs::Group::in_group, rt_model::specs::Group::cluster))]
fn is_in_group(set: &GroupSet, cluster: ClusterNo) -> bool
    ensures { result ≡ groups.in_group (group_in set.now) cluster.0 }
{
    match set.parts.clusters.as_slice().get(cluster.0 as usize) {
        Some(row) => row.group.0 == set.group.0,
        None => set.group.0 == 0,
    }
}

/// The cluster of a task.
#[tactic(auto, unfolding(rt_model::specs::Group::home, rt_model::specs::Group::task))]
pub fn home_of(set: &GroupSet, task: TaskNo) -> ClusterNo
    ensures { result.0 ≡ groups.home (group_in set.now) task.0 }
{
    match set
        .parts
        .tasks
        .as_slice()
        .get(task.0.saturating_sub(1) as usize)
    {
        Some(task) => task.cluster,
        None => ClusterNo(0),
    }
}

/// The relative deadline and the cost of a task.
#[tactic(auto, unfolding(rt_model::specs::Group::task))]
pub fn limits_of(set: &GroupSet, task: TaskNo) -> (u64, u64)
    ensures deadline { result.0 ≡ (groups.task (group_in set.now) task.0).rel_deadline }
    ensures cost { result.1 ≡ (groups.task (group_in set.now) task.0).cost }
{
    match set
        .parts
        .tasks
        .as_slice()
        .get(task.0.saturating_sub(1) as usize)
    {
        Some(task) => (task.rel_deadline, task.cost),
        None => (0, 0),
    }
}

/// The reservation that serves a task, 0 for none.
#[tactic(auto, unfolding(rt_model::specs::Group::task, rt_model::specs::Group::served_by))]
pub fn server_of(set: &GroupSet, task: TaskNo) -> ResvNo
    ensures { result.0 ≡ groups.served_by (group_in set.now) task.0 }
{
    match set
        .parts
        .tasks
        .as_slice()
        .get(task.0.saturating_sub(1) as usize)
    {
        Some(task) => match task.resv {
            Some(resv) => resv,
            None => ResvNo(0),
        },
        None => ResvNo(0),
    }
}

/// The cluster of a reservation.
#[tactic(auto, unfolding(rt_model::specs::Group::resv))]
fn resv_home(set: &GroupSet, resv: ResvNo) -> ClusterNo
    ensures { result.0 ≡ (groups.resv (group_in set.now) resv.0).cluster.0 }
{
    match set
        .parts
        .resvs
        .as_slice()
        .get(resv.0.saturating_sub(1) as usize)
    {
        Some(resv) => resv.cluster,
        None => ClusterNo(0),
    }
}

/// The tasks of the group.
#[tactic(auto, unfolding(rt_model::specs::Group::tasks))]
pub fn tasks_of(alloc: Global, set: &GroupSet) -> Result<Vec<TaskNo>, NoMemory>
    requires { length set.now.parts.now.tasks ≤ MOST_TASKS }
    ensures { IfOk result (λ v. numbers v.items ≡ groups.tasks (group_in set.now)) }
{
    let mut tasks = Vec::new(alloc);
    for i in 0..set.parts.tasks.as_slice().len() {
        let task = TaskNo(i as u32 + 1);
        if is_in_group(set, home_of(set, task)) {
            tasks.push(task)?;
        }
    }
    Ok(tasks)
}

/// The reservations of the group.
#[tactic(auto, unfolding(chart_texts::specs::Charts::group_resvs))]
pub fn resvs_of(alloc: Global, set: &GroupSet) -> Result<Vec<ResvNo>, NoMemory>
    requires { length set.now.parts.now.resvs ≤ MOST_RESVS }
    ensures { IfOk result (λ v. map (λ (r : resvs.ResvNo). r.0) v.items
        ≡ charts.group_resvs (group_in set.now)) }
{
    let mut resvs = Vec::new(alloc);
    for i in 0..set.parts.resvs.as_slice().len() {
        let resv = ResvNo(i as u32 + 1);
        if is_in_group(set, resv_home(set, resv)) {
            resvs.push(resv)?;
        }
    }
    Ok(resvs)
}
