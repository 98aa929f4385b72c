//! What the parts of a setup say of a group and its semaphores.
ghost use Rattle.std.specs.Prelude.{◌≡◌, ◌≤◌, ◌&&◌, ◌∷◌, ◌++◌, [], if◌then◌else◌, length, map, IfOk, unwrap_or, option_map};
ghost use Rattle.rt_base.specs.TaskNos.{numbers};
ghost use Rattle.rt_rules.specs.KeyOrder.{lowest_key};
ghost use Rattle.rt_rules.specs.Keys.{highest};
ghost use Rattle.rt_rules.specs.Numbers.{has, first};
ghost use Rattle.rt_model.specs.Group.{cpus, declares, home, in_group, protocol, users};
ghost use Rattle.sem_table.specs.Opened.{group_in, pcp_home, prio_key};

use rt_base::{ClusterNo, GroupNo, NoMemory, SemNo, TaskNo};
use rt_rules::Key;
use rt_task::{Cluster, Parts, Protocol, Task};
use std::alloc::Global;

/// Whether the cluster is one of the group.
#[tactic(auto, unfolding(rt_model::specs::Group::in_group, rt_model::specs::Group::cluster))]
pub fn is_of_group(parts: &Parts, group: GroupNo, c: ClusterNo) -> bool
    ensures { result ≡ in_group (group_in parts.now group.0) c.0 }
{
    match parts.clusters.as_slice().get(c.0 as usize) {
        Some(cluster) => cluster.group.0 == group.0,
        None => group.0 == 0,
    }
}

// Whether the list has the semaphore.
fn has_sem(sems: &[SemNo], sem: u32) -> bool
    ensures { result ≡ has sem (map (λ n. n.0) sems.now) }
{
    for s in sems {
        if sem == s.0 {
            return true;
        }
    }
    false
}

// Whether the task of that number is one of the group and declares the semaphore.
#[tactic(auto, unfolding(rt_model::specs::Group::home, rt_model::specs::Group::declares, rt_model::specs::Group::task))]
fn is_user(parts: &Parts, group: GroupNo, task: u32, sem: u32) -> bool
    requires first { 1 ≤ task }
    requires last { task ≤ length parts.now.tasks }
    ensures { let g = group_in parts.now group.0 in
        result ≡ in_group g (home g task) && declares g task sem }
{
    let row = &parts.tasks.as_slice()[task as usize - 1];
    is_of_group(parts, group, row.cluster) && has_sem(row.uses.as_slice(), sem)
}

// Adds the task of that number where it is a user.
fn add_user(
    users: &mut Vec<TaskNo>,
    parts: &Parts,
    group: GroupNo,
    task: u32,
    sem: u32,
) -> Result<(), NoMemory>
    requires first { 1 ≤ task }
    requires last { task ≤ length parts.now.tasks }
    ensures { let g = group_in parts.now group.0 in
        IfOk result (λ _. numbers users.new.items ≡ numbers users.old.items ++
        (if in_group g (home g task) && declares g task sem then task ∷ [] else [])) }
{
    if is_user(parts, group, task, sem) {
        users.push(TaskNo(task))?;
    }
    Ok(())
}

/// The tasks of the group that declare the semaphore; `count` is the number of tasks.
#[tactic(auto, using(crate::proofs::Opening::opening))]
pub fn users_of(
    alloc: Global,
    parts: &Parts,
    group: GroupNo,
    count: u32,
    sem: u32,
) -> Result<Vec<TaskNo>, NoMemory>
    requires { count ≡ length parts.now.tasks }
    ensures { IfOk result (λ v. numbers v.items ≡ users (group_in parts.now group.0) sem) }
{
    let mut users = Vec::new(alloc);
    for i in 0..count {
        add_user(&mut users, parts, group, i + 1, sem)?;
    }
    Ok(users)
}

// The key of a task by its priority number.
#[tactic(auto, unfolding(rt_model::specs::Group::task))]
fn prio_key_of(parts: &Parts, group: GroupNo, task: TaskNo) -> Key
    ensures { result ≡ prio_key (group_in parts.now group.0) task.0 }
{
    let position = (task.0 as usize).saturating_sub(1);
    let prio = match parts.tasks.as_slice().get(position) {
        Some(row) => row.prio,
        None => 0,
    };
    Key {
        band: 2,
        major: prio as u64,
        minor: task.0,
    }
}

/// The highest of the keys of these tasks by their priority numbers.
pub fn ceiling(parts: &Parts, group: GroupNo, users: &[TaskNo]) -> Key
    ensures { result ≡ highest lowest_key
        (map (prio_key (group_in parts.now group.0)) (numbers users.now)) }
{
    let mut best = Key::LOWEST;
    for t in users {
        let key = prio_key_of(parts, group, *t);
        if key.is_higher(best) {
            best = key;
        }
    }
    best
}

/// How many processors the cluster has.
#[tactic(auto, unfolding(rt_model::specs::Group::cpus, rt_model::specs::Group::cluster))]
pub fn cpus_of(parts: &Parts, group: GroupNo, c: ClusterNo) -> u32
    ensures { result ≡ cpus (group_in parts.now group.0) c.0 }
{
    match parts.clusters.as_slice().get(c.0 as usize) {
        Some(cluster) => cluster.cpus,
        None => 0,
    }
}

/// The cluster of the first of these tasks, cluster 0 where there is none.
#[tactic(auto, unfolding(rt_model::specs::Group::home, rt_model::specs::Group::task))]
pub fn home_of(parts: &Parts, group: GroupNo, users: &[TaskNo]) -> ClusterNo
    ensures { result.0 ≡ unwrap_or
        (option_map (home (group_in parts.now group.0)) (first (numbers users.now))) 0 }
{
    match users.first() {
        Some(t) => {
            let position = (t.0 as usize).saturating_sub(1);
            match parts.tasks.as_slice().get(position) {
                Some(row) => row.cluster,
                None => ClusterNo(0),
            }
        }
        None => ClusterNo(0),
    }
}

/// The protocol of the semaphore of that number.
#[tactic(auto, unfolding(rt_model::specs::Group::protocol, rt_model::specs::Group::sem))]
pub fn protocol_of(parts: &Parts, group: GroupNo, sem: u32) -> Protocol
    ensures { result ≡ protocol (group_in parts.now group.0) sem }
{
    let position = sem.saturating_sub(1) as usize;
    match parts.sems.as_slice().get(position) {
        Some(row) => row.protocol,
        None => Protocol::Fmlp,
    }
}

/// The cluster of the semaphore of that number, where it is a PCP semaphore.
#[tactic(auto, unfolding(rt_model::specs::Semaphores::cluster_of))]
pub fn pcp_home_of(
    alloc: Global,
    parts: &Parts,
    group: GroupNo,
    count: u32,
    sem: u32,
) -> Result<Option<u32>, NoMemory>
    requires { count ≡ length parts.now.tasks }
    ensures { IfOk result (λ h. h ≡ pcp_home (group_in parts.now group.0) sem) }
{
    match protocol_of(parts, group, sem) {
        Protocol::Pcp => {
            let users = users_of(alloc, parts, group, count, sem)?;
            Ok(Some(home_of(parts, group, users.as_slice()).0))
        }
        _ => Ok(None),
    }
}
