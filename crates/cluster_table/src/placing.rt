//! The links that follow from the first of a cluster's eligible tasks.
ghost use Rattle.std.specs.Prelude.{◌≡◌, ◌≤◌, length, vec_capacity};
ghost use Rattle.rt_base.specs.TaskNos.{number_of_task};
ghost use Rattle.rt_rules.specs.Placing.{is_of, tasks_in};
ghost use Rattle.link_table.specs.Linked.{IsSound};
ghost use Rattle.cluster_table.specs.Clusters.{relinked};
ghost use Rattle.cluster_table.specs.Pending.{cluster_of, IsPending};

use crate::pending::Pending;
use link_table::Links;
use ready_queue::ReadyQueue;
use rt_base::TaskNo;

/// Whether a processor runs the task, if there is one.
fn runs_any(links: &Links, task: Option<TaskNo>) -> bool
    ensures { result ≡ is_of (tasks_in links.now.runs) (number_of_task task) }
{
    match task {
        Some(task) => links.is_running(task),
        None => false,
    }
}

/// Places all of the first tasks, which are written to `top`.
fn place_all(queue: &ReadyQueue, links: &mut Links, top: &mut Vec<TaskNo>)
    requires fits { queue.now.most ≡ length links.old.runs }
    requires room { queue.now.most ≤ vec_capacity top.old }
    ensures placed { links.new ≡ (relinked (cluster_of queue.now links.old)).linked }
    ensures sound { IsSound links.new }
    ensures same_room { vec_capacity top.old ≤ vec_capacity top.new }
{
    queue.copy_first(top);
    links.place(top.as_slice());
}

/// Links the first tasks, where this has become of them since the links were placed. Where one was exchanged for
/// another that runs nowhere, the other links stay as they are.
pub(crate) fn place(queue: &ReadyQueue, links: &mut Links, top: &mut Vec<TaskNo>, pending: Pending)
    requires fits { queue.now.most ≡ length links.old.runs }
    requires room { queue.now.most ≤ vec_capacity top.old }
    requires sound { IsSound links.old }
    requires pending { IsPending pending (cluster_of queue.now links.old) }
    ensures placed { links.new ≡ (relinked (cluster_of queue.now links.old)).linked }
    ensures sound { IsSound links.new }
    ensures same_room { vec_capacity top.old ≤ vec_capacity top.new }
{
    match pending {
        Pending::Nothing => {}
        Pending::Several => place_all(queue, links, top),
        Pending::One(change) => {
            if runs_any(links, change.added) {
                place_all(queue, links, top);
            } else {
                links.exchange(change.removed, change.added);
            }
        }
    }
}
