//! One cluster, whose links are placed anew where others are the first of its eligible tasks.
ghost use Rattle.std.specs.Prelude.{◌≡◌, ◌<◌, true, IfOk, length};
ghost use Rattle.rt_base.specs.TaskNos.{number_of_task};
ghost use Rattle.link_table.specs.Linked.{IsOfCluster, irq_reply, link_of, runs_on};
ghost use Rattle.cluster_table.specs.Clusters.{IsStable, after_take, fresh, left_by, relinked, with_key};
ghost use Rattle.cluster_table.specs.Placed.{as_placed};

use crate::pending::Pending;
use crate::placing;
use link_table::Links;
use ready_heap::ReadyHeap;
use ready_queue::ReadyQueue;
use rt_base::{CpuNo, NoMemory, TaskNo};
use rt_rules::{ByKey, Key, Reply};
use std::alloc::Global;
use std::marker::Model;

/// Whether both are none, or the same key.
fn is_same(a: Option<Key>, b: Option<Key>) -> bool
    ensures { result ≡ true → a ≡ b }
{
    a == b
}

/// The eligible tasks of a cluster, and the links and runs of its processors.
#[derive(Drop)]
pub(crate) struct ClusterState {
    queue: ReadyQueue,
    links: Links,
    // The first of the eligible tasks, while all of them are placed.
    top: Vec<TaskNo>,
    pending: Pending,
}

impl Model for ClusterState {
    ghost use Rattle.std.specs.Prelude.{◌≡◌, ◌≤◌, length, vec_capacity};
    ghost use Rattle.link_table.specs.Linked.{IsSound};
    ghost use Rattle.cluster_table.specs.Pending.{IsPending, cluster_of, is_nothing};
    ghost use Rattle.cluster_table.specs.Placed as seen;

    ghost Value = { seen.PlacedCluster };

    ghost view = { λ a. record {
      cluster = cluster_of a.queue a.links;
      is_placed = is_nothing a.pending;
    } };

    ghost invariant = { λ a. (a.queue.most ≡ length a.links.runs)
        × (a.queue.most ≤ vec_capacity a.top)
        × IsSound a.links
        × IsPending a.pending (cluster_of a.queue a.links) };
}

impl ClusterState {
    /// Processors from `first` on, and nothing that is eligible, for tasks whose numbers are below the room.
    pub(crate) fn new(
        alloc: Global,
        first: CpuNo,
        cpus: u32,
        room: u32,
    ) -> Result<ClusterState, NoMemory>
        ensures kept { IfOk result (λ k. k ≡ as_placed (fresh first.0 cpus room)) }
        ensures stable { IsStable (fresh first.0 cpus room) }
    {
        let queue = ReadyQueue::new(alloc, cpus, room)?;
        let links = Links::new(alloc, first, cpus)?;
        let top = Vec::with_capacity(alloc, cpus as usize)?;
        Ok(ClusterState {
            queue,
            links,
            top,
            pending: Pending::Nothing,
        })
    }

    /// The heap of the eligible tasks.
    pub(crate) fn heap(&self) -> &ReadyHeap<ByKey>
        ensures { result.now.keys ≡ self.now.cluster.keys }
    {
        self.queue.heap()
    }

    /// The links of the processors.
    pub(crate) fn links(&self) -> &Links
        ensures { result.now ≡ self.now.cluster.linked }
    {
        &self.links
    }

    /// The task that the processor is linked to, `None` where there is none.
    pub(crate) fn linked(&self, q: CpuNo) -> Option<TaskNo>
        requires { IsOfCluster self.now.cluster.linked q.0 }
        ensures { number_of_task result ≡ link_of self.now.cluster.linked q.0 }
    {
        self.links.linked(q)
    }

    /// What the processor runs.
    pub(crate) fn runs(&self, q: CpuNo) -> Option<TaskNo>
        requires { IsOfCluster self.now.cluster.linked q.0 }
        ensures { number_of_task result ≡ runs_on self.now.cluster.linked q.0 }
    {
        self.links.runs(q)
    }

    /// Gives the task this key, or says that it is not eligible. The links stay placed where the first of the eligible
    /// tasks are the same ones. Where it has this key, nothing is moved.
    pub(crate) fn set(&mut self, task: TaskNo, key: Option<Key>)
        requires { task.0 < length self.old.cluster.keys }
        ensures cluster { self.new.cluster ≡ with_key task.0 key self.old.cluster }
        ensures placed { self.new.is_placed ≡ true → self.old.is_placed ≡ true }
    {
        if is_same(self.queue.heap().key(task), key) {
            return;
        }
        let change = self.queue.set(task, key);
        self.pending = self.pending.after(change);
    }

    /// Takes an interrupt at the processor, where `np` says whether what it runs is non-preemptive. Where the reply is
    /// `Runs` or `Idles`, the processor then runs its link.
    pub(crate) fn take_irq(&mut self, q: CpuNo, np: bool) -> Reply
        requires { IsOfCluster self.old.cluster.linked q.0 }
        ensures reply { result ≡ irq_reply self.old.cluster.linked q.0 np }
        ensures cluster { self.new.cluster ≡ after_take q.0 np self.old.cluster }
        ensures placed { self.new.is_placed ≡ self.old.is_placed }
        ensures stable { self.new.is_placed ≡ true → IsStable self.new.cluster }
    {
        self.links.take_irq(q, np)
    }

    /// Has the processor run nothing.
    pub(crate) fn leave(&mut self, q: CpuNo)
        requires { IsOfCluster self.old.cluster.linked q.0 }
        ensures cluster { self.new.cluster ≡ left_by q.0 self.old.cluster }
        ensures placed { self.new.is_placed ≡ self.old.is_placed }
        ensures stable { self.new.is_placed ≡ true → IsStable self.new.cluster }
    {
        self.links.leave(q);
    }

    /// Whether the links follow from the eligible tasks and from what runs.
    pub(crate) fn is_placed(&self) -> bool
        ensures flag { result ≡ self.now.is_placed }
        ensures stable { self.now.is_placed ≡ true → IsStable self.now.cluster }
    {
        self.pending.is_nothing()
    }

    /// Links the first of the eligible tasks.
    pub(crate) fn place(&mut self)
        ensures cluster { self.new ≡ record {
          cluster = relinked self.old.cluster;
          is_placed = true;
        } }
        ensures stable { IsStable self.new.cluster }
    {
        placing::place(&self.queue, &mut self.links, &mut self.top, self.pending);
        self.pending = Pending::Nothing;
    }
}
