//! The clusters of a group: of each the eligible tasks by key, and what its processors run and are linked to.
#![tactic(auto)]

ghost use Rattle.std.specs.Prelude.{◌≡◌, ◌<◌, ◌≤◌, ◌++◌, [], ◌∷◌, ◌&&◌, if◌then◌else◌, true, not, Some, IfOk, IfSome, IsSome};
ghost use Rattle.std.specs.Prelude.{length, map, option_map, slice_index, sum_by, vec_capacity, vec_len};
ghost use Rattle.rt_base.specs.TaskNos.{number_of_task};
ghost use Rattle.rt_base.specs.declared.TheConstants.{MOST_CLUSTERS, MOST_CPUS};
ghost use Rattle.rt_task.specs.declared.Cluster as sets;
ghost use Rattle.link_table.specs.Linked.{irq_reply, link_of, runs_on};
ghost use Rattle.cluster_table.specs.Clusters.{KeptCluster, after_take, homes_from, left_by, relinked, rows_from, with_key};
ghost use Rattle.cluster_table.specs.Marks.{StayUnmarked};
ghost use Rattle.cluster_table.specs.Table.{HasProcessor, HasTask, IsThere, changed_at, cluster_at, cluster_numbers};

mod cluster;
mod marks;
mod pending;
mod placing;
mod rows;

use cluster::ClusterState;
use link_table::Links;
pub use marks::PlacedMarks;
use ready_heap::ReadyHeap;
use rows::{homes_of, states_of};
use rt_base::{ClusterNo, CpuNo, GroupNo, NoMemory, TaskNo};
use rt_rules::{ByKey, Key, Reply};
use rt_task::Cluster;
use std::alloc::Global;
use std::marker::Model;

/// The clusters of one group of a set, by their numbers in the set, and the cluster of each processor.
///
/// Contracts see each cluster of the group; where a cluster is of another group nothing is kept. After `open` no call
/// takes memory.
#[derive(Drop)]
pub struct ClusterTable {
    clusters: Vec<Option<ClusterState>>,
    homes: Vec<ClusterNo>,
    // The clusters whose links are to be placed anew, each once.
    changed: Vec<ClusterNo>,
}

impl Model for ClusterTable {
    ghost use Rattle.std.specs.Prelude.{length, map, vec_capacity};
    ghost use Rattle.cluster_table.specs.Table as seen;

    ghost Value = { seen.Table };

    ghost view = { λ a. record {
      homes = seen.cluster_numbers a.homes.items;
      clusters = seen.clusters_seen a.clusters.items;
    } };

    ghost invariant = { λ a.
        seen.AreListed a.clusters.items (seen.cluster_numbers a.changed.items)
        (vec_capacity a.changed) };
}

impl ClusterTable {
    /// The group's clusters among those of a set, before anything is eligible, for tasks whose numbers are below the
    /// room.
    pub fn open(
        alloc: Global,
        rows: &[Cluster],
        group: GroupNo,
        room: u32,
    ) -> Result<ClusterTable, NoMemory>
        requires few { length rows.now ≤ MOST_CLUSTERS }
        requires cpus { sum_by (λ (k : sets.Cluster). k.cpus) rows.now ≤ MOST_CPUS }
        ensures { IfOk result (λ t. t ≡ record {
          homes = homes_from 0 rows.now;
          clusters = rows_from group.0 room 0 rows.now;
        }) }
    {
        let clusters = states_of(alloc, rows, group, room)?;
        let homes = homes_of(alloc, rows)?;
        let changed = Vec::with_capacity(alloc, rows.len())?;
        Ok(ClusterTable {
            clusters,
            homes,
            changed,
        })
    }

    /// The cluster of a processor.
    pub fn home(&self, cpu: CpuNo) -> ClusterNo
        requires { cpu.0 < length self.now.homes }
        ensures { result.0 ≡ slice_index self.now.homes cpu.0 }
    {
        self.homes[cpu.0 as usize]
    }

    /// The heap of the cluster's eligible tasks.
    pub fn heap(&self, c: ClusterNo) -> Option<&ReadyHeap<ByKey>>
        requires { IsThere self.now c.0 }
        ensures { (k : KeptCluster) → cluster_at self.now c.0 ≡ Some k
            → IfSome result (λ h. h.now.keys ≡ k.keys) × IsSome result }
    {
        let cluster = self.clusters[c.0 as usize].as_ref()?;
        Some(cluster.heap())
    }

    /// The links of the cluster's processors.
    pub fn links(&self, c: ClusterNo) -> Option<&Links>
        requires { IsThere self.now c.0 }
        ensures { (k : KeptCluster) → cluster_at self.now c.0 ≡ Some k
            → IfSome result (λ l. l.now ≡ k.linked) × IsSome result }
    {
        let cluster = self.clusters[c.0 as usize].as_ref()?;
        Some(cluster.links())
    }

    /// The task that the processor is linked to, `None` where there is none.
    pub fn linked(&self, c: ClusterNo, q: CpuNo) -> Option<TaskNo>
        requires { HasProcessor self.now c.0 q.0 }
        ensures { (k : KeptCluster) → cluster_at self.now c.0 ≡ Some k
            → number_of_task result ≡ link_of k.linked q.0 }
    {
        let cluster = self.clusters[c.0 as usize].as_ref()?;
        cluster.linked(q)
    }

    /// What the processor runs.
    pub fn runs(&self, c: ClusterNo, q: CpuNo) -> Option<TaskNo>
        requires { HasProcessor self.now c.0 q.0 }
        ensures { (k : KeptCluster) → cluster_at self.now c.0 ≡ Some k
            → number_of_task result ≡ runs_on k.linked q.0 }
    {
        let cluster = self.clusters[c.0 as usize].as_ref()?;
        cluster.runs(q)
    }

    /// Gives a task of the cluster this key, or says that it is not eligible. The links follow at `place_changed`.
    pub fn set(&mut self, c: ClusterNo, task: TaskNo, key: Option<Key>)
        requires { HasTask self.old c.0 task.0 }
        ensures { self.new ≡ changed_at c.0 (with_key task.0 key) self.old }
    {
        let Some(cluster) = &mut self.clusters[c.0 as usize] else {
            return;
        };
        let was_placed = cluster.is_placed();
        cluster.set(task, key);
        let is_placed = cluster.is_placed();
        list_unplaced(&mut self.changed, c, was_placed, is_placed);
    }

    /// Takes an interrupt at a processor of the cluster, where `np` says whether what it runs is non-preemptive.
    pub fn take_irq(&mut self, c: ClusterNo, q: CpuNo, np: bool) -> Reply
        requires { HasProcessor self.old c.0 q.0 }
        ensures reply { (k : KeptCluster) → cluster_at self.old c.0 ≡ Some k
            → result ≡ irq_reply k.linked q.0 np }
        ensures changed { self.new ≡ changed_at c.0 (after_take q.0 np) self.old }
    {
        let Some(cluster) = &mut self.clusters[c.0 as usize] else {
            return Reply::Quiet;
        };
        cluster.take_irq(q, np)
    }

    /// Has a processor of the cluster run nothing.
    pub fn leave(&mut self, c: ClusterNo, q: CpuNo)
        requires { HasProcessor self.old c.0 q.0 }
        ensures { self.new ≡ changed_at c.0 (left_by q.0) self.old }
    {
        let Some(cluster) = &mut self.clusters[c.0 as usize] else {
            return;
        };
        cluster.leave(q);
    }

    /// Links the first of the eligible tasks in each cluster, and marks those that it places anew. It looks only at those in
    /// which others have become the first ones: where they are the same, the links stay as they are, whatever runs.
    #[inline(always)]
    pub fn place_changed(&mut self, placed: &mut PlacedMarks)
        ensures clusters { self.new ≡ record self.old {
          clusters = map (option_map relinked) self.old.clusters;
        } }
        ensures others { StayUnmarked placed.old placed.new self.old self.new }
    {
        while let Some(c) = self.changed.pop() {
            placed.mark(c);
            if let Some(cluster) = &mut self.clusters[c.0 as usize] {
                cluster.place();
            }
        }
    }
}

/// Writes the cluster behind the others, where it was placed and no longer is.
fn list_unplaced(changed: &mut Vec<ClusterNo>, c: ClusterNo, was_placed: bool, is_placed: bool)
    requires { was_placed ≡ true → vec_len changed.old < vec_capacity changed.old }
    ensures numbers { cluster_numbers changed.new.items
        ≡ (if was_placed && not is_placed then cluster_numbers changed.old.items ++ c.0 ∷ []
        else cluster_numbers changed.old.items) }
    ensures room { vec_capacity changed.new ≡ vec_capacity changed.old }
{
    if was_placed && !is_placed {
        changed.push_reserved(c);
    }
}
