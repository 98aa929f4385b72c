//! The clusters of a group, and the clusters of processors, as the set lists them.
ghost use Rattle.std.specs.Prelude.{◌≡◌, ◌+◌, ◌^◌, ◌<◌, ◌≤◌, ◌++◌, IfOk, OnOk, length, map, option_map, replicate, sum_by};
ghost use Rattle.rt_base.specs.declared.TheConstants.{MOST_CLUSTERS, MOST_CPUS};
ghost use Rattle.rt_task.specs.declared.Cluster as sets;
ghost use Rattle.cluster_table.specs.Clusters.{homes_from, rows_from};
ghost use Rattle.cluster_table.specs.Placed.{as_placed};
ghost use Rattle.cluster_table.specs.Table.{cluster_numbers};

use crate::cluster::ClusterState;
use rt_base::{ClusterNo, CpuNo, GroupNo, NoMemory};
use rt_task::Cluster;
use std::alloc::Global;

/// The state of each cluster of the group, and none for those of other groups.
pub(crate) fn states_of(
    alloc: Global,
    rows: &[Cluster],
    group: GroupNo,
    room: u32,
) -> Result<Vec<Option<ClusterState>>, NoMemory>
    requires { sum_by (λ (k : sets.Cluster). k.cpus) rows.now ≤ MOST_CPUS }
    ensures { IfOk result (λ s. s.items
        ≡ map (option_map as_placed) (rows_from group.0 room 0 rows.now)) }
{
    let mut states = Vec::new(alloc);
    let mut first = 0;
    for row in rows {
        let state = if row.group.0 == group.0 {
            Some(ClusterState::new(alloc, CpuNo(first), row.cpus, room)?)
        } else {
            None
        };
        states.push(state)?;
        first += row.cpus;
    }
    Ok(states)
}

/// Adds the cluster at the end, once for each of its `cpus` processors.
fn put_homes(homes: &mut Vec<ClusterNo>, c: ClusterNo, cpus: u32) -> Result<(), NoMemory>
    ensures { OnOk result (cluster_numbers homes.new.items
        ≡ cluster_numbers homes.old.items ++ replicate cpus c.0) }
{
    for _ in 0..cpus {
        homes.push(c)?;
    }
    Ok(())
}

/// The cluster of each processor of the set.
pub(crate) fn homes_of(alloc: Global, rows: &[Cluster]) -> Result<Vec<ClusterNo>, NoMemory>
    requires { length rows.now ≤ MOST_CLUSTERS }
    ensures { IfOk result (λ h. cluster_numbers h.items ≡ homes_from 0 rows.now) }
{
    let mut homes = Vec::new(alloc);
    for (c, row) in rows.iter().enumerate() {
        put_homes(&mut homes, ClusterNo(c as u32), row.cpus)?;
    }
    Ok(homes)
}
