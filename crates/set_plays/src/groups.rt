//! The groups of a set: whose the processors are.
ghost use Rattle.std.specs.Prelude.{◌≡◌, ◌++◌, IfOk, OnOk, replicate};
ghost use Rattle.set_plays.specs.Groups.{cpu_groups};

use rt_base::{GroupNo, NoMemory};
use rt_task::Cluster;
use std::alloc::Global;

/// Adds the group, once for each of `count` processors.
fn put_group(groups: &mut Vec<GroupNo>, group: GroupNo, count: u32) -> Result<(), NoMemory>
    ensures { OnOk result (groups.new.items ≡ groups.old.items ++ replicate count group) }
{
    for _ in 0..count {
        groups.push(group)?;
    }
    Ok(())
}

/// The group of each processor, by rising number.
pub(crate) fn groups_of_cpus(alloc: Global, clusters: &[Cluster]) -> Result<Vec<GroupNo>, NoMemory>
    ensures { IfOk result (λ v. v.items ≡ cpu_groups clusters.now) }
{
    let mut groups = Vec::new(alloc);
    for cluster in clusters {
        put_group(&mut groups, cluster.group, cluster.cpus)?;
    }
    Ok(groups)
}
