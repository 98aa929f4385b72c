//! The clusters of processors.
ghost use Rattle.std.specs.Prelude.{◌≡◌, IfOk, IfErr};
ghost use Rattle.set_rules.specs.Ends.{ends_from};
ghost use Rattle.rt_task.specs.Lookups as lookups;

use rt_task::{Draft, DraftCluster, SetStop};
use std::alloc::Global;

/// The number after each cluster's last processor.
pub fn ends_of(alloc: Global, clusters: &[DraftCluster]) -> Result<Vec<u64>, SetStop>
    ensures ends { IfOk result (λ v. v.items ≡ ends_from 0 clusters.now) }
    ensures memory { IfErr result (λ e. e ≡ SetStop.NoMemory) }
{
    let mut ends = Vec::new(alloc);
    let mut end: u64 = 0;
    for c in clusters {
        let Some(next) = end.checked_add(c.cpus) else {
            return Err(SetStop::NoMemory);
        };
        end = next;
        ends.push(end)?;
    }
    Ok(ends)
}

#[tactic(auto, unfolding(rt_task::specs::Lookups::cluster_with))]
pub(super) fn cluster_with(d: &Draft, ends: &[u64], cpu: u64) -> u64
    requires { ends.now ≡ ends_from 0 d.now.clusters }
    ensures { result ≡ lookups.cluster_with d.now cpu }
{
    ends.partition_point(|end| *end <= cpu) as u64
}
