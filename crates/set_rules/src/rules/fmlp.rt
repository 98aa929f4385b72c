//! The clusters in which a task declares an FMLP semaphore.
ghost use Rattle.std.specs.Prelude.{◌≡◌, ◌&&◌, ◌||◌, ◌==◌, not, ℕ, IfOk, OnOk};
ghost use Rattle.std.specs.List.{list_any};
ghost use Rattle.rt_base.specs.declared.SemNo.{SemNo};
ghost use Rattle.rt_task.specs.Lookups.{is_fmlp_sem};
ghost use Rattle.set_rules.specs.inside.NamesSeen.{has_number};
ghost use Rattle.rt_task.specs.SharingRules.{has_fmlp_users};

use rt_base::SemNo;
use rt_task::{Draft, DraftTask, Protocol};
use std::alloc::{AllocError, Global};
use std::collections::HashSet;

#[tactic(auto, unfolding(rt_task::specs::Lookups::is_fmlp_sem))]
fn is_fmlp(d: &Draft, s: SemNo) -> bool
    ensures { result ≡ is_fmlp_sem d.now s.0 }
{
    match d.sems.as_slice().get(s.0.saturating_sub(1) as usize) {
        None => false,
        Some(x) => x.protocol == Protocol::Fmlp,
    }
}

fn declares_fmlp(d: &Draft, p: &DraftTask) -> bool
    ensures { result ≡ list_any (λ (s : SemNo). is_fmlp_sem d.now s.0) p.now.uses }
{
    p.uses.as_slice().iter().any(|s| is_fmlp(d, *s))
}

fn add_cluster(clusters: &mut HashSet<u64>, cluster: u64) -> Result<(), AllocError>
    ensures { OnOk result ((c : ℕ)
        → has_number clusters.new c ≡ (cluster == c || has_number clusters.old c)) }
{
    clusters.insert(cluster)?;
    Ok(())
}

fn add_user(d: &Draft, clusters: &mut HashSet<u64>, p: &DraftTask) -> Result<(), AllocError>
    ensures { OnOk result ((c : ℕ)
        → has_number clusters.new c ≡ ((p.now.cluster == c
        && list_any (λ (s : SemNo). is_fmlp_sem d.now s.0) p.now.uses) || has_number clusters.old c)) }
{
    if declares_fmlp(d, p) {
        add_cluster(clusters, p.cluster)
    } else {
        Ok(())
    }
}

/// In one pass over the tasks.
#[tactic(auto, unfolding(rt_task::specs::SharingRules::has_fmlp_users))]
pub(super) fn fmlp_clusters(alloc: Global, d: &Draft) -> Result<HashSet<u64>, AllocError>
    ensures { IfOk result (λ r. (c : ℕ) → has_number r c ≡ has_fmlp_users d.now c) }
{
    let mut clusters = HashSet::new(alloc);
    for p in d.tasks.as_slice() {
        add_user(d, &mut clusters, p)?;
    }
    Ok(clusters)
}
