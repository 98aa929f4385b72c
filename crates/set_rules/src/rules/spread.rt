//! What the tasks that declare a semaphore have in common.
ghost use Rattle.std.specs.Prelude.{◌≡◌, ◌+◌, ◌==◌, ◌<◌, ℕ, [], length, map, vec_len, slice_index_or, IfOk, if◌then◌else◌};
ghost use Rattle.rt_base.specs.declared.SemNo.{SemNo};
ghost use Rattle.set_rules.specs.declared.rules.spread.Spread.{Spread};
ghost use Rattle.rt_task.specs.declared.draft.Draft.{Draft};
ghost use Rattle.rt_task.specs.Lookups as lookups;
ghost use Rattle.rt_task.specs.RuleWords.{has};
ghost use Rattle.rt_task.specs.SharingRules.{clusters_sharing};
ghost use Rattle.set_rules.specs.inside.Spreads.{spread_of, added};

use rt_base::SemNo;
use rt_task::Draft;
use std::alloc::{AllocError, Global};

/// The cluster of the first task that declares a semaphore, and whether all are of its cluster, and of its group.
#[derive(Clone, Copy)]
pub(super) struct Spread {
    pub(super) first: Option<u64>,
    pub(super) one_cluster: bool,
    pub(super) one_group: bool,
}

#[tactic(auto, unfolding(rt_task::specs::Lookups::group_of))]
pub(super) fn group_of(d: &Draft, cluster: u64) -> u64
    ensures { result ≡ lookups.group_of d.now cluster }
{
    match d.clusters.as_slice().get(cluster as usize) {
        None => 0,
        Some(k) => k.group,
    }
}

fn with_cluster(d: &Draft, s: Spread, cluster: u64) -> Spread
    ensures { result ≡ added d.now s cluster }
{
    match s.first {
        None => Spread {
            first: Some(cluster),
            one_cluster: true,
            one_group: true,
        },
        Some(first) => Spread {
            first: Some(first),
            one_cluster: s.one_cluster && cluster == first,
            one_group: s.one_group && group_of(d, cluster) == group_of(d, first),
        },
    }
}

fn add_at(d: &Draft, spreads: &mut [Spread], number: u32, cluster: u64)
    ensures { (i : ℕ) (e : Spread) → i < length spreads.old
        → slice_index_or spreads.new i e ≡ (if number == i + 1
        then added d.now (slice_index_or spreads.old i e) cluster
        else slice_index_or spreads.old i e) }
{
    if number >= 1 && number as usize <= spreads.len() {
        let i = number as usize - 1;
        spreads[i] = with_cluster(d, spreads[i], cluster);
    }
}

/// Adds a task of this cluster that declares these semaphores.
fn add_task(d: &Draft, spreads: &mut [Spread], uses: &[SemNo], cluster: u64)
    ensures { (i : ℕ) (e : Spread) → i < length spreads.old
        → slice_index_or spreads.new i e ≡ (if has (i + 1) (map (λ (s : SemNo). s.0) uses.now)
        then added d.now (slice_index_or spreads.old i e) cluster
        else slice_index_or spreads.old i e) }
{
    for s in uses {
        add_at(d, spreads, s.0, cluster);
    }
}

fn unused(alloc: Global, count: usize) -> Result<Vec<Spread>, AllocError>
    ensures count { IfOk result (λ v. vec_len v ≡ count) }
    ensures unused { IfOk result (λ v. (d : Draft) (i : ℕ) (e : Spread) → i < count
        → slice_index_or v.items i e ≡ spread_of d []) }
{
    let mut spreads = Vec::new(alloc);
    for i in 0..count {
        spreads.push(Spread {
            first: None,
            one_cluster: true,
            one_group: true,
        })?;
    }
    Ok(spreads)
}

/// For each semaphore, in one pass over the tasks.
pub(super) fn spreads_of(alloc: Global, d: &Draft) -> Result<Vec<Spread>, AllocError>
    ensures count { IfOk result (λ v. vec_len v ≡ length d.now.sems) }
    ensures spreads { IfOk result (λ v. (i : ℕ) (e : Spread) → i < length d.now.sems
        → slice_index_or v.items i e ≡ spread_of d.now (clusters_sharing d.now (i + 1))) }
{
    let mut spreads = unused(alloc, d.sems.as_slice().len())?;
    for p in d.tasks.as_slice() {
        add_task(d, spreads.as_mut_slice(), p.uses.as_slice(), p.cluster);
    }
    Ok(spreads)
}
