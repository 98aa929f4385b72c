//! What the tasks that declare a semaphore have in common.
ghost use Rattle.std.specs.Prelude.{◌≡◌, ◌+◌, ◌&&◌, ◌==◌, length, map, IfOk};
ghost use Rattle.std.specs.List.{list_any, list_all};
ghost use Rattle.rt_base.specs.declared.SemNo as numbers;
ghost use Rattle.rt_task.specs.Lookups as lookups;
ghost use Rattle.rt_task.specs.RuleWords as words;
ghost use Rattle.rt_task.specs.SharingRules as rules;

use rt_base::SemNo;
use rt_task::{Draft, Protocol};
use std::alloc::{AllocError, Global};

fn is_among(uses: &[SemNo], number: u32) -> bool
    ensures { result ≡ words.has number (map (λ (s : numbers.SemNo). s.0) uses.now) }
{
    for s in uses {
        if s.0 == number {
            return true;
        }
    }
    false
}

/// The cluster of each task that declares the semaphore of this number, from 1.
#[tactic(auto, using(std::proofs::Common::append_assoc), unfolding(rt_task::specs::SharingRules::clusters_sharing))]
pub(crate) fn clusters_sharing(
    alloc: Global,
    d: &Draft,
    number: u32,
) -> Result<Vec<u64>, AllocError>
    ensures { IfOk result (λ v. v.items ≡ rules.clusters_sharing d.now number) }
{
    let tasks = d.tasks.as_slice().iter();
    tasks
        .filter(|p| is_among(p.uses.as_slice(), number))
        .map(|p| p.cluster)
        .collect::<Vec<u64>>(alloc)
}

fn are_all(found: &[u64], x: u64) -> bool
    ensures { result ≡ list_all (λ y. y == x) found.now }
{
    for y in found {
        if *y != x {
            return false;
        }
    }
    true
}

pub(crate) fn all_same(found: &[u64]) -> bool
    ensures { result ≡ words.all_same found.now }
{
    match found {
        [] => true,
        [x, rest @ ..] => are_all(rest, *x),
    }
}

#[tactic(auto, unfolding(rt_task::specs::Lookups::group_of))]
fn group_of(d: &Draft, cluster: u64) -> u64
    ensures { result ≡ lookups.group_of d.now cluster }
{
    match d.clusters.as_slice().get(cluster as usize) {
        None => 0,
        Some(k) => k.group,
    }
}

/// The groups of these clusters.
pub(crate) fn groups_of(alloc: Global, d: &Draft, clusters: &[u64]) -> Result<Vec<u64>, AllocError>
    ensures { IfOk result (λ v. v.items ≡ map (λ c. lookups.group_of d.now c) clusters.now) }
{
    let mut groups = Vec::new(alloc);
    for cluster in clusters {
        groups.push(group_of(d, *cluster))?;
    }
    Ok(groups)
}

#[tactic(auto, unfolding(rt_task::specs::Lookups::is_fmlp_sem))]
fn is_fmlp(d: &Draft, s: SemNo) -> bool
    ensures { result ≡ lookups.is_fmlp_sem d.now s.0 }
{
    match d.sems.as_slice().get(s.0.saturating_sub(1) as usize) {
        None => false,
        Some(x) => x.protocol == Protocol::Fmlp,
    }
}

fn has_fmlp(d: &Draft, uses: &[SemNo]) -> bool
    ensures { result ≡ list_any (λ (s : numbers.SemNo). lookups.is_fmlp_sem d.now s.0) uses.now }
{
    uses.iter().any(|s| is_fmlp(d, *s))
}

/// Whether a task of the cluster declares a semaphore under FMLP.
#[tactic(auto, unfolding(rt_task::specs::SharingRules::has_fmlp_users))]
pub(crate) fn has_fmlp_users(d: &Draft, cluster: u64) -> bool
    ensures { result ≡ rules.has_fmlp_users d.now cluster }
{
    let mut tasks = d.tasks.as_slice().iter();
    tasks.any(|p| p.cluster == cluster && has_fmlp(d, p.uses.as_slice()))
}
