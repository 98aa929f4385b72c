//! The limits of a set.
ghost use Rattle.std.specs.Prelude.{◌≡◌, ◌<◌, ◌≤◌, nat_le, sum_by, MatchOption};
ghost use Rattle.rt_task.specs.declared.draft.DraftCluster as sets;
ghost use Rattle.set_explain.specs.Rules.{broken};
ghost use Rattle.set_explain.specs.Shown.{shown};
ghost use Rattle.set_explain.specs.SizeRules as tests;

use crate::rule::{Rule, first, unless};
use crate::words::AT_MOST_64;
use rt_base::{MOST_CLUSTERS, MOST_CPUS, MOST_RESVS, MOST_SEMS, MOST_TASKS};
use rt_task::{Draft, DraftCluster, DraftTask};
use set_rules::single::{body_fits, horizon_fits};

/// How many processors the clusters have, if that is not more than a set may have.
fn cpus_in(clusters: &[DraftCluster]) -> Option<u64>
    ensures { MatchOption result
        (MOST_CPUS < sum_by (λ (c : sets.DraftCluster). c.cpus) clusters.now)
        (λ n. (n ≡ sum_by (λ (c : sets.DraftCluster). c.cpus) clusters.now)
        × (n ≤ MOST_CPUS)) }
{
    let mut left = u64::from(MOST_CPUS);
    for c in clusters {
        if c.cpus > left {
            return None;
        }
        left -= c.cpus;
    }
    Some(u64::from(MOST_CPUS) - left)
}

#[tactic(auto, unfolding(rt_task::specs::Lookups::cpus))]
pub(crate) fn whole_size(d: &Draft) -> Option<Rule>
    ensures { shown result ≡ broken (tests.whole_size d.now) }
{
    let clusters = d.clusters.as_slice();
    let cpus = cpus_in(clusters);
    let fits = match cpus {
        Some(cpus) => horizon_fits(&d.drive, cpus),
        None => true,
    };
    first(&[
        unless(
            clusters.len() <= MOST_CLUSTERS as usize,
            "clusters",
            AT_MOST_64,
        ),
        unless(
            cpus.is_some(),
            "cpus",
            "at most 64 in all clusters together",
        ),
        unless(
            d.tasks.as_slice().len() <= MOST_TASKS as usize,
            "tasks",
            "at most 1024",
        ),
        unless(
            d.sems.as_slice().len() <= MOST_SEMS as usize,
            "sems",
            "at most 256",
        ),
        unless(
            d.resvs.as_slice().len() <= MOST_RESVS as usize,
            "resvs",
            AT_MOST_64,
        ),
        unless(
            fits,
            "steps, horizon",
            "at most 1000000 steps; a horizon counts 18 for each processor and tick",
        ),
    ])
}

pub(crate) fn task_size(p: &DraftTask) -> Option<Rule>
    ensures { shown result ≡ broken (tests.task_size p.now) }
{
    first(&[unless(
        body_fits(p.pieces.as_slice()),
        "body",
        "at most 1000 operations, each unit of work counted",
    )])
}
