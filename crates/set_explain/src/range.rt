//! The rules on numbers.
ghost use Rattle.std.specs.Prelude.{◌≡◌, nat_lt, sum_by};
ghost use Rattle.rt_task.specs.declared.draft.DraftCluster as sets;
ghost use Rattle.rt_task.specs.RangeRules as ranges;
ghost use Rattle.set_explain.specs.RangeRules as tests;
ghost use Rattle.set_explain.specs.Rules.{broken};
ghost use Rattle.set_explain.specs.Shown.{shown};

use crate::rule::{Rule, first, unless};
use crate::words::{A_CLUSTER, A_PRIO, A_SPAN};
use rt_base::{MOST_CPUS, TICK_END};
use rt_task::{Draft, DraftCluster, DraftResv, DraftStep, DraftTask};
use set_rules::single::{
    act_in_range, allows_clusters, horizon_in_range, is_partitioned, is_prio, is_span,
    pieces_in_range, slots_in_range,
};

pub(crate) fn whole_range(d: &Draft) -> Option<Rule>
    ensures { shown result ≡ broken (tests.whole_range d.now) }
{
    first(&[
        unless(
            allows_clusters(d.plugin, d.clusters.as_slice().len()),
            "clusters",
            "one under GSN-EDF, one or more under other plugins",
        ),
        unless(horizon_in_range(&d.drive), "horizon", "1 tick or more"),
    ])
}

pub(crate) fn resv_range(d: &Draft, r: &DraftResv) -> Option<Rule>
    ensures { shown result ≡ broken (tests.resv_range d.now r.now) }
{
    let slots = slots_in_range(r.kind, r.period, r.budget, r.slots.as_slice());
    first(&[
        unless(is_span(r.period), "period", A_SPAN),
        unless(
            r.budget >= 1 && r.budget <= r.period,
            "budget",
            "from 1 tick to the period",
        ),
        unless(is_prio(r.prio), "prio", A_PRIO),
        unless(
            r.cluster < d.clusters.as_slice().len() as u64,
            "cluster",
            A_CLUSTER,
        ),
        unless(
            slots,
            "slots",
            "1 to 64 of them, in order and apart, each with a tick and within the period; the budget is their ticks together",
        ),
    ])
}

pub(crate) fn task_range(d: &Draft, p: &DraftTask) -> Option<Rule>
    ensures { shown result ≡ broken (tests.task_range d.now p.now) }
{
    first(&[
        unless(is_span(p.cost), "cost", A_SPAN),
        unless(is_span(p.period), "period", A_SPAN),
        unless(is_span(p.rel_deadline), "deadline", A_SPAN),
        unless(p.phase < TICK_END, "phase", "from 0 to 999999999999 ticks"),
        unless(is_prio(p.prio), "prio", A_PRIO),
        unless(
            p.cluster < d.clusters.as_slice().len() as u64,
            "cluster",
            A_CLUSTER,
        ),
        unless(
            pieces_in_range(p.pieces.as_slice()),
            "body",
            "work is of 1 to 1000 units, sleep of 1 to 999999999999 ticks",
        ),
    ])
}

/// The greatest group of the clusters; 0 where there is none.
#[tactic(auto, using(set_rules::proofs::RangeLaws::top_laws))]
fn groups_top(clusters: &[DraftCluster]) -> u64
    ensures { result ≡ ranges.groups_top clusters.now }
{
    let mut top: u64 = 0;
    for c in clusters {
        top = top.max(c.group);
    }
    top
}

fn group_follows(earlier: &[DraftCluster], group: u64) -> bool
    ensures { result ≡ ranges.group_follows earlier.now group }
{
    match earlier {
        [] => group == 0,
        _ => group == 0 || group - 1 <= groups_top(earlier),
    }
}

pub(crate) fn cluster_range(d: &Draft, earlier: &[DraftCluster], c: DraftCluster) -> Option<Rule>
    ensures { shown result ≡ broken (tests.cluster_range d.now earlier.now c) }
{
    first(&[
        unless(
            c.cpus >= 1 && c.cpus <= u64::from(MOST_CPUS),
            "cpus",
            "from 1 to 64",
        ),
        unless(
            !is_partitioned(d.plugin) || c.cpus == 1,
            "cpus",
            "1 under PSN-EDF, P-FP and P-RES",
        ),
        unless(
            group_follows(earlier, c.group),
            "group",
            "0 for the first cluster, then at most one more than any before",
        ),
    ])
}

/// Whether the clusters have more processors than this number says.
fn is_processor(clusters: &[DraftCluster], cpu: u64) -> bool
    ensures { result ≡ nat_lt cpu (sum_by (λ (c : sets.DraftCluster). c.cpus) clusters.now) }
{
    let mut left = cpu;
    for c in clusters {
        if left < c.cpus {
            return true;
        }
        left -= c.cpus;
    }
    false
}

#[tactic(auto, unfolding(rt_task::specs::Lookups::cpus))]
pub(crate) fn step_range(d: &Draft, s: DraftStep) -> Option<Rule>
    ensures { shown result ≡ broken (tests.step_range d.now s) }
{
    first(&[
        unless(
            is_processor(d.clusters.as_slice(), s.cpu),
            "processor",
            "the number of a processor; the first is 0",
        ),
        unless(s.tick < TICK_END, "tick", "from 0 to 999999999999"),
        unless(act_in_range(s.act), "sleep", A_SPAN),
    ])
}
