//! The rules on what stands under which plugin, and on what tasks share.
ghost use Rattle.std.specs.Prelude.{◌≡◌, ◌+◌, ◌<◌, ◌^◌, length, map, IfOk, IfErr};
ghost use Rattle.rt_task.specs.Bodies.{at_release, goes_on};
ghost use Rattle.rt_task.specs.Lookups as lookups;
ghost use Rattle.rt_task.specs.Lookups.{is_stacked_sem};
ghost use Rattle.rt_task.specs.RuleWords as words;
ghost use Rattle.rt_task.specs.SharingRules as rules;
ghost use Rattle.std.specs.Prelude.{if◌then◌else◌, ◌||◌, not, Some};
ghost use Rattle.set_explain.specs.Rules.{broken};
ghost use Rattle.set_explain.specs.SharingRules as tests;
ghost use Rattle.set_explain.specs.Shown.{shown};

use crate::rule::{Rule, first, unless};
use crate::tables::fits_all;
use crate::users::{all_same, clusters_sharing, groups_of, has_fmlp_users};
use rt_task::{Draft, DraftResv, DraftStep, DraftTask, Kind, Protocol, Sem, SetStop};
use set_rules::single::{
    act_is_in_group, ends_of, is_of_one_cluster, is_p_res, is_well_formed, resv_fits, stands_under,
};
use std::alloc::{AllocError, Global};

fn stands_apart(d: &Draft, protocol: Protocol, clusters: &[u64]) -> bool
    ensures { result ≡ rules.stands_apart d.now protocol (words.first_of clusters.now) }
{
    match (protocol, clusters) {
        (Protocol::Srp, [first, ..]) => !has_fmlp_users(d, *first),
        _ => true,
    }
}

/// Whether the tasks that share a semaphore may: these are their clusters.
fn may_share(
    alloc: Global,
    d: &Draft,
    protocol: Protocol,
    clusters: &[u64],
) -> Result<bool, AllocError>
    ensures { IfOk result (λ b. b ≡ (if words.is_of_one_cluster protocol d.now.plugin
        then words.all_same clusters.now
        else words.all_same (map (lookups.group_of d.now) clusters.now))) }
{
    if is_of_one_cluster(protocol, d.plugin) {
        return Ok(all_same(clusters));
    }
    let groups = groups_of(alloc, d, clusters)?;
    Ok(all_same(&groups))
}

/// The semaphore of this number, from 1.
pub(crate) fn sem_sharing(
    alloc: Global,
    d: &Draft,
    number: u32,
    s: &Sem,
) -> Result<Option<Rule>, AllocError>
    ensures { IfOk result (λ r. shown r ≡ broken (tests.sem_sharing d.now number s.now)) }
{
    let clusters = clusters_sharing(alloc, d, number)?;
    let shared = may_share(alloc, d, s.protocol, &clusters)?;
    Ok(first(&[
        unless(
            stands_under(s.protocol, d.plugin),
            "protocol",
            "OMLP under GSN-EDF and C-EDF, PCP and MPCP under P-FP, SRP under PSN-EDF, FMLP under all but P-RES",
        ),
        unless(
            shared,
            "users",
            "all in one group, and in one cluster under OMLP, PCP and SRP, and under FMLP with GSN-EDF and C-EDF",
        ),
        unless(
            stands_apart(d, s.protocol, &clusters),
            "users",
            "no task of their cluster declares a semaphore under FMLP beside SRP",
        ),
    ]))
}

pub(crate) fn resv_sharing(d: &Draft, earlier: &[DraftResv], r: &DraftResv) -> Option<Rule>
    ensures { shown result ≡ broken (tests.resv_sharing d.now earlier.now r.now) }
{
    first(&[
        unless(
            is_p_res(d.plugin),
            "plugin",
            "P-RES has reservations, no other plugin",
        ),
        unless(
            fits_all(earlier, r),
            "kind",
            "in a cluster all are tables, of one period and with no tick in common, or none is",
        ),
    ])
}

fn has_body(alloc: Global, d: &Draft, p: &DraftTask) -> Result<bool, AllocError>
    ensures { IfOk result (λ b. b ≡ (words.is_empty p.now.pieces
        || goes_on (words.sem_numbers p.now) (is_stacked_sem d.now) p.now.pieces (Some at_release))) }
{
    let pieces = p.pieces.as_slice();
    Ok(pieces.is_empty() || is_well_formed(alloc, d, p.uses.as_slice(), pieces)?)
}

fn may_be_early(p: &DraftTask) -> bool
    ensures { result ≡ (not p.now.early || words.is_periodic p.now.kind) }
{
    !p.early || p.kind == Kind::Periodic
}

pub(crate) fn task_sharing(
    alloc: Global,
    d: &Draft,
    p: &DraftTask,
) -> Result<Option<Rule>, AllocError>
    ensures { IfOk result (λ r. shown r ≡ broken (tests.task_sharing d.now p.now)) }
{
    let is_body = has_body(alloc, d, p)?;
    Ok(first(&[
        unless(
            resv_fits(d, p.cluster, p.resv),
            "resv",
            "under P-RES a reservation of the task's cluster, under other plugins none",
        ),
        unless(
            is_body,
            "body",
            "well formed: what is locked is in uses and given back, the last first under PCP and SRP, which alone nest; lock, sleep and end stand outside npon and npoff, sleep and end hold nothing; end stands once, as the last",
        ),
        unless(may_be_early(p), "early", "true for periodic tasks alone"),
    ]))
}

pub(crate) fn step_sharing(alloc: Global, d: &Draft, s: DraftStep) -> Result<Option<Rule>, SetStop>
    ensures rule { IfOk result (λ r. shown r ≡ broken (tests.step_sharing d.now s)) }
    ensures memory { IfErr result (λ e. e ≡ SetStop.NoMemory) }
{
    let ends = ends_of(alloc, d.clusters.as_slice())?;
    Ok(first(&[unless(
        act_is_in_group(d, &ends, s.cpu, s.act),
        "processor",
        "an arrival is at a processor of its task's group",
    )]))
}
