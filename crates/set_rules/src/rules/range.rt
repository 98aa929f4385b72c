//! Numbers in range.
ghost use Rattle.std.specs.Prelude.{◌≡◌, ◌+◌, ◌<◌, ◌≤◌, ◌^◌, ◌==◌, ◌&&◌, ◌||◌, not, nat_lt, nat_le, List, map, length, IsTrue, IfSome, Some, [], if◌then◌else◌};
ghost use Rattle.std.specs.List.{list_all};
ghost use Rattle.rt_task.specs.declared.bad_set.SetKind.TheVariants as kinds;
ghost use Rattle.rt_task.specs.declared.bad_set.Part.TheVariants as parts;
ghost use Rattle.rt_task.specs.Refusals.{each, first, whole};
ghost use Rattle.rt_task.specs.RangeRules as rules;
ghost use Rattle.rt_task.specs.RangeRules.{groups_top};
ghost use Rattle.rt_task.specs.RuleWords as words;
ghost use Rattle.rt_task.specs.Lookups as lookups;
ghost use Rattle.rt_task.specs.Validity.{range_rows};
ghost use Rattle.rt_task.specs.declared.draft.DraftTask.{DraftTask};
ghost use Rattle.rt_task.specs.declared.draft.Draft.{Draft};
ghost use Rattle.rt_task.specs.Draft.{steps_of};
ghost use Rattle.rt_task.specs.declared.draft.DraftCluster.{DraftCluster};
ghost use Rattle.rt_task.specs.declared.draft.DraftResv.{DraftResv};
ghost use Rattle.rt_task.specs.declared.draft.DraftStep.{DraftStep};
ghost use Rattle.rt_task.specs.Answers.{Keeps};

use super::slots::slots_in_range;
use super::stop;
use rt_base::{MOST_CPUS, MOST_OPERATIONS, MOST_PRIO, TICK_END};
use rt_task::{
    Act, Draft, DraftCluster, DraftDrive, DraftResv, DraftStep, DraftTask, Op, Part, Piece,
    PluginKind, SetKind, SetStop,
};

/// A duration or a tick, in ticks, that is not 0 and below the limit of 10^12.
pub fn is_span(n: u64) -> bool
    ensures { result ≡ words.is_span n }
{
    n >= 1 && n < TICK_END
}

/// A priority number: from 1, the highest, to 511.
pub fn is_prio(n: u64) -> bool
    ensures { result ≡ words.is_prio n }
{
    n >= 1 && n <= u64::from(MOST_PRIO)
}

fn op_in_range(op: Op) -> bool
    ensures { result ≡ words.op_in_range op }
{
    match op {
        Op::Sleep(n) => is_span(n),
        _ => true,
    }
}

fn piece_in_range(piece: Piece) -> bool
    ensures { result ≡ words.piece_in_range piece }
{
    match piece {
        Piece::Works(n) => n >= 1 && n <= u64::from(MOST_OPERATIONS),
        Piece::Once(op) => op_in_range(op),
    }
}

/// Whether each Work is of 1 to 1,000 units, and each Sleep of a tick that `is_span` passes.
pub fn pieces_in_range(pieces: &[Piece]) -> bool
    ensures { result ≡ list_all words.piece_in_range pieces.now }
{
    pieces.iter().all(|piece| piece_in_range(*piece))
}

#[tactic(auto, unfolding(rt_task::specs::RangeRules::task_range))]
fn task_range(d: &Draft, p: &DraftTask) -> bool
    ensures { (earlier : List DraftTask) → result ≡ rules.task_range d.now earlier p.now }
{
    is_span(p.cost)
        && is_span(p.period)
        && is_span(p.rel_deadline)
        && p.phase < TICK_END
        && is_prio(p.prio)
        && p.cluster < d.clusters.as_slice().len() as u64
        && pieces_in_range(p.pieces.as_slice())
}

fn tasks_in_range(d: &Draft) -> Result<(), SetStop>
    ensures { Keeps result (each kinds.Range parts.Task (rules.task_range d.now) d.now.tasks) }
{
    for (i, p) in d.tasks.as_slice().iter().enumerate() {
        if !task_range(d, p) {
            return Err(stop(SetKind::Range, Part::Task, i));
        }
    }
    Ok(())
}

/// Whether a cluster has one processor under the plugin.
pub fn is_partitioned(plugin: PluginKind) -> bool
    ensures { result ≡ words.is_partitioned plugin }
{
    match plugin {
        PluginKind::GsnEdf | PluginKind::CEdf => false,
        PluginKind::PsnEdf | PluginKind::PFp | PluginKind::PRes => true,
    }
}

/// Whether the plugin has so many clusters: GSN-EDF one, the others one or more.
pub fn allows_clusters(plugin: PluginKind, n: usize) -> bool
    ensures { result ≡ words.allows_clusters plugin n }
{
    match plugin {
        PluginKind::GsnEdf => n == 1,
        _ => n > 0,
    }
}

/// A horizon is 1 or more; steps have none.
pub fn horizon_in_range(drive: &DraftDrive) -> bool
    ensures { result ≡ rules.horizon_in_range drive.now }
{
    match drive {
        DraftDrive::Steps(_) => true,
        DraftDrive::Horizon(h) => *h >= 1,
    }
}

#[tactic(auto, unfolding(rt_task::specs::RangeRules::whole_range))]
fn whole_in_range(d: &Draft) -> Result<(), SetStop>
    ensures { Keeps result (whole kinds.Range (rules.whole_range d.now)) }
{
    if allows_clusters(d.plugin, d.clusters.as_slice().len()) && horizon_in_range(&d.drive) {
        return Ok(());
    }
    Err(stop(SetKind::Range, Part::Whole, 0))
}

/// Whether a group follows those before it, of which the greatest is `top`, where there are any.
fn group_follows(is_first: bool, top: u64, group: u64) -> bool
    ensures { result ≡ (if is_first then group == 0 else nat_le group (top + 1)) }
{
    if is_first {
        group == 0
    } else {
        group == 0 || group - 1 <= top
    }
}

#[tactic(auto, unfolding(rt_task::specs::RangeRules::cluster_range), using(crate::proofs::RangeLaws::group_follows_top))]
fn cluster_range(plugin: PluginKind, is_first: bool, top: u64, c: &DraftCluster) -> bool
    ensures { (d : Draft) (earlier : List DraftCluster) → d.plugin ≡ plugin
        → is_first ≡ words.is_empty earlier → top ≡ groups_top earlier
        → result ≡ rules.cluster_range d earlier c.now }
{
    c.cpus >= 1
        && c.cpus <= u64::from(MOST_CPUS)
        && (!is_partitioned(plugin) || c.cpus == 1)
        && group_follows(is_first, top, c.group)
}

#[tactic(auto, using(crate::proofs::RangeLaws::top_laws))]
fn clusters_in_range(d: &Draft) -> Result<(), SetStop>
    ensures { Keeps result (each kinds.Range parts.Cluster
        (rules.cluster_range d.now) d.now.clusters) }
{
    let mut top: u64 = 0;
    for (i, c) in d.clusters.as_slice().iter().enumerate() {
        if !cluster_range(d.plugin, i == 0, top, c) {
            return Err(stop(SetKind::Range, Part::Cluster, i));
        }
        top = top.max(c.group);
    }
    Ok(())
}

#[tactic(auto, unfolding(rt_task::specs::RangeRules::resv_range))]
fn resv_range(d: &Draft, r: &DraftResv) -> bool
    ensures { (earlier : List DraftResv) → result ≡ rules.resv_range d.now earlier r.now }
{
    is_span(r.period)
        && r.budget >= 1
        && r.budget <= r.period
        && is_prio(r.prio)
        && r.cluster < d.clusters.as_slice().len() as u64
        && slots_in_range(r.kind, r.period, r.budget, r.slots.as_slice())
}

fn resvs_in_range(d: &Draft) -> Result<(), SetStop>
    ensures { Keeps result (each kinds.Range parts.Resv (rules.resv_range d.now) d.now.resvs) }
{
    for (i, r) in d.resvs.as_slice().iter().enumerate() {
        if !resv_range(d, r) {
            return Err(stop(SetKind::Range, Part::Resv, i));
        }
    }
    Ok(())
}

#[tactic(auto, unfolding(rt_task::specs::Lookups::cpus))]
pub(super) fn cpus_of(d: &Draft) -> Option<u64>
    ensures { IfSome result (λ n. n ≡ lookups.cpus d.now) }
{
    let mut sum: u64 = 0;
    for c in d.clusters.as_slice() {
        sum = sum.checked_add(c.cpus)?;
    }
    Some(sum)
}

/// Whether a Sleep of the act is of a tick that `is_span` passes.
pub fn act_in_range(act: Act) -> bool
    ensures { result ≡ words.act_in_range act }
{
    match act {
        Act::Do(op) => op_in_range(op),
        _ => true,
    }
}

#[tactic(auto, unfolding(rt_task::specs::RangeRules::step_range))]
fn step_range(cpus: u64, s: DraftStep) -> bool
    ensures { (d : Draft) (earlier : List DraftStep) → cpus ≡ lookups.cpus d
        → result ≡ rules.step_range d earlier s }
{
    s.cpu < cpus && s.tick < TICK_END && act_in_range(s.act)
}

fn steps_in_range(d: &Draft) -> Result<(), SetStop>
    ensures { Keeps result (each kinds.Range parts.Step
        (rules.step_range d.now) (steps_of d.now.drive)) }
{
    let DraftDrive::Steps(steps) = &d.drive else {
        return Ok(());
    };
    let Some(cpus) = cpus_of(d) else {
        return Err(SetStop::NoMemory);
    };
    for (i, s) in steps.as_slice().iter().enumerate() {
        if !step_range(cpus, *s) {
            return Err(stop(SetKind::Range, Part::Step, i));
        }
    }
    Ok(())
}

/// The rules of the kind Range.
pub(super) fn check_ranges(d: &Draft) -> Result<(), SetStop>
    ensures { Keeps result (first (range_rows d.now)) }
{
    whole_in_range(d)?;
    clusters_in_range(d)?;
    resvs_in_range(d)?;
    tasks_in_range(d)?;
    steps_in_range(d)
}
