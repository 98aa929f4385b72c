//! What stands under which plugin, and which tasks may share what.
ghost use Rattle.std.specs.Prelude.{◌≡◌, ◌+◌, ◌&&◌, ◌||◌, ◌==◌, ◌<◌, not, ℕ, List, length, map, IfOk, IsTrue, None, if◌then◌else◌};
ghost use Rattle.rt_task.specs.declared.Sem.{Sem};
ghost use Rattle.rt_task.specs.declared.bad_set.Part.TheVariants as parts;
ghost use Rattle.rt_task.specs.declared.bad_set.SetKind.TheVariants as kinds;
ghost use Rattle.rt_task.specs.declared.draft.Draft.{Draft};
ghost use Rattle.rt_task.specs.declared.draft.DraftResv.{DraftResv};
ghost use Rattle.rt_task.specs.declared.draft.DraftStep.{DraftStep};
ghost use Rattle.rt_task.specs.declared.draft.DraftTask.{DraftTask};
ghost use Rattle.rt_task.specs.Answers.{Keeps};
ghost use Rattle.rt_task.specs.Draft.{steps_of};
ghost use Rattle.set_rules.specs.Ends.{ends_from};
ghost use Rattle.rt_task.specs.Lookups as lookups;
ghost use Rattle.rt_task.specs.RangeRules.{resv_range};
ghost use Rattle.set_rules.specs.inside.NamesSeen.{has_number};
ghost use Rattle.rt_task.specs.Refusals.{each, first};
ghost use Rattle.rt_task.specs.RuleWords as words;
ghost use Rattle.rt_task.specs.SharingRules as rules;
ghost use Rattle.set_rules.specs.inside.Spreads.{spread_of};
ghost use Rattle.set_rules.specs.inside.Tables.{Knows, is_in_range};
ghost use Rattle.rt_task.specs.Validity.{sharing_rows};

use super::bodies::is_well_formed;
use super::ends::{cluster_with, ends_of};
use super::fmlp::fmlp_clusters;
use super::spread::{Spread, group_of, spreads_of};
use super::stop;
use super::tables::Tables;
use rt_base::{ResvNo, TaskNo};
use rt_task::{
    Act, Draft, DraftDrive, DraftResv, DraftStep, DraftTask, Kind, Part, PluginKind, Protocol, Sem,
    SetKind, SetStop,
};
use std::alloc::{AllocError, Global};
use std::collections::HashSet;

/// Whether the plugin is P-RES.
pub fn is_p_res(plugin: PluginKind) -> bool
    ensures { result ≡ words.is_p_res plugin }
{
    plugin == PluginKind::PRes
}

/// Whether the protocol stands under the plugin.
pub fn stands_under(protocol: Protocol, plugin: PluginKind) -> bool
    ensures { result ≡ words.stands_under protocol plugin }
{
    match (protocol, plugin) {
        (Protocol::Fmlp, PluginKind::PRes) => false,
        (Protocol::Fmlp, _) => true,
        (Protocol::Omlp, PluginKind::GsnEdf | PluginKind::CEdf) => true,
        (Protocol::Omlp, _) => false,
        (Protocol::Pcp | Protocol::Mpcp, PluginKind::PFp) => true,
        (Protocol::Pcp | Protocol::Mpcp, _) => false,
        (Protocol::Srp, PluginKind::PsnEdf) => true,
        (Protocol::Srp, _) => false,
    }
}

/// Whether the tasks that declare a semaphore of the protocol have to be of one cluster.
pub fn is_of_one_cluster(protocol: Protocol, plugin: PluginKind) -> bool
    ensures { result ≡ words.is_of_one_cluster protocol plugin }
{
    match (protocol, plugin) {
        (Protocol::Omlp | Protocol::Pcp | Protocol::Srp, _) => true,
        (Protocol::Fmlp, PluginKind::GsnEdf | PluginKind::CEdf) => true,
        _ => false,
    }
}

/// Whether SRP and FMLP keep apart, for a semaphore whose users are of this cluster.
fn stands_apart(protocol: Protocol, first: Option<u64>, fmlp: &HashSet<u64>) -> bool
    ensures { (d : Draft) → ((c : ℕ) → has_number fmlp.now c ≡ rules.has_fmlp_users d c)
        → result ≡ rules.stands_apart d protocol first }
{
    match (protocol, first) {
        (Protocol::Srp, Some(c)) => !fmlp.contains(&c),
        _ => true,
    }
}

#[tactic(auto, unfolding(rt_task::specs::SharingRules::sem_sharing))]
fn sem_sharing(d: &Draft, spread: Spread, fmlp: &HashSet<u64>, s: &Sem) -> bool
    requires { (c : ℕ) → has_number fmlp.now c ≡ rules.has_fmlp_users d.now c }
    ensures { (earlier : List Sem)
        → spread ≡ spread_of d.now (rules.clusters_sharing d.now (length earlier + 1))
        → result ≡ rules.sem_sharing d.now earlier s.now }
{
    let is_near = if is_of_one_cluster(s.protocol, d.plugin) {
        spread.one_cluster
    } else {
        spread.one_group
    };
    stands_under(s.protocol, d.plugin) && is_near && stands_apart(s.protocol, spread.first, fmlp)
}

fn sems_sharing(alloc: Global, d: &Draft) -> Result<(), SetStop>
    ensures { Keeps result (each kinds.Sharing parts.Sem (rules.sem_sharing d.now) d.now.sems) }
{
    let spreads = spreads_of(alloc, d)?;
    let fmlp = fmlp_clusters(alloc, d)?;
    let sems = d.sems.as_slice();
    for (i, s) in sems.iter().enumerate() {
        if !sem_sharing(d, spreads[i], &fmlp, s) {
            return Err(stop(SetKind::Sharing, Part::Sem, i));
        }
    }
    Ok(())
}

#[tactic(auto, unfolding(rt_task::specs::SharingRules::resv_sharing))]
fn resv_sharing(d: &Draft, tables: &Tables, r: &DraftResv) -> bool
    requires { IsTrue (is_in_range r.now) }
    ensures { (earlier : List DraftResv) → Knows tables.now earlier
        → result ≡ rules.resv_sharing d.now earlier r.now }
{
    is_p_res(d.plugin) && tables.fits(r)
}

fn resvs_sharing(alloc: Global, d: &Draft) -> Result<(), SetStop>
    requires { each kinds.Range parts.Resv (resv_range d.now) d.now.resvs ≡ None }
    ensures { Keeps result (each kinds.Sharing parts.Resv (rules.resv_sharing d.now) d.now.resvs) }
{
    let resvs = d.resvs.as_slice();
    let mut tables = Tables::new(alloc);
    for (i, r) in resvs.iter().enumerate() {
        if !resv_sharing(d, &tables, r) {
            return Err(stop(SetKind::Sharing, Part::Resv, i));
        }
        tables.add(r)?;
    }
    Ok(())
}

#[tactic(auto, unfolding(rt_task::specs::Lookups::cluster_of_resv))]
fn cluster_of_resv(d: &Draft, r: ResvNo) -> u64
    ensures { result ≡ lookups.cluster_of_resv d.now r.0 }
{
    match d.resvs.as_slice().get(r.0.saturating_sub(1) as usize) {
        None => 0,
        Some(x) => x.cluster,
    }
}

/// Whether a task of the cluster has the reservation that it needs: under P-RES one of the cluster, else none.
pub fn resv_fits(d: &Draft, cluster: u64, resv: Option<ResvNo>) -> bool
    ensures { result ≡ rules.resv_fits d.now (words.is_p_res d.now.plugin) cluster resv }
{
    match resv {
        None => !is_p_res(d.plugin),
        Some(r) => is_p_res(d.plugin) && cluster_of_resv(d, r) == cluster,
    }
}

#[tactic(auto, unfolding(rt_task::specs::SharingRules::task_sharing))]
fn task_sharing(alloc: Global, d: &Draft, p: &DraftTask) -> Result<bool, AllocError>
    ensures { IfOk result (λ b. (earlier : List DraftTask)
        → b ≡ rules.task_sharing d.now earlier p.now) }
{
    let pieces = p.pieces.as_slice();
    let is_body = pieces.is_empty() || is_well_formed(alloc, d, p.uses.as_slice(), pieces)?;
    Ok(resv_fits(d, p.cluster, p.resv) && is_body && (!p.early || p.kind == Kind::Periodic))
}

fn tasks_sharing(alloc: Global, d: &Draft) -> Result<(), SetStop>
    ensures { Keeps result (each kinds.Sharing parts.Task (rules.task_sharing d.now) d.now.tasks) }
{
    let tasks = d.tasks.as_slice();
    for (i, p) in tasks.iter().enumerate() {
        if !task_sharing(alloc, d, p)? {
            return Err(stop(SetKind::Sharing, Part::Task, i));
        }
    }
    Ok(())
}

#[tactic(auto, unfolding(rt_task::specs::Lookups::cluster_of_task))]
fn cluster_of_task(d: &Draft, t: TaskNo) -> u64
    ensures { result ≡ lookups.cluster_of_task d.now t.0 }
{
    match d.tasks.as_slice().get(t.0.saturating_sub(1) as usize) {
        None => 0,
        Some(p) => p.cluster,
    }
}

/// Whether an arrival is at a processor of the group of its task.
pub fn act_is_in_group(d: &Draft, ends: &[u64], cpu: u64, act: Act) -> bool
    requires { ends.now ≡ ends_from 0 d.now.clusters }
    ensures { result ≡ rules.act_is_in_group d.now cpu act }
{
    match act {
        Act::Arrive(t) => {
            group_of(d, cluster_of_task(d, t)) == group_of(d, cluster_with(d, ends, cpu))
        }
        _ => true,
    }
}

#[tactic(auto, unfolding(rt_task::specs::SharingRules::step_sharing))]
fn step_sharing(d: &Draft, ends: &[u64], s: DraftStep) -> bool
    requires { ends.now ≡ ends_from 0 d.now.clusters }
    ensures { (earlier : List DraftStep) → result ≡ rules.step_sharing d.now earlier s }
{
    act_is_in_group(d, ends, s.cpu, s.act)
}

fn steps_sharing(alloc: Global, d: &Draft) -> Result<(), SetStop>
    ensures { Keeps result (each kinds.Sharing parts.Step
        (rules.step_sharing d.now) (steps_of d.now.drive)) }
{
    let DraftDrive::Steps(steps) = &d.drive else {
        return Ok(());
    };
    let steps = steps.as_slice();
    let ends = ends_of(alloc, d.clusters.as_slice())?;
    for (i, s) in steps.iter().enumerate() {
        if !step_sharing(d, ends.as_slice(), *s) {
            return Err(stop(SetKind::Sharing, Part::Step, i));
        }
    }
    Ok(())
}

/// The rules of the kind Sharing.
pub(super) fn check_sharing(alloc: Global, d: &Draft) -> Result<(), SetStop>
    requires { each kinds.Range parts.Resv (resv_range d.now) d.now.resvs ≡ None }
    ensures { Keeps result (first (sharing_rows d.now)) }
{
    sems_sharing(alloc, d)?;
    resvs_sharing(alloc, d)?;
    tasks_sharing(alloc, d)?;
    steps_sharing(alloc, d)
}
