//! The draft of parts that code made.
ghost use Rattle.std.specs.Prelude.{◌≡◌, map, IfOk};
ghost use Rattle.rt_task.specs.Answers.{Gives, kept};
ghost use Rattle.rt_task.specs.declared.Task.{Task};
ghost use Rattle.rt_task.specs.Draft as spec;
ghost use Rattle.rt_task.specs.Validity.{refusal_of};

use crate::rules::try_rules;
use rt_task::{
    Cluster, Draft, DraftCluster, DraftClusters, DraftDrive, DraftResv, DraftResvs, DraftStep,
    DraftSteps, DraftTask, DraftTasks, Drive, Name, Parts, Pieces, Resv, Sem, SemList, SemNos,
    SetStop, Setup, Slots, Step, Task, pieces_of,
};
use std::alloc::{AllocError, Global};

fn name_of(alloc: Global, name: &Name) -> Result<Name, AllocError>
    ensures { IfOk result (λ n. n ≡ name.now) }
{
    let bytes = Vec::from_slice(alloc, name.as_slice())?;
    Ok(Name::from_vec(bytes))
}

fn task_of(alloc: Global, t: &Task) -> Result<DraftTask, AllocError>
    ensures { IfOk result (λ p. p ≡ spec.draft_task t.now (spec.runs t.now.body)) }
{
    let name = name_of(alloc, &t.name)?;
    let uses = Vec::from_slice(alloc, t.uses.as_slice())?;
    let pieces = Pieces::from_vec(pieces_of(alloc, t.body.as_slice())?);
    Ok(DraftTask {
        number: t.number,
        name,
        cluster: u64::from(t.cluster.0),
        cost: t.cost,
        period: t.period,
        rel_deadline: t.rel_deadline,
        phase: t.phase,
        kind: t.kind,
        prio: u64::from(t.prio),
        enforce: t.enforce,
        uses: SemNos::from_vec(uses),
        resv: t.resv,
        pieces,
        early: t.early,
    })
}

fn tasks_of(alloc: Global, tasks: &[Task]) -> Result<Vec<DraftTask>, AllocError>
    ensures { IfOk result (λ v. v.items
        ≡ map (λ (t : Task). spec.draft_task t (spec.runs t.body)) tasks.now) }
{
    let mut found = Vec::new(alloc);
    for t in tasks {
        found.push(task_of(alloc, t)?)?;
    }
    Ok(found)
}

fn sem_of(alloc: Global, s: &Sem) -> Result<Sem, AllocError>
    ensures { IfOk result (λ x. x ≡ s.now) }
{
    let name = name_of(alloc, &s.name)?;
    Ok(Sem {
        name,
        protocol: s.protocol,
    })
}

fn sems_of(alloc: Global, sems: &[Sem]) -> Result<Vec<Sem>, AllocError>
    ensures { IfOk result (λ v. v.items ≡ sems.now) }
{
    let mut found = Vec::new(alloc);
    for s in sems {
        found.push(sem_of(alloc, s)?)?;
    }
    Ok(found)
}

fn resv_of(alloc: Global, r: &Resv) -> Result<DraftResv, AllocError>
    ensures { IfOk result (λ x. x ≡ spec.draft_resv r.now) }
{
    let name = name_of(alloc, &r.name)?;
    let slots = Vec::from_slice(alloc, r.slots.as_slice())?;
    Ok(DraftResv {
        name,
        cluster: u64::from(r.cluster.0),
        kind: r.kind,
        budget: r.budget,
        period: r.period,
        prio: u64::from(r.prio),
        slots: Slots::from_vec(slots),
    })
}

fn resvs_of(alloc: Global, resvs: &[Resv]) -> Result<Vec<DraftResv>, AllocError>
    ensures { IfOk result (λ v. v.items ≡ map spec.draft_resv resvs.now) }
{
    let mut found = Vec::new(alloc);
    for r in resvs {
        found.push(resv_of(alloc, r)?)?;
    }
    Ok(found)
}

fn cluster_of(c: Cluster) -> DraftCluster
    ensures { result ≡ spec.draft_cluster c }
{
    DraftCluster {
        cpus: u64::from(c.cpus),
        group: u64::from(c.group.0),
    }
}

fn clusters_of(alloc: Global, clusters: &[Cluster]) -> Result<Vec<DraftCluster>, AllocError>
    ensures { IfOk result (λ v. v.items ≡ map spec.draft_cluster clusters.now) }
{
    let mut found = Vec::new(alloc);
    for c in clusters {
        found.push(cluster_of(*c))?;
    }
    Ok(found)
}

fn step_of(s: Step) -> DraftStep
    ensures { result ≡ spec.draft_step s }
{
    DraftStep {
        cpu: u64::from(s.cpu.0),
        tick: s.tick.0,
        act: s.act,
    }
}

fn steps_of(alloc: Global, steps: &[Step]) -> Result<Vec<DraftStep>, AllocError>
    ensures { IfOk result (λ v. v.items ≡ map spec.draft_step steps.now) }
{
    let mut found = Vec::new(alloc);
    for s in steps {
        found.push(step_of(*s))?;
    }
    Ok(found)
}

fn drive_of(alloc: Global, drive: &Drive) -> Result<DraftDrive, AllocError>
    ensures { IfOk result (λ x. x ≡ spec.draft_drive drive.now) }
{
    match drive {
        Drive::Steps(steps) => {
            let found = steps_of(alloc, steps.as_slice())?;
            Ok(DraftDrive::Steps(DraftSteps::from_vec(found)))
        }
        Drive::Horizon(h) => Ok(DraftDrive::Horizon(*h)),
    }
}

fn draft_of(alloc: Global, p: &Parts) -> Result<Draft, AllocError>
    ensures { IfOk result (λ d. d ≡ spec.draft_of p.now) }
{
    let clusters = clusters_of(alloc, p.clusters.as_slice())?;
    let sems = sems_of(alloc, p.sems.as_slice())?;
    let resvs = resvs_of(alloc, p.resvs.as_slice())?;
    let tasks = tasks_of(alloc, p.tasks.as_slice())?;
    let drive = drive_of(alloc, &p.drive)?;
    Ok(Draft {
        plugin: p.plugin,
        clusters: DraftClusters::from_vec(clusters),
        sems: SemList::from_vec(sems),
        resvs: DraftResvs::from_vec(resvs),
        tasks: DraftTasks::from_vec(tasks),
        drive,
    })
}

/// A setup of these parts, or the first rule that they break, in the order of the kinds.
#[tactic(auto, unfolding(rt_task::specs::Validity::refusal_of))]
pub fn setup_of_parts(alloc: Global, parts: Parts) -> Result<Setup, SetStop>
    ensures { Gives (λ s. s) result (kept parts (refusal_of parts)) }
{
    let draft = draft_of(alloc, &parts)?;
    try_rules(alloc, &draft)?;
    Setup::of_valid(alloc, parts)
}
