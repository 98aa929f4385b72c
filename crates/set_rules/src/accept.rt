//! Drafts that no rule refuses, written out as parts.
ghost use Rattle.std.specs.Prelude.{◌≡◌, ◌++◌, ◌<◌, ◌^◌, map, flat_map, replicate, IfOk, OnOk};
ghost use Rattle.rt_task.specs.Answers.{Gives, accepted};
ghost use Rattle.rt_task.specs.Draft as spec;
ghost use Rattle.rt_task.specs.Validity.{whole_refusal};

use crate::rules::try_rules;
use rt_base::{ClusterNo, CpuNo, GroupNo, Tick};
use rt_task::{
    Cluster, ClusterList, Draft, DraftCluster, DraftDrive, DraftResv, DraftStep, DraftTask, Drive,
    Op, Ops, Parts, Piece, Resv, ResvList, SetStop, Setup, Step, StepList, Task, TaskList,
};
use std::alloc::{AllocError, Global};

/// A number in 32 bits. The rules keep each within them; one that does not fit is answered as if memory ran out.
fn narrow(n: u64) -> Result<u32, AllocError>
    ensures { IfOk result (λ m. m ≡ n) }
{
    match u32::try_from(n) {
        Ok(m) => Ok(m),
        Err(_) => Err(AllocError),
    }
}

fn push_works(ops: &mut Vec<Op>, n: u64) -> Result<(), AllocError>
    ensures { OnOk result (ops.new.items ≡ ops.old.items ++ replicate n Op.Work) }
{
    for _i in 0..n {
        ops.push(Op::Work)?;
    }
    Ok(())
}

fn push_piece(ops: &mut Vec<Op>, piece: Piece) -> Result<(), AllocError>
    ensures { OnOk result (ops.new.items ≡ ops.old.items ++ spec.operations piece) }
{
    match piece {
        Piece::Works(n) => push_works(ops, n),
        Piece::Once(op) => {
            ops.push(op)?;
            Ok(())
        }
    }
}

fn operations_of(alloc: Global, pieces: &[Piece]) -> Result<Vec<Op>, AllocError>
    ensures { IfOk result (λ v. v.items ≡ flat_map spec.operations pieces.now) }
{
    let mut ops = Vec::new(alloc);
    for piece in pieces {
        push_piece(&mut ops, *piece)?;
    }
    Ok(ops)
}

fn task_of(alloc: Global, p: DraftTask) -> Result<Task, AllocError>
    ensures { IfOk result (λ t. t ≡ spec.task_of p) }
{
    let body = operations_of(alloc, p.pieces.as_slice())?;
    let cluster = narrow(p.cluster)?;
    let prio = narrow(p.prio)?;
    Ok(Task {
        number: p.number,
        name: p.name,
        cluster: ClusterNo(cluster),
        cost: p.cost,
        period: p.period,
        rel_deadline: p.rel_deadline,
        phase: p.phase,
        kind: p.kind,
        prio,
        enforce: p.enforce,
        uses: p.uses,
        resv: p.resv,
        body: Ops::from_vec(body),
        early: p.early,
    })
}

fn tasks_of(alloc: Global, tasks: Vec<DraftTask>) -> Result<Vec<Task>, AllocError>
    ensures { IfOk result (λ v. v.items ≡ map spec.task_of tasks.items) }
{
    let mut found = Vec::new(alloc);
    for p in tasks {
        found.push(task_of(alloc, p)?)?;
    }
    Ok(found)
}

fn resv_of(r: DraftResv) -> Result<Resv, AllocError>
    ensures { IfOk result (λ x. x ≡ spec.resv_of r) }
{
    let cluster = narrow(r.cluster)?;
    let prio = narrow(r.prio)?;
    Ok(Resv {
        name: r.name,
        cluster: ClusterNo(cluster),
        kind: r.kind,
        budget: r.budget,
        period: r.period,
        prio,
        slots: r.slots,
    })
}

fn resvs_of(alloc: Global, resvs: Vec<DraftResv>) -> Result<Vec<Resv>, AllocError>
    ensures { IfOk result (λ v. v.items ≡ map spec.resv_of resvs.items) }
{
    let mut found = Vec::new(alloc);
    for r in resvs {
        found.push(resv_of(r)?)?;
    }
    Ok(found)
}

fn cluster_of(c: DraftCluster) -> Result<Cluster, AllocError>
    ensures { IfOk result (λ x. x ≡ spec.cluster_of c) }
{
    let cpus = narrow(c.cpus)?;
    let group = narrow(c.group)?;
    Ok(Cluster {
        cpus,
        group: GroupNo(group),
    })
}

fn clusters_of(alloc: Global, clusters: &[DraftCluster]) -> Result<Vec<Cluster>, AllocError>
    ensures { IfOk result (λ v. v.items ≡ map spec.cluster_of clusters.now) }
{
    let mut found = Vec::new(alloc);
    for c in clusters {
        found.push(cluster_of(*c)?)?;
    }
    Ok(found)
}

fn step_of(s: DraftStep) -> Result<Step, AllocError>
    ensures { IfOk result (λ x. x ≡ spec.step_of s) }
{
    let cpu = narrow(s.cpu)?;
    Ok(Step {
        cpu: CpuNo(cpu),
        tick: Tick(s.tick),
        act: s.act,
    })
}

fn steps_of(alloc: Global, steps: &[DraftStep]) -> Result<Vec<Step>, AllocError>
    ensures { IfOk result (λ v. v.items ≡ map spec.step_of steps.now) }
{
    let mut found = Vec::with_capacity(alloc, steps.len())?;
    for s in steps {
        found.push(step_of(*s)?)?;
    }
    Ok(found)
}

fn drive_of(alloc: Global, drive: DraftDrive) -> Result<Drive, AllocError>
    ensures { IfOk result (λ x. x ≡ spec.drive_of drive) }
{
    match drive {
        DraftDrive::Steps(steps) => {
            let found = steps_of(alloc, steps.as_slice())?;
            Ok(Drive::Steps(StepList::from_vec(found)))
        }
        DraftDrive::Horizon(h) => Ok(Drive::Horizon(h)),
    }
}

fn parts_of(alloc: Global, d: Draft) -> Result<Parts, AllocError>
    ensures { IfOk result (λ p. p ≡ spec.parts_of d) }
{
    let clusters = clusters_of(alloc, d.clusters.as_slice())?;
    let resvs = resvs_of(alloc, d.resvs.into_vec())?;
    let tasks = tasks_of(alloc, d.tasks.into_vec())?;
    let drive = drive_of(alloc, d.drive)?;
    Ok(Parts {
        plugin: d.plugin,
        clusters: ClusterList::from_vec(clusters),
        sems: d.sems,
        resvs: ResvList::from_vec(resvs),
        tasks: TaskList::from_vec(tasks),
        drive,
    })
}

/// The set that the draft stands for, or the first rule that it breaks, in the order of the
/// kinds. Bodies are written out only where nothing is refused.
#[tactic(auto, using(crate::proofs::AcceptLaws::valid_parts_of))]
pub fn setup_of_draft(alloc: Global, draft: Draft) -> Result<Setup, SetStop>
    ensures { Gives (λ s. s) result (accepted draft (whole_refusal draft)) }
{
    try_rules(alloc, &draft)?;
    let parts = parts_of(alloc, draft)?;
    Setup::of_valid(alloc, parts)
}
