//! The slow ranker: a group of two clusters, played by hand by the rules of the model, tasks that share a semaphore, and
//! reservations.
ghost use Rattle.std.specs.Prelude.{◌≡◌, ◌+◌, ◌<◌, ◌≤◌, length, true};
ghost use Rattle.rt_rules.specs.Numbers.{has};
ghost use Rattle.rt_model.specs.Past.{Past};
ghost use Rattle.rt_model.specs.Steps.{IsStepOf};
ghost use Rattle.rt_plays.specs.Homes.{IsProcessorOf};
ghost use Rattle.rank_afresh.specs.Standing.{IsAt, IsOfSame, group_of};
ghost use Rattle.trace_text.specs.Groups.{cpu_numbers};

use block_counts::Waiting;
use group_core::WaitingList;
use rank_afresh::Afresh;
use rt_base::{ClusterNo, CpuNo, GroupNo, ResvNo, SemNo, TaskNo, Tick};
use rt_rules::Reply;
use rt_task::{
    Act, Cluster, ClusterList, Drive, Kind, Name, Op, Ops, Parts, PluginKind, Protocol, Resv,
    ResvKind, ResvList, Sem, SemList, SemNos, Setup, Slots, Step, StepList, Task, TaskList,
};
use set_rules::setup_of_parts;
use std::alloc::{AllocError, Global};
use std::process::Abort;
use std::test::Fail;
use trace_text::cpus_of;

/// A task of this cluster; its jobs are a period of 10 apart, and have this cost and relative deadline.
fn task(
    alloc: Global,
    number: u32,
    cluster: u32,
    cost: u64,
    rel_deadline: u64,
) -> Result<Task, AllocError> {
    let letter = [b'@' + (number % 26) as u8];
    Ok(Task {
        number: TaskNo(number),
        name: Name::from_vec(Vec::from_slice(alloc, &letter)?),
        cluster: ClusterNo(cluster),
        cost,
        period: 10,
        rel_deadline,
        phase: 0,
        kind: Kind::Periodic,
        prio: 1,
        enforce: false,
        uses: SemNos::from_vec(Vec::new(alloc)),
        resv: None,
        body: Ops::from_vec(Vec::new(alloc)),
        early: false,
    })
}

/// Task 2 is sporadic, from clock 2 on. Task 3 is enforced and early. Task 5 is of the other group.
fn tasks(alloc: Global) -> Result<Vec<Task>, AllocError> {
    let sporadic = Task {
        kind: Kind::Sporadic,
        phase: 2,
        ..task(alloc, 2, 0, 1, 3)?
    };
    let enforced = Task {
        enforce: true,
        early: true,
        ..task(alloc, 3, 2, 2, 4)?
    };
    let mut tasks = Vec::new(alloc);
    tasks.push(task(alloc, 1, 0, 1, 5)?)?;
    tasks.push(sporadic)?;
    tasks.push(enforced)?;
    tasks.push(task(alloc, 4, 2, 1, 20)?)?;
    tasks.push(task(alloc, 5, 1, 1, 1)?)?;
    Ok(tasks)
}

fn step(cpu: u32, tick: u64, act: Act) -> Step {
    Step {
        cpu: CpuNo(cpu),
        tick: Tick(tick),
        act,
    }
}

fn operation(cpu: u32, tick: u64, op: Op) -> Step {
    step(cpu, tick, Act::Do(op))
}

/// The steps of the first group.
fn steps(alloc: Global) -> Result<Vec<Step>, AllocError> {
    let steps = [
        step(0, 0, Act::Irq),
        step(3, 0, Act::Irq),
        operation(3, 0, Op::Work),
        operation(3, 0, Op::Work),
        step(0, 1, Act::Arrive(TaskNo(2))),
        step(0, 2, Act::Arrive(TaskNo(2))),
        step(1, 2, Act::Irq),
        operation(3, 2, Op::Work),
        operation(1, 2, Op::Sleep(3)),
        step(3, 3, Act::Irq),
        operation(3, 3, Op::NpOn),
        operation(3, 3, Op::Work),
        operation(3, 4, Op::Work),
        operation(3, 4, Op::End),
        operation(3, 4, Op::NpOff),
        step(1, 5, Act::Tick),
        step(1, 6, Act::Irq),
        operation(1, 6, Op::End),
        operation(0, 6, Op::End),
        operation(0, 6, Op::Work),
        step(0, 10, Act::Tick),
    ];
    Vec::from_slice(alloc, &steps)
}

/// C-EDF over a cluster of processors 0 and 1, one of processor 2, and one of processor 3; the middle one is a group of
/// its own.
fn two_groups(alloc: Global) -> Result<Parts, AllocError> {
    let cluster = |cpus, group| Cluster {
        cpus,
        group: GroupNo(group),
    };
    let clusters = vec![in alloc; cluster(2, 0), cluster(1, 1), cluster(1, 0)]?;
    Ok(Parts {
        plugin: PluginKind::CEdf,
        clusters: ClusterList::from_vec(clusters),
        sems: SemList::from_vec(Vec::new(alloc)),
        resvs: ResvList::from_vec(Vec::new(alloc)),
        tasks: TaskList::from_vec(tasks(alloc)?),
        drive: Drive::Steps(StepList::from_vec(steps(alloc)?)),
    })
}

/// What is seen of a step: its reply, what its processor is linked to and runs then, the task whose job it ended, with
/// whether that was late, and how many tasks wait for the semaphore that it frees, and how many of them are blocked.
#[derive(Clone, Copy, Debug, PartialEq, Eq)]
struct Outcome {
    reply: Reply,
    linked: Option<TaskNo>,
    runs: Option<TaskNo>,
    ended: Option<(TaskNo, bool)>,
    waiting: usize,
    blocked: usize,
}

const NONE: Option<TaskNo> = None;

const A: Option<TaskNo> = Some(TaskNo(1));

const B: Option<TaskNo> = Some(TaskNo(2));

const C: Option<TaskNo> = Some(TaskNo(3));

const D: Option<TaskNo> = Some(TaskNo(4));

fn seen(reply: Reply, linked: Option<TaskNo>, runs: Option<TaskNo>) -> Outcome {
    Outcome {
        reply,
        linked,
        runs,
        ended: None,
        waiting: 0,
        blocked: 0,
    }
}

/// The task ended its job, late or not, and its processor is linked to the other.
fn ended(task: u32, is_late: bool, linked: Option<TaskNo>) -> Outcome {
    Outcome {
        ended: Some((TaskNo(task), is_late)),
        ..seen(Reply::Done, linked, NONE)
    }
}

/// What is to be seen, by the rules: jobs are ranked by deadline, and then by number.
fn wanted(alloc: Global) -> Result<Vec<Outcome>, AllocError> {
    let wanted = [
        seen(Reply::Runs(TaskNo(1)), A, A),
        seen(Reply::Runs(TaskNo(3)), C, C),
        seen(Reply::Done, C, C),
        seen(Reply::Spent, C, C),
        seen(Reply::TooEarly, A, A),
        seen(Reply::Done, A, A),
        seen(Reply::Runs(TaskNo(2)), B, B),
        ended(3, false, C),
        seen(Reply::Done, NONE, NONE),
        seen(Reply::Runs(TaskNo(3)), C, C),
        seen(Reply::Done, C, C),
        seen(Reply::Done, C, C),
        seen(Reply::Done, C, C),
        seen(Reply::InNp, C, C),
        ended(3, false, D),
        seen(Reply::Done, B, NONE),
        seen(Reply::Runs(TaskNo(2)), B, B),
        ended(2, true, NONE),
        ended(1, true, NONE),
        seen(Reply::Idle, NONE, NONE),
        seen(Reply::Done, A, NONE),
    ];
    Vec::from_slice(alloc, &wanted)
}

/// Whether the processor is found to be one of these.
#[tactic(auto, using(crate::proofs::Among::has_here))]
fn is_among(cpus: &[CpuNo], cpu: CpuNo) -> bool
    ensures { result ≡ true → has cpu.0 (cpu_numbers cpus.now) ≡ true }
{
    for other in cpus {
        if cpu.0 == other.0 {
            return true;
        }
    }
    false
}

/// Whether the processor is found to be of the first group.
fn is_of_group(alloc: Global, setup: &Setup, cpu: CpuNo) -> bool
    ensures { result ≡ true
        → IsProcessorOf (record { setup = setup.now; number = 0 }) cpu.0 }
{
    match cpus_of(alloc, setup, GroupNo(0)) {
        Ok(cpus) => is_among(cpus.as_slice(), cpu),
        Err(_) => false,
    }
}

/// How many of the tasks are blocked.
fn blocked(waiting: &[Waiting]) -> usize {
    waiting.iter().filter(|w| w.blocked).count()
}

/// Takes a step, and looks at its processor.
fn take(afresh: &mut Afresh, list: &mut WaitingList, step: Step) -> Outcome
    requires room { 0 < afresh.old.spare }
    requires step { IsStepOf (group_of afresh.old) step }
    requires at { (past : Past) × IsAt afresh.old past }
    requires list { length afresh.old.setup.tasks ≤ list.old.room }
    ensures at { (past : Past) × IsAt afresh.new past }
    ensures same { IsOfSame afresh.old afresh.new }
    ensures room { afresh.new.spare + 1 ≡ afresh.old.spare }
    ensures list { list.new.room ≡ list.old.room }
{
    afresh.clock(step.tick);
    afresh.list_waiting(step.cpu, step.act, list);
    let reply = afresh.act(step);
    Outcome {
        reply,
        linked: afresh.linked(step.cpu),
        runs: afresh.runs(step.cpu),
        ended: afresh.ended(),
        waiting: list.tasks().len(),
        blocked: blocked(list.tasks()),
    }
}

/// Plays the steps of the first group of the set, and compares.
fn play(rt: &impl Abort, alloc: Global, setup: &Setup, wanted: &[Outcome]) -> Result<(), Fail> {
    let parts = setup.parts();
    assert!(rt; parts.clusters.as_slice().iter().any(|c| c.group.0 == 0));
    assert!(rt; parts.tasks.as_slice().len() <= 8);
    let Drive::Steps(steps) = &parts.drive else {
        panic!(rt; "no steps");
    };
    assert!(rt; wanted.len() <= 100);
    assert_eq!(rt; steps.as_slice().len(), wanted.len());
    let mut afresh = Afresh::open(alloc, setup, GroupNo(0), 100)?;
    let mut list = WaitingList::open(alloc, 8)?;
    for (i, step) in steps.as_slice().iter().enumerate() {
        assert!(rt; is_of_group(alloc, setup, step.cpu));
        assert_eq!(rt; take(&mut afresh, &mut list, *step), wanted[i], "step {i}");
    }
    Ok(())
}

#[test]
fn plays_two_clusters(rt: HostRuntime) -> Result<(), Fail> {
    let setup = setup_of_parts(rt.alloc(), two_groups(rt.alloc())?)?;
    let wanted = wanted(rt.alloc())?;
    play(&rt, rt.alloc(), &setup, wanted.as_slice())
}

/// A task that declares the semaphore; its first job is due after this time.
fn user(alloc: Global, number: u32, kind: Kind, rel_deadline: u64) -> Result<Task, AllocError> {
    Ok(Task {
        kind,
        period: 1000,
        uses: SemNos::from_vec(Vec::from_slice(alloc, &[SemNo(1)])?),
        ..task(alloc, number, 0, 1, rel_deadline)?
    })
}

/// Two processors that start jobs of tasks 1 and 2, and then are taken over by jobs of tasks 3 and 4, which ask for the
/// same semaphore.
fn sharing_steps(alloc: Global) -> Result<Vec<Step>, AllocError> {
    let steps = [
        step(0, 0, Act::Irq),
        step(1, 0, Act::Irq),
        operation(0, 0, Op::Lock(SemNo(1))),
        operation(1, 0, Op::Lock(SemNo(1))),
        step(1, 1, Act::Arrive(TaskNo(3))),
        step(1, 1, Act::Irq),
        operation(1, 1, Op::Lock(SemNo(1))),
        step(1, 2, Act::Arrive(TaskNo(4))),
        step(1, 2, Act::Irq),
        operation(1, 2, Op::Lock(SemNo(1))),
        operation(0, 2, Op::Unlock(SemNo(1))),
        step(1, 2, Act::Irq),
        operation(1, 2, Op::Unlock(SemNo(1))),
        step(1, 2, Act::Irq),
        operation(1, 2, Op::Unlock(SemNo(1))),
        step(0, 2, Act::Irq),
        operation(0, 2, Op::Unlock(SemNo(1))),
    ];
    Vec::from_slice(alloc, &steps)
}

/// GSN-EDF on two processors, with one semaphore under OMLP: the worked example of its bound.
fn sharing(alloc: Global) -> Result<Parts, AllocError> {
    let one = Cluster {
        cpus: 2,
        group: GroupNo(0),
    };
    let sem = Sem {
        name: Name::from_vec(Vec::from_slice(alloc, b"s")?),
        protocol: Protocol::Omlp,
    };
    let mut sems = Vec::new(alloc);
    sems.push(sem)?;
    let mut tasks = Vec::new(alloc);
    tasks.push(user(alloc, 1, Kind::Periodic, 100)?)?;
    tasks.push(user(alloc, 2, Kind::Periodic, 100)?)?;
    tasks.push(user(alloc, 3, Kind::Sporadic, 50)?)?;
    tasks.push(user(alloc, 4, Kind::Sporadic, 20)?)?;
    Ok(Parts {
        plugin: PluginKind::GsnEdf,
        clusters: ClusterList::from_vec(vec![in alloc; one]?),
        sems: SemList::from_vec(sems),
        resvs: ResvList::from_vec(Vec::new(alloc)),
        tasks: TaskList::from_vec(tasks),
        drive: Drive::Steps(StepList::from_vec(sharing_steps(alloc)?)),
    })
}

/// An Unlock with these tasks that wait.
fn freed(linked: Option<TaskNo>, runs: Option<TaskNo>, waiting: usize, blocked: usize) -> Outcome {
    Outcome {
        waiting,
        blocked,
        ..seen(Reply::Done, linked, runs)
    }
}

/// What is to be seen, by the worked example of the model.
fn wanted_sharing(alloc: Global) -> Result<Vec<Outcome>, AllocError> {
    let wanted = [
        seen(Reply::Runs(TaskNo(1)), A, A),
        seen(Reply::Runs(TaskNo(2)), B, B),
        seen(Reply::Granted, A, A),
        seen(Reply::Queued, NONE, NONE),
        seen(Reply::Done, C, NONE),
        seen(Reply::Runs(TaskNo(3)), C, C),
        seen(Reply::Queued, NONE, NONE),
        seen(Reply::Done, D, NONE),
        seen(Reply::Runs(TaskNo(4)), D, D),
        seen(Reply::Queued, NONE, NONE),
        freed(A, A, 3, 2),
        seen(Reply::Runs(TaskNo(2)), B, B),
        freed(D, B, 2, 2),
        seen(Reply::Runs(TaskNo(4)), D, D),
        freed(D, D, 1, 1),
        seen(Reply::Runs(TaskNo(3)), C, C),
        freed(C, C, 0, 0),
    ];
    Vec::from_slice(alloc, &wanted)
}

#[test]
fn plays_a_semaphore(rt: HostRuntime) -> Result<(), Fail> {
    let setup = setup_of_parts(rt.alloc(), sharing(rt.alloc())?)?;
    let wanted = wanted_sharing(rt.alloc())?;
    play(&rt, rt.alloc(), &setup, wanted.as_slice())
}

/// P-RES on one processor: a reservation with a budget of 2 in a period of 10, and one client.
fn reserved(
    alloc: Global,
    kind: ResvKind,
    client: Task,
    steps: &[Step],
) -> Result<Parts, AllocError> {
    let one = Cluster {
        cpus: 1,
        group: GroupNo(0),
    };
    let resv = Resv {
        name: Name::from_vec(Vec::from_slice(alloc, b"r")?),
        cluster: ClusterNo(0),
        kind,
        budget: 2,
        period: 10,
        prio: 1,
        slots: Slots::from_vec(Vec::new(alloc)),
    };
    let mut resvs = Vec::new(alloc);
    resvs.push(resv)?;
    let mut tasks = Vec::new(alloc);
    tasks.push(Task {
        resv: Some(ResvNo(1)),
        ..client
    })?;
    Ok(Parts {
        plugin: PluginKind::PRes,
        clusters: ClusterList::from_vec(vec![in alloc; one]?),
        sems: SemList::from_vec(Vec::new(alloc)),
        resvs: ResvList::from_vec(resvs),
        tasks: TaskList::from_vec(tasks),
        drive: Drive::Steps(StepList::from_vec(Vec::from_slice(alloc, steps)?)),
    })
}

/// Plays such a set, and compares.
fn play_reserved(
    rt: &impl Abort,
    alloc: Global,
    kind: ResvKind,
    client: Task,
    steps: &[Step],
    wanted: &[Outcome],
) -> Result<(), Fail> {
    let setup = setup_of_parts(alloc, reserved(alloc, kind, client, steps)?)?;
    play(rt, alloc, &setup, wanted)
}

#[test]
fn sporadic_reservation_is_refilled(rt: HostRuntime) -> Result<(), Fail> {
    let client = Task {
        period: 100,
        ..task(rt.alloc(), 1, 0, 5, 100)?
    };
    let steps = [
        step(0, 0, Act::Irq),
        operation(0, 0, Op::Work),
        operation(0, 1, Op::Work),
        operation(0, 2, Op::Work),
        step(0, 2, Act::Irq),
        step(0, 9, Act::Tick),
        step(0, 10, Act::Tick),
    ];
    let wanted = [
        seen(Reply::Runs(TaskNo(1)), A, A),
        seen(Reply::Done, A, A),
        seen(Reply::Done, NONE, A),
        seen(Reply::NoBudget, NONE, A),
        seen(Reply::Idles, NONE, NONE),
        seen(Reply::Done, NONE, NONE),
        seen(Reply::Done, A, NONE),
    ];
    play_reserved(&rt, rt.alloc(), ResvKind::Sporadic, client, &steps, &wanted)
}

#[test]
fn polling_reservation_loses_its_budget(rt: HostRuntime) -> Result<(), Fail> {
    let client = Task {
        kind: Kind::Sporadic,
        period: 5,
        ..task(rt.alloc(), 1, 0, 5, 100)?
    };
    let steps = [
        step(0, 3, Act::Arrive(TaskNo(1))),
        step(0, 10, Act::Tick),
        step(0, 10, Act::Irq),
        operation(0, 10, Op::End),
        step(0, 12, Act::Arrive(TaskNo(1))),
        step(0, 20, Act::Tick),
    ];
    let wanted = [
        seen(Reply::Done, NONE, NONE),
        seen(Reply::Done, A, NONE),
        seen(Reply::Runs(TaskNo(1)), A, A),
        Outcome {
            ended: Some((TaskNo(1), false)),
            ..seen(Reply::Done, NONE, NONE)
        },
        seen(Reply::Done, NONE, NONE),
        seen(Reply::Done, A, NONE),
    ];
    play_reserved(&rt, rt.alloc(), ResvKind::Polling, client, &steps, &wanted)
}

#[test]
fn two_periods_are_one_refill(rt: HostRuntime) -> Result<(), Fail> {
    let client = Task {
        period: 100,
        ..task(rt.alloc(), 1, 0, 5, 100)?
    };
    let steps = [
        step(0, 0, Act::Irq),
        operation(0, 0, Op::Work),
        operation(0, 25, Op::Work),
        operation(0, 25, Op::Work),
        operation(0, 26, Op::Work),
    ];
    let wanted = [
        seen(Reply::Runs(TaskNo(1)), A, A),
        seen(Reply::Done, A, A),
        seen(Reply::Done, A, A),
        seen(Reply::Spent, A, A),
        seen(Reply::Done, NONE, A),
    ];
    play_reserved(&rt, rt.alloc(), ResvKind::Polling, client, &steps, &wanted)
}
