//! A request that waits while a critical section ends.
ghost use Rattle.std.specs.Prelude.{◌≡◌, IfOk, length};

use block_counts::{Blocks, Seen, Waiting};
use rt_base::{ClusterNo, CpuNo, GroupNo, SemNo, TaskNo, Tick};
use rt_rules::{Entry, Reply};
use rt_task::{
    Act, Cluster, ClusterList, Drive, Kind, Name, Op, Ops, Parts, PluginKind, Protocol, ResvList,
    Sem, SemList, SemNos, Step, StepList, Task, TaskList,
};
use set_rules::setup_of_parts;
use std::alloc::{AllocError, Global};
use std::test::Fail;

fn user(alloc: Global, number: u32, text: &[u8]) -> Result<Task, AllocError> {
    Ok(Task {
        number: TaskNo(number),
        name: Name::from_vec(Vec::from_slice(alloc, text)?),
        cluster: ClusterNo(0),
        cost: 1,
        period: 1000,
        rel_deadline: 100,
        phase: 0,
        kind: Kind::Periodic,
        prio: 511,
        enforce: false,
        uses: SemNos::from_vec(vec![in alloc; SemNo(1)]?),
        resv: None,
        body: Ops::from_vec(Vec::new(alloc)),
        early: false,
    })
}

// Two processors, and two tasks that declare the one semaphore.
fn two_users(alloc: Global, protocol: Protocol) -> Result<Parts, AllocError>
    ensures tasks { IfOk result (λ p. length p.tasks ≡ 2) }
    ensures sems { IfOk result (λ p. length p.sems ≡ 1) }
{
    let cluster = Cluster {
        cpus: 2,
        group: GroupNo(0),
    };
    let sem = Sem {
        name: Name::from_vec(Vec::from_slice(alloc, b"s")?),
        protocol,
    };
    Ok(Parts {
        plugin: PluginKind::GsnEdf,
        clusters: ClusterList::from_vec(vec![in alloc; cluster]?),
        sems: SemList::from_vec(vec![in alloc; sem]?),
        resvs: ResvList::from_vec(Vec::new(alloc)),
        tasks: TaskList::from_vec(vec![in alloc; user(alloc, 1, b"A")?, user(alloc, 2, b"B")?]?),
        drive: Drive::Steps(StepList::from_vec(Vec::new(alloc))),
    })
}

fn entry(cpu: u32, op: Op, reply: Reply) -> Entry
    ensures { result.step.act ≡ Act.Do op }
{
    Entry {
        step: Step {
            cpu: CpuNo(cpu),
            tick: Tick(0),
            act: Act::Do(op),
        },
        reply,
    }
}

// The request of task 2, which waits for the semaphore that task 1 holds, after task 1 unlocks this one.
fn after_unlock(
    alloc: Global,
    protocol: Protocol,
    unlocked: SemNo,
    blocked: bool,
) -> Result<Option<Seen>, Fail> {
    let setup = setup_of_parts(alloc, two_users(alloc, protocol)?)?;
    let mut blocks = Blocks::open(alloc, &setup, GroupNo(0), 10)?;
    let lock = Op::Lock(SemNo(1));
    blocks.feed(entry(0, lock, Reply::Granted), Some(TaskNo(1)), &[]);
    blocks.feed(entry(1, lock, Reply::Queued), Some(TaskNo(2)), &[]);
    let waiting = [Waiting {
        task: TaskNo(2),
        blocked,
    }];
    let unlock = Op::Unlock(unlocked);
    blocks.feed(entry(0, unlock, Reply::Done), Some(TaskNo(1)), &waiting);
    Ok(blocks.requests().get(1).copied())
}

fn seen(ends: u32, ends_all: u32, bound: u32) -> Option<Seen> {
    Some(Seen {
        no: 1,
        task: TaskNo(2),
        sem: SemNo(1),
        ends,
        ends_all,
        bound: Some(bound),
    })
}

/// A protocol, the semaphore that is unlocked, whether the waiting task is blocked, and what its request then has.
type Case = (Protocol, SemNo, bool, Option<Seen>);

/// An end counts as one of the semaphore that was asked for alone, and as a blocking one where the task is blocked.
#[test]
fn counts_the_ends_that_a_request_sees(rt: HostRuntime) -> Result<(), Fail> {
    let cases: [Case; 4] = [
        (Protocol::Fmlp, SemNo(1), true, seen(1, 1, 1)),
        (Protocol::Fmlp, SemNo(1), false, seen(0, 1, 1)),
        (Protocol::Fmlp, SemNo(2), true, seen(0, 0, 1)),
        (Protocol::Omlp, SemNo(1), true, seen(1, 1, 3)),
    ];
    for (protocol, unlocked, blocked, wanted) in cases {
        let request = after_unlock(rt.alloc(), protocol, unlocked, blocked)?;
        assert!(rt; request == wanted);
    }
    Ok(())
}
