//! The canonical texts of two sets, byte for byte.
use rt_base::{ClusterNo, CpuNo, GroupNo, ResvNo, SemNo, TaskNo, Tick};
use rt_task::{
    Act, Cluster, ClusterList, Drive, Kind, Name, Op, Ops, Parts, PluginKind, Protocol, Resv,
    ResvKind, ResvList, Sem, SemList, SemNos, Slots, Step, StepList, Task, TaskList,
};
use set_canonical::{canonical, canonical_of_parts};
use set_rules::setup_of_parts;
use std::alloc::{AllocError, Global};
use std::test::Fail;

fn name(alloc: Global, text: &[u8]) -> Result<Name, AllocError> {
    Ok(Name::from_vec(Vec::from_slice(alloc, text)?))
}

/// A task of the worked example: cost 1 and period 10.
fn light(alloc: Global, number: u32, text: &[u8], rel_deadline: u64) -> Result<Task, AllocError> {
    Ok(Task {
        number: TaskNo(number),
        name: name(alloc, text)?,
        cluster: ClusterNo(0),
        cost: 1,
        period: 10,
        rel_deadline,
        phase: 0,
        kind: Kind::Periodic,
        prio: 511,
        enforce: false,
        uses: SemNos::from_vec(Vec::new(alloc)),
        resv: None,
        body: Ops::from_vec(Vec::new(alloc)),
        early: false,
    })
}

fn step(cpu: u32, tick: u64, act: Act) -> Step {
    Step {
        cpu: CpuNo(cpu),
        tick: Tick(tick),
        act,
    }
}

/// Three tasks on two processors, which the text of `worked_text` says.
fn worked(alloc: Global) -> Result<Parts, AllocError> {
    let clusters = [Cluster {
        cpus: 2,
        group: GroupNo(0),
    }];
    let steps = [
        step(0, 0, Act::Tick),
        step(0, 0, Act::Irq),
        step(0, 0, Act::Irq),
    ];
    let mut tasks = Vec::new(alloc);
    tasks.push(light(alloc, 1, b"A", 5)?)?;
    tasks.push(light(alloc, 2, b"B", 7)?)?;
    tasks.push(light(alloc, 3, b"C", 9)?)?;
    Ok(Parts {
        plugin: PluginKind::GsnEdf,
        clusters: ClusterList::from_vec(Vec::from_slice(alloc, &clusters)?),
        sems: SemList::from_vec(Vec::new(alloc)),
        resvs: ResvList::from_vec(Vec::new(alloc)),
        tasks: TaskList::from_vec(tasks),
        drive: Drive::Steps(StepList::from_vec(Vec::from_slice(alloc, &steps)?)),
    })
}

const WORKED_TEXT: &[u8] =
    b"{\"clusters\":[{\"cpus\":2,\"group\":0}],\"plugin\":\"GSN-EDF\",\"resvs\":[],\"sems\":[],\"steps\":[[0,0,\"tick\"],[0,0,\"irq\"],[0,0,\"irq\"]],\"tasks\":[{\"body\":[],\"cluster\":0,\"cost\":1,\"deadline\":5,\"enforce\":false,\"kind\":\"periodic\",\"name\":\"A\",\"period\":10,\"phase\":0,\"prio\":511,\"resv\":null,\"uses\":[]},{\"body\":[],\"cluster\":0,\"cost\":1,\"deadline\":7,\"enforce\":false,\"kind\":\"periodic\",\"name\":\"B\",\"period\":10,\"phase\":0,\"prio\":511,\"resv\":null,\"uses\":[]},{\"body\":[],\"cluster\":0,\"cost\":1,\"deadline\":9,\"enforce\":false,\"kind\":\"periodic\",\"name\":\"C\",\"period\":10,\"phase\":0,\"prio\":511,\"resv\":null,\"uses\":[]}]}";

/// A set with each member and each operation, valid or not.
fn full(alloc: Global, drive: Drive) -> Result<Parts, AllocError> {
    let clusters = [
        Cluster {
            cpus: 1,
            group: GroupNo(0),
        },
        Cluster {
            cpus: 64,
            group: GroupNo(1),
        },
    ];
    let mut sems = Vec::new(alloc);
    for (text, protocol) in [
        (b"s1", Protocol::Fmlp),
        (b"s2", Protocol::Omlp),
        (b"s3", Protocol::Pcp),
        (b"s4", Protocol::Mpcp),
        (b"s5", Protocol::Srp),
    ] {
        sems.push(Sem {
            name: name(alloc, text)?,
            protocol,
        })?;
    }
    let mut resvs = Vec::new(alloc);
    for (text, kind, budget) in [
        (b"r-", ResvKind::Polling, 5),
        (b"r_", ResvKind::Sporadic, 999_999_999_999),
    ] {
        resvs.push(Resv {
            name: name(alloc, text)?,
            cluster: ClusterNo(1),
            kind,
            budget,
            period: 999_999_999_999,
            prio: 7,
            slots: Slots::from_vec(Vec::new(alloc)),
        })?;
    }
    let body = [
        Op::Work,
        Op::Work,
        Op::Work,
        Op::Lock(SemNo(2)),
        Op::Work,
        Op::Unlock(SemNo(4)),
        Op::Sleep(12),
        Op::NpOn,
        Op::NpOff,
        Op::Work,
        Op::Work,
        Op::End,
    ];
    let uses = [SemNo(3), SemNo(1)];
    let mut tasks = Vec::new(alloc);
    tasks.push(Task {
        number: TaskNo(1),
        name: name(alloc, b"Ab-_9")?,
        cluster: ClusterNo(1),
        cost: 2,
        period: 30,
        rel_deadline: 40,
        phase: 5,
        kind: Kind::Sporadic,
        prio: 1,
        enforce: true,
        uses: SemNos::from_vec(Vec::from_slice(alloc, &uses)?),
        resv: Some(ResvNo(2)),
        body: Ops::from_vec(Vec::from_slice(alloc, &body)?),
        early: true,
    })?;
    tasks.push(light(alloc, 2, b"B", 10)?)?;
    Ok(Parts {
        plugin: PluginKind::PRes,
        clusters: ClusterList::from_vec(Vec::from_slice(alloc, &clusters)?),
        sems: SemList::from_vec(sems),
        resvs: ResvList::from_vec(resvs),
        tasks: TaskList::from_vec(tasks),
        drive,
    })
}

const FULL_START: &[u8] = b"{\"clusters\":[{\"cpus\":1,\"group\":0},{\"cpus\":64,\"group\":1}]";

const FULL_MIDDLE: &[u8] =
    b",\"plugin\":\"P-RES\",\"resvs\":[{\"budget\":5,\"cluster\":1,\"kind\":\"polling\",\"name\":\"r-\",\"period\":999999999999,\"prio\":7},{\"budget\":999999999999,\"cluster\":1,\"kind\":\"sporadic\",\"name\":\"r_\",\"period\":999999999999,\"prio\":7}],\"sems\":[{\"name\":\"s1\",\"protocol\":\"FMLP\"},{\"name\":\"s2\",\"protocol\":\"OMLP\"},{\"name\":\"s3\",\"protocol\":\"PCP\"},{\"name\":\"s4\",\"protocol\":\"MPCP\"},{\"name\":\"s5\",\"protocol\":\"SRP\"}]";

const FULL_STEPS: &[u8] =
    b",\"steps\":[[0,0,\"tick\"],[1,3,\"irq\"],[0,4,\"arrive\",\"B\"],[0,4,\"work\"],[0,4,\"lock\",\"s1\"],[0,4,\"unlock\",\"s4\"],[0,5,\"sleep\",70],[0,6,\"npon\"],[0,6,\"npoff\"],[64,999999999999,\"end\"]]";

const FULL_END: &[u8] =
    b",\"tasks\":[{\"body\":[[\"work\",3],[\"lock\",\"s2\"],[\"work\",1],[\"unlock\",\"s4\"],[\"sleep\",12],[\"npon\"],[\"npoff\"],[\"work\",2],[\"end\"]],\"cluster\":1,\"cost\":2,\"deadline\":40,\"early\":true,\"enforce\":true,\"kind\":\"sporadic\",\"name\":\"Ab-_9\",\"period\":30,\"phase\":5,\"prio\":1,\"resv\":\"r_\",\"uses\":[\"s3\",\"s1\"]},{\"body\":[],\"cluster\":0,\"cost\":1,\"deadline\":10,\"enforce\":false,\"kind\":\"periodic\",\"name\":\"B\",\"period\":10,\"phase\":0,\"prio\":511,\"resv\":null,\"uses\":[]}]}";

fn joined(alloc: Global, texts: &[&[u8]]) -> Result<Vec<u8>, AllocError> {
    let mut whole = Vec::new(alloc);
    for text in texts {
        whole.extend_from_slice(text)?;
    }
    Ok(whole)
}

#[test]
fn worked_example(rt: HostRuntime) -> Result<(), Fail> {
    let alloc = rt.alloc();
    let setup = setup_of_parts(alloc, worked(alloc)?)?;
    let text = canonical(alloc, &setup)?;
    assert_eq!(rt; text.as_slice(), WORKED_TEXT);
    Ok(())
}

#[test]
fn each_member(rt: HostRuntime) -> Result<(), Fail> {
    let alloc = rt.alloc();
    let steps = [
        step(0, 0, Act::Tick),
        step(1, 3, Act::Irq),
        step(0, 4, Act::Arrive(TaskNo(2))),
        step(0, 4, Act::Do(Op::Work)),
        step(0, 4, Act::Do(Op::Lock(SemNo(1)))),
        step(0, 4, Act::Do(Op::Unlock(SemNo(4)))),
        step(0, 5, Act::Do(Op::Sleep(70))),
        step(0, 6, Act::Do(Op::NpOn)),
        step(0, 6, Act::Do(Op::NpOff)),
        step(64, 999_999_999_999, Act::Do(Op::End)),
    ];
    let drive = Drive::Steps(StepList::from_vec(Vec::from_slice(alloc, &steps)?));
    let text = canonical_of_parts(alloc, &full(alloc, drive)?)?;
    let want = joined(alloc, &[FULL_START, FULL_MIDDLE, FULL_STEPS, FULL_END])?;
    assert_eq!(rt; text.as_slice(), want.as_slice());
    let text = canonical_of_parts(alloc, &full(alloc, Drive::Horizon(1000))?)?;
    let want = joined(
        alloc,
        &[FULL_START, b",\"horizon\":1000", FULL_MIDDLE, FULL_END],
    )?;
    assert_eq!(rt; text.as_slice(), want.as_slice());
    Ok(())
}

#[test]
fn many_steps(rt: HostRuntime) -> Result<(), Fail> {
    let alloc = rt.alloc();
    let mut steps = Vec::new(alloc);
    for i in 0..200_000 {
        steps.push(step(1, i, Act::Do(Op::Lock(SemNo(4)))))?;
    }
    let drive = Drive::Steps(StepList::from_vec(steps));
    let text = canonical_of_parts(alloc, &full(alloc, drive)?)?;
    assert!(rt; text.len() > 200_000 * 15);
    Ok(())
}

const ESCAPED_TEXT: &[u8] =
    b"{\"clusters\":[{\"cpus\":2,\"group\":0}],\"plugin\":\"GSN-EDF\",\"resvs\":[],\"sems\":[{\"name\":\"\\\"\\\\\\n\\u001f\xc3\xa9/\",\"protocol\":\"PCP\"}],\"steps\":[[0,0,\"tick\"],[0,0,\"irq\"],[0,0,\"irq\"]],\"tasks\":[]}";

#[test]
fn escapes(rt: HostRuntime) -> Result<(), Fail> {
    let alloc = rt.alloc();
    let mut parts = worked(alloc)?;
    parts.tasks = TaskList::from_vec(Vec::new(alloc));
    let mut sems = Vec::new(alloc);
    sems.push(Sem {
        name: name(alloc, b"\"\\\n\x1f\xc3\xa9/")?,
        protocol: Protocol::Pcp,
    })?;
    parts.sems = SemList::from_vec(sems);
    let text = canonical_of_parts(alloc, &parts)?;
    assert_eq!(rt; text.as_slice(), ESCAPED_TEXT);
    Ok(())
}
