use rt_base::{ClusterNo, GroupNo, MOST_PRIO, TaskNo};
use rt_task::{
    BadSet, Cluster, ClusterList, Drive, Kind, Name, Op, Ops, Part, Parts, Place, PluginKind,
    ResvList, SemList, SemNos, SetKind, SetStop, StepList, Task, TaskList,
};
use set_rules::setup_of_parts;
use std::alloc::{AllocError, Global};
use std::test::Fail;

fn task_named(alloc: Global, name: &[u8]) -> Result<Task, AllocError> {
    Ok(Task {
        number: TaskNo(1),
        name: Name::from_vec(Vec::from_slice(alloc, name)?),
        cluster: ClusterNo(0),
        cost: 1,
        period: 10,
        rel_deadline: 10,
        phase: 0,
        kind: Kind::Periodic,
        prio: MOST_PRIO,
        enforce: false,
        uses: SemNos::from_vec(Vec::new(alloc)),
        resv: None,
        body: Ops::from_vec(vec![in alloc; Op::Work, Op::Work, Op::End]?),
        early: false,
    })
}

fn one_task(alloc: Global, name: &[u8]) -> Result<Parts, AllocError> {
    let cluster = Cluster {
        cpus: 1,
        group: GroupNo(0),
    };
    Ok(Parts {
        plugin: PluginKind::PFp,
        clusters: ClusterList::from_vec(vec![in alloc; cluster]?),
        sems: SemList::from_vec(Vec::new(alloc)),
        resvs: ResvList::from_vec(Vec::new(alloc)),
        tasks: TaskList::from_vec(vec![in alloc; task_named(alloc, name)?]?),
        drive: Drive::Steps(StepList::from_vec(Vec::new(alloc))),
    })
}

#[test]
fn makes_a_setup(rt: HostRuntime) -> Result<(), Fail> {
    let setup = setup_of_parts(rt.alloc(), one_task(rt.alloc(), b"A")?)?;
    let shared = setup.share()?;
    assert_eq!(rt; shared.parts().tasks.as_slice().len(), 1);
    Ok(())
}

#[test]
fn refuses_a_name(rt: HostRuntime) -> Result<(), Fail> {
    let place = Place {
        part: Part::Task,
        index: 0,
    };
    let bad = BadSet {
        kind: SetKind::Name,
        place,
    };
    match setup_of_parts(rt.alloc(), one_task(rt.alloc(), b"A B")?) {
        Err(stop) => assert_eq!(rt; stop, SetStop::Bad(bad)),
        Ok(_) => panic!(rt; "not refused"),
    }
    Ok(())
}
