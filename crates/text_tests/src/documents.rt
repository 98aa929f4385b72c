use rt_task::{Part, SetKind, SetStop};
use set_canonical::canonical;
use set_read::read_set;
use std::alloc::Global;
use std::test::Fail;

const PLAIN: &[u8] =
    b"{\"plugin\":\"GSN-EDF\",\"clusters\":[{\"cpus\":2}],\"tasks\":[{\"name\":\"A\",\"cost\":2,\"period\":3,\"body\":[[\"work\",2],[\"end\"]]}],\"horizon\":3}";

const UNKNOWN_NAME: &[u8] =
    b"{\"plugin\":\"GSN-EDF\",\"clusters\":[{\"cpus\":1}],\"tasks\":[{\"name\":\"A\",\"cost\":1,\"period\":10}],\"steps\":[[0,0,\"tick\"],[0,0,\"arrive\",\"B\"]]}";

// In this and the next the tasks stand last, and in each its body: they are read from their bytes.
const FROM_BYTES: &[u8] =
    b"{\"plugin\":\"GSN-EDF\",\"clusters\":[{\"cpus\":2}],\"sems\":[{\"name\":\"r\",\"protocol\":\"FMLP\"},{\"name\":\"s\",\"protocol\":\"FMLP\"}],\"horizon\":9,\"tasks\":[{\"name\":\"A\",\"cost\":2,\"period\":9,\"uses\":[\"s\"],\"body\":[[\"npon\"],[\"npoff\"],[\"lock\",\"s\"],[\"work\",2],[\"unlock\",\"s\"],[\"end\"]]},{\"name\":\"B\",\"cost\":1,\"period\":10,\"body\":[[\"work\",1],[\"sleep\",3],[\"end\"]]}]}";

const WITH_BLANKS: &[u8] =
    b"\n{ \"plugin\" : \"GSN-EDF\", \"clusters\":[{\"cpus\":2}], \"sems\":[{\"name\":\"r\",\"protocol\":\"FMLP\"},{\"name\":\"s\",\"protocol\":\"FMLP\"}], \"horizon\":9,\r\n\t\"tasks\" : [ { \"name\" : \"A\", \"cost\":2, \"period\":9, \"uses\" : [ \"s\" ], \"body\" : [ [ \"npon\" ] , [\"npoff\" ], [ \"lock\" , \"s\" ],\n[\"work\", 2 ], [\"unlock\", \"s\"], [\"end\"] ] } , { \"name\":\"B\", \"cost\":1, \"period\":10, \"body\": [[\"work\",1],[\"sleep\",3],[\"end\"]]} ] } \n";

const TASKS_FIRST: &[u8] =
    b"{\"tasks\":[{\"name\":\"A\",\"cost\":2,\"period\":9,\"uses\":[\"s\"],\"body\":[[\"npon\"],[\"npoff\"],[\"lock\",\"s\"],[\"work\",2],[\"unlock\",\"s\"],[\"end\"]]},{\"name\":\"B\",\"cost\":1,\"period\":10,\"body\":[[\"work\",1],[\"sleep\",3],[\"end\"]]}],\"plugin\":\"GSN-EDF\",\"clusters\":[{\"cpus\":2}],\"sems\":[{\"name\":\"r\",\"protocol\":\"FMLP\"},{\"name\":\"s\",\"protocol\":\"FMLP\"}],\"horizon\":9}";

const BODY_NOT_LAST: &[u8] =
    b"{\"plugin\":\"GSN-EDF\",\"clusters\":[{\"cpus\":2}],\"sems\":[{\"name\":\"r\",\"protocol\":\"FMLP\"},{\"name\":\"s\",\"protocol\":\"FMLP\"}],\"horizon\":9,\"tasks\":[{\"body\":[[\"npon\"],[\"npoff\"],[\"lock\",\"s\"],[\"work\",2],[\"unlock\",\"s\"],[\"end\"]],\"name\":\"A\",\"cost\":2,\"period\":9,\"uses\":[\"s\"]},{\"name\":\"B\",\"cost\":1,\"period\":10,\"body\":[[\"work\",1],[\"sleep\",3],[\"end\"]]}]}";

const UNKNOWN_SEM: &[u8] =
    b"{\"plugin\":\"GSN-EDF\",\"clusters\":[{\"cpus\":1}],\"sems\":[{\"name\":\"s\",\"protocol\":\"FMLP\"}],\"horizon\":9,\"tasks\":[{\"name\":\"A\",\"cost\":1,\"period\":9,\"uses\":[\"s\"],\"body\":[[\"lock\",\"t\"],[\"unlock\",\"t\"],[\"end\"]]}]}";

const EMPTY_BODY: &[u8] =
    b"{\"plugin\":\"GSN-EDF\",\"clusters\":[{\"cpus\":2}],\"horizon\":9,\"tasks\":[{\"name\":\"A\",\"cost\":2,\"period\":9,\"body\":[[\"work\",2],[\"end\"]]},{\"name\":\"B\",\"cost\":1,\"period\":10,\"body\":[]}]}";

const NO_COST: &[u8] =
    b"{\"plugin\":\"GSN-EDF\",\"clusters\":[{\"cpus\":2}],\"horizon\":9,\"tasks\":[{\"name\":\"A\",\"cost\":2,\"period\":9,\"body\":[[\"work\",2],[\"end\"]]},{\"name\":\"B\",\"period\":10,\"body\":[[\"end\"]]}]}";

const BODY_TWICE: &[u8] =
    b"{\"plugin\":\"GSN-EDF\",\"clusters\":[{\"cpus\":2}],\"horizon\":9,\"tasks\":[{\"name\":\"A\",\"cost\":2,\"period\":9,\"body\":[[\"work\",2]],\"body\":[[\"work\",1],[\"end\"]]}]}";

const BODY_ONCE: &[u8] =
    b"{\"plugin\":\"GSN-EDF\",\"clusters\":[{\"cpus\":2}],\"tasks\":[{\"name\":\"A\",\"cost\":2,\"period\":9,\"body\":[[\"work\",1],[\"end\"]]}],\"horizon\":9}";

#[test]
fn reads_a_set(rt: HostRuntime) -> Result<(), Fail> {
    let setup = read_set(rt.alloc(), PLAIN)?;
    let tasks = setup.parts().tasks.as_slice();
    assert_eq!(rt; tasks.len(), 1);
    assert_eq!(rt; tasks[0].rel_deadline, 3);
    assert_eq!(rt; tasks[0].body.as_slice().len(), 3);
    Ok(())
}

#[test]
fn refuses_an_unknown_name(rt: HostRuntime) {
    match read_set(rt.alloc(), UNKNOWN_NAME) {
        Err(SetStop::Bad(bad)) => {
            assert_eq!(rt; bad.kind, SetKind::Name);
            assert_eq!(rt; bad.place.part, Part::Step);
            assert_eq!(rt; bad.place.index, 1);
        }
        _ => panic!(rt; "not refused"),
    }
}

#[test]
fn refuses_what_is_no_json(rt: HostRuntime) {
    match read_set(rt.alloc(), b"{") {
        Err(SetStop::Bad(bad)) => assert_eq!(rt; bad.kind, SetKind::NotJson),
        _ => panic!(rt; "not refused"),
    }
}

fn canonical_text(alloc: Global, document: &[u8]) -> Result<Vec<u8>, Fail> {
    let setup = read_set(alloc, document)?;
    Ok(canonical(alloc, &setup)?)
}

#[test]
fn bodies_are_read_from_bytes(rt: HostRuntime) -> Result<(), Fail> {
    let alloc = rt.alloc();
    let text = canonical_text(alloc, FROM_BYTES)?;
    for document in [WITH_BLANKS, TASKS_FIRST, BODY_NOT_LAST] {
        let other = canonical_text(alloc, document)?;
        assert_eq!(rt; text.as_slice(), other.as_slice());
    }
    Ok(())
}

#[test]
fn the_last_body_stays(rt: HostRuntime) -> Result<(), Fail> {
    let alloc = rt.alloc();
    let twice = canonical_text(alloc, BODY_TWICE)?;
    let once = canonical_text(alloc, BODY_ONCE)?;
    assert_eq!(rt; twice.as_slice(), once.as_slice());
    Ok(())
}

#[test]
fn refuses_a_misshapen_task_with_a_body(rt: HostRuntime) {
    for document in [EMPTY_BODY, NO_COST] {
        match read_set(rt.alloc(), document) {
            Err(SetStop::Bad(bad)) => {
                assert_eq!(rt; bad.kind, SetKind::Shape);
                assert_eq!(rt; bad.place.part, Part::Task);
                assert_eq!(rt; bad.place.index, 1);
            }
            _ => panic!(rt; "not refused"),
        }
    }
}

#[test]
fn refuses_an_unknown_semaphore_in_a_body(rt: HostRuntime) {
    match read_set(rt.alloc(), UNKNOWN_SEM) {
        Err(SetStop::Bad(bad)) => {
            assert_eq!(rt; bad.kind, SetKind::Name);
            assert_eq!(rt; bad.place.part, Part::Task);
            assert_eq!(rt; bad.place.index, 0);
        }
        _ => panic!(rt; "not refused"),
    }
}
