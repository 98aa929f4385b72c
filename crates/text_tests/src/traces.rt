//! Traces that are read, to their end or up to a line that is none, and bytes that are no trace.

use rt_base::{SemNo, TaskNo};
use rt_rules::Reply;
use rt_task::{BadSet, Part, Place, SetKind};
use std::alloc::Global;
use std::test::Fail;
use trace_lines::Version;
use trace_read::{Line, Trace, TraceFault, read_trace};

const SET_LINE: &[u8] =
    b"set {\"clusters\":[{\"cpus\":2,\"group\":0}],\"plugin\":\"GSN-EDF\",\"resvs\":[],\"sems\":[{\"name\":\"S\",\"protocol\":\"OMLP\"}],\"steps\":[[0,0,\"tick\"],[0,0,\"irq\"],[0,0,\"irq\"]],\"tasks\":[{\"body\":[],\"cluster\":0,\"cost\":1,\"deadline\":5,\"enforce\":false,\"kind\":\"periodic\",\"name\":\"A\",\"period\":10,\"phase\":0,\"prio\":511,\"resv\":null,\"uses\":[]},{\"body\":[],\"cluster\":0,\"cost\":1,\"deadline\":7,\"enforce\":false,\"kind\":\"periodic\",\"name\":\"B\",\"period\":10,\"phase\":0,\"prio\":511,\"resv\":null,\"uses\":[]}]}\n";

/// The example of the document of formats.
const EXAMPLE: &[u8] =
    b"rtsched trace 1\nset {\"clusters\":[{\"cpus\":2,\"group\":0}],\"plugin\":\"GSN-EDF\",\"resvs\":[],\"sems\":[],\"steps\":[[0,0,\"tick\"],[0,0,\"irq\"],[0,0,\"irq\"]],\"tasks\":[{\"body\":[],\"cluster\":0,\"cost\":1,\"deadline\":5,\"enforce\":false,\"kind\":\"periodic\",\"name\":\"A\",\"period\":10,\"phase\":0,\"prio\":511,\"resv\":null,\"uses\":[]},{\"body\":[],\"cluster\":0,\"cost\":1,\"deadline\":7,\"enforce\":false,\"kind\":\"periodic\",\"name\":\"B\",\"period\":10,\"phase\":0,\"prio\":511,\"resv\":null,\"uses\":[]},{\"body\":[],\"cluster\":0,\"cost\":1,\"deadline\":9,\"enforce\":false,\"kind\":\"periodic\",\"name\":\"C\",\"period\":10,\"phase\":0,\"prio\":511,\"resv\":null,\"uses\":[]}]}\ngroup 0 0:1 1:2\n0 0 0 tick done\n1 0 0 irq runs 1\n2 0 0 irq quiet\nend\n";

/// These lines behind the head of a set with the tasks A and B, in format 2.
fn read_named(alloc: Global, lines: &str) -> Result<Trace, Fail> {
    let mut bytes = b"rtsched trace 2\n".to_vec(alloc)?;
    bytes.extend_from_slice(SET_LINE)?;
    bytes.extend_from_slice(lines.as_bytes())?;
    Ok(read_trace(alloc, bytes.as_slice())?)
}

#[test]
fn reads_names_in_format_2(rt: HostRuntime) -> Result<(), Fail> {
    let trace = read_named(
        rt.alloc(),
        "group 0 0:@B 1:-\n0 0 0 arrive @A runs @B 1:@A\nblock 7 @B 1 0 3 -\nend\n",
    )?;
    assert_eq!(rt; trace.version, Version::Two);
    assert_eq!(rt; trace.stop, None);
    match trace.lines.as_slice() {
        [
            Line::GroupLine { links, .. },
            Line::EntryLine { entry, .. },
            Line::BlockLine { task, sem, .. },
            Line::EndLine,
        ] => {
            assert_eq!(rt; links.as_slice().len(), 2);
            assert_eq!(rt; links.as_slice()[0].task, Some(TaskNo(2)));
            assert_eq!(rt; links.as_slice()[1].task, None);
            assert_eq!(rt; entry.reply, Reply::Runs(TaskNo(2)));
            assert_eq!(rt; *task, TaskNo(2));
            assert_eq!(rt; *sem, SemNo(1));
        }
        _ => panic!(rt; "other lines"),
    }
    Ok(())
}

#[test]
fn stops_where_a_task_has_the_other_form(rt: HostRuntime) -> Result<(), Fail> {
    for line in [
        "group 0 0:1\n",
        "group 0 0:A\n",
        "group 0 0:@1\n",
        "group 0 0:@\n",
        "group 0 0:@C\n",
        "group 0 0:@@A\n",
        "group 0 0:1@A\n",
        "0 0 0 irq runs 1\n",
        "0 0 0 arrive A done\n",
        "block 7 2 1 0 3 -\n",
    ] {
        let trace = read_named(rt.alloc(), line)?;
        assert_eq!(rt; trace.stop, Some(3));
    }
    for line in [
        "group 0 0:@A\n",
        "0 0 0 irq runs @A\n",
        "block 7 @B 1 0 3 -\n",
    ] {
        let trace = read_lines(rt.alloc(), line)?;
        assert_eq!(rt; trace.stop, Some(3));
    }
    Ok(())
}

fn read_lines(alloc: Global, lines: &str) -> Result<Trace, Fail> {
    let mut bytes = b"rtsched trace 1\n".to_vec(alloc)?;
    bytes.extend_from_slice(SET_LINE)?;
    bytes.extend_from_slice(lines.as_bytes())?;
    Ok(read_trace(alloc, bytes.as_slice())?)
}

#[test]
fn reads_a_whole_trace(rt: HostRuntime) -> Result<(), Fail> {
    let trace = read_trace(rt.alloc(), EXAMPLE)?;
    assert_eq!(rt; trace.version, Version::One);
    assert_eq!(rt; trace.setup.parts().tasks.as_slice().len(), 3);
    assert_eq!(rt; trace.stop, None);
    match trace.lines.as_slice() {
        [
            Line::GroupLine { group, links },
            Line::EntryLine { no: first, .. },
            Line::EntryLine {
                no,
                entry,
                links: changed,
            },
            Line::EntryLine { entry: last, .. },
            Line::EndLine,
        ] => {
            assert_eq!(rt; group.0, 0);
            assert_eq!(rt; links.as_slice().len(), 2);
            assert_eq!(rt; links.as_slice()[1].task, Some(TaskNo(2)));
            assert_eq!(rt; *first, 0);
            assert_eq!(rt; *no, 1);
            assert_eq!(rt; entry.reply, Reply::Runs(TaskNo(1)));
            assert_eq!(rt; changed.as_slice().len(), 0);
            assert_eq!(rt; last.reply, Reply::Quiet);
        }
        _ => panic!(rt; "other lines"),
    }
    Ok(())
}

#[test]
fn reads_block_lines_and_count_lines(rt: HostRuntime) -> Result<(), Fail> {
    let trace = read_lines(rt.alloc(), "block 7 2 1 0 3 -\ncount t 12 0\n")?;
    assert_eq!(rt; trace.stop, None);
    match trace.lines.as_slice() {
        [
            Line::BlockLine {
                no,
                task,
                sem,
                ends,
                ends_all,
                bound,
            },
            Line::CountLine { name, totals },
        ] => {
            assert_eq!(rt; *no, 7);
            assert_eq!(rt; *task, TaskNo(2));
            assert_eq!(rt; *sem, SemNo(1));
            assert_eq!(rt; *ends, 0);
            assert_eq!(rt; *ends_all, 3);
            assert_eq!(rt; *bound, None);
            assert_eq!(rt; *name, b't');
            assert_eq!(rt; totals.as_slice(), [12, 0].as_slice());
        }
        _ => panic!(rt; "other lines"),
    }
    Ok(())
}

#[test]
fn stops_at_a_line_that_is_none(rt: HostRuntime) -> Result<(), Fail> {
    let texts = [
        (
            "group 0 0:1 1:2\n0 0 0 tick done\n1 0 0 irq runs 1\n2 0 0 irq quiete\nend\n",
            6,
        ),
        ("group 0 0:1\nend", 4),
        ("group 0\n", 3),
        ("end\n\n", 4),
        ("00 0 0 tick done\n", 3),
        ("0 0 0  tick done\n", 3),
        ("0 0 0 tick done \n", 3),
        ("0 0 0 arrive 3 done\n", 3),
        ("0 0 0 arrive 0 done\n", 3),
        ("0 0 0 sleep 18446744073709551616 done\n", 3),
        ("count 1 0\n", 3),
    ];
    for (lines, stop) in texts.iter() {
        let trace = read_lines(rt.alloc(), lines)?;
        assert_eq!(rt; trace.stop, Some(*stop));
        assert_eq!(rt; trace.lines.as_slice().len() + 3, *stop as usize);
    }
    Ok(())
}

#[test]
fn refuses_what_is_no_trace(rt: HostRuntime) {
    let texts: [(&[u8], TraceFault); 5] = [
        (b"", TraceFault::NotTrace(1)),
        (b"rtsched trace 9\nset {}\n", TraceFault::NotTrace(1)),
        (b"rtsched trace 1\nset {}", TraceFault::NotTrace(2)),
        (b"rtsched trace 1\nsets {}\n", TraceFault::NotTrace(2)),
        (
            b"rtsched trace 1\nset {}\n",
            TraceFault::BadSet(BadSet {
                kind: SetKind::Shape,
                place: Place {
                    part: Part::Whole,
                    index: 0,
                },
            }),
        ),
    ];
    for (bytes, fault) in texts.iter() {
        match read_trace(rt.alloc(), bytes) {
            Ok(_) => panic!(rt; "read"),
            Err(found) => assert_eq!(rt; found, *fault),
        }
    }
}
