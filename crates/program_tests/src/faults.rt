//! Reads and writes that fail, one at a time.

use crate::calls::play;
use rt_fault::{MemSink, MemSource, Status, SureSink, SureSource};
use std::alloc::Global;
use std::test::Fail;

const FIRST_PATH: &str =
    r#"{"plugin":"GSN-EDF","clusters":[{"cpus":2}],"tasks":[{"name":"A","cost":1,"period":10,"deadline":5},{"name":"B","cost":1,"period":10,"deadline":7},{"name":"C","cost":1,"period":10,"deadline":9}],"steps":[[0,0,"tick"],[0,0,"irq"],[0,0,"irq"]]}"#;

const FIRST_PATH_SET: &str =
    "{\"clusters\":[{\"cpus\":2,\"group\":0}],\"plugin\":\"GSN-EDF\",\"resvs\":[],\"sems\":[],\"steps\":[[0,0,\"tick\"],[0,0,\"irq\"],[0,0,\"irq\"]],\"tasks\":[{\"body\":[],\"cluster\":0,\"cost\":1,\"deadline\":5,\"enforce\":false,\"kind\":\"periodic\",\"name\":\"A\",\"period\":10,\"phase\":0,\"prio\":511,\"resv\":null,\"uses\":[]},{\"body\":[],\"cluster\":0,\"cost\":1,\"deadline\":7,\"enforce\":false,\"kind\":\"periodic\",\"name\":\"B\",\"period\":10,\"phase\":0,\"prio\":511,\"resv\":null,\"uses\":[]},{\"body\":[],\"cluster\":0,\"cost\":1,\"deadline\":9,\"enforce\":false,\"kind\":\"periodic\",\"name\":\"C\",\"period\":10,\"phase\":0,\"prio\":511,\"resv\":null,\"uses\":[]}]}";

/// The write calls of a run over the set.
const CALLS: u32 = 12;

/// The trace of the set, cut where one write call ends and the next begins.
const WRITES: [&str; 12] = [
    "rtsched trace 2\n",
    "set ",
    FIRST_PATH_SET,
    "\n",
    "group 0 0:@A 1:@B\n",
    "0 0 0 tick done\n1 0 0 irq runs @A\n2 0 0 irq quiet\n",
    "end\n",
    "count M 0\n",
    "count S 1\n",
    "count G 0\n",
    "count O 0\n",
    "count F\n",
];

/// The read calls of a run over the set, 16 bytes a call: 16 of them give its 242 bytes, and one more finds the end.
const READS: u32 = 17;

/// What the first write calls write, so many of them.
fn first_writes(alloc: Global, count: u32) -> Result<String, Fail> {
    let mut text = String::new(alloc);
    for piece in WRITES.iter().take(count as usize) {
        text.push_str(piece)?;
    }
    Ok(text)
}

/// Whether `sim` ends so where this write call fails, and leaves exactly what the calls before it write.
fn stops_at_write(alloc: Global, call: u32, ends: Status) -> Result<bool, Fail> {
    let mut src = SureSource::new(FIRST_PATH.as_bytes().to_vec(alloc)?);
    let mut out = MemSink::new(alloc, 4096, [call].to_vec(alloc)?)?;
    let status = play(alloc, &mut src, &mut out)?;
    let wanted = first_writes(alloc, call)?;
    Ok(status == ends && out.as_slice() == wanted.as_bytes())
}

/// Whether `sim` ends so where this read call fails, and writes this text.
fn stops_at_read(alloc: Global, call: u32, ends: Status, wanted: &str) -> Result<bool, Fail> {
    let bytes = FIRST_PATH.as_bytes().to_vec(alloc)?;
    let mut src = MemSource::new(bytes, 16, [call].to_vec(alloc)?);
    let mut out = SureSink::new(alloc, 4096)?;
    let status = play(alloc, &mut src, &mut out)?;
    Ok(status == ends && out.as_slice() == wanted.as_bytes())
}

#[test]
fn stops_at_each_call_that_fails(rt: HostRuntime) -> Result<(), Fail> {
    let alloc = rt.alloc();
    for call in 0..CALLS {
        assert!(rt;
            stops_at_write(alloc, call, Status::WriteFault)?,
            "write call {call}"
        );
    }
    assert!(rt; stops_at_write(alloc, CALLS, Status::Ok)?);
    for call in 0..READS {
        assert!(rt;
            stops_at_read(alloc, call, Status::ReadFault, "")?,
            "read call {call}"
        );
    }
    let whole = first_writes(alloc, CALLS)?;
    assert!(rt; stops_at_read(alloc, READS, Status::Ok, whole.as_str())?);
    Ok(())
}
