//! The command `split`: its words, sets at the limit, and what is refused.

use cpu_site::{Gate, OpenGate};
use rt_fault::{Sink, Source, Status, SureSink, SureSource};
use rt_task::{Part, SetKind};
use run_command::run;
use set_input::refused;
use std::alloc::Global;
use std::sync::Wait;
use std::test::Fail;
use std::thread::Threads;
use trace_tools::shipped_tools;

/// A set with arrivals, under GSN-EDF.
const ARRIVALS: &str =
    r#"{"plugin":"GSN-EDF","clusters":[{"cpus":1}],"tasks":[{"name":"A","cost":1,"period":10,"deadline":10,"kind":"sporadic"},{"name":"B","cost":1,"period":1000,"deadline":100}],"steps":[[0,0,"arrive","A"],[0,9,"arrive","A"],[0,10,"arrive","A"],[0,10,"arrive","B"]]}"#;

/// Runs the words with the tools of the program.
fn command<R: Threads + Wait + Sync, S: Source, K: Sink, G: Gate + Sync>(
    rt: &R,
    alloc: Global,
    words: &[&str],
    src: &mut S,
    out: &mut K,
    gate: &G,
) -> Result<Status, Fail> {
    let mut line = Vec::new(alloc);
    for word in words {
        line.push(String::from_str(alloc, word)?)?;
    }
    let tools = shipped_tools(alloc)?;
    Ok(run(rt, alloc, line.as_slice(), src, out, tools, gate))
}

/// What `split` answers to a document, between ends that never fail, and what it writes.
pub(crate) fn split<R: Threads + Wait + Sync, G: Gate + Sync>(
    rt: &R,
    alloc: Global,
    set: &str,
    room: u64,
    gate: &G,
) -> Result<(Status, SureSink), Fail> {
    let mut src = SureSource::new(set.as_bytes().to_vec(alloc)?);
    let mut out = SureSink::new(alloc, room)?;
    let status = command(rt, alloc, &["split"], &mut src, &mut out, gate)?;
    Ok((status, out))
}

/// The set of one processor with so many Ticks.
fn ticks(alloc: Global, count: u32) -> Result<String, Fail> {
    let mut set = String::from_str(
        alloc,
        "{\"plugin\":\"PSN-EDF\",\"clusters\":[{\"cpus\":1}],\"steps\":[[0,0,\"tick\"]",
    )?;
    for _ in 1..count {
        set.push_str(",[0,0,\"tick\"]")?;
    }
    set.push_str("]}")?;
    Ok(set)
}

#[test]
fn plays_a_set_at_the_limit_and_none_beyond(rt: HostRuntime) -> Result<(), Fail> {
    let most = ticks(rt.alloc(), 20_000)?;
    let (status, out) = split(&rt, rt.alloc(), most.as_str(), 0, &OpenGate)?;
    assert_eq!(rt; status, Status::Ok);
    assert!(rt; out.beyond() > 0, "a text was written");
    let beyond = ticks(rt.alloc(), 20_001)?;
    let (status, out) = split(&rt, rt.alloc(), beyond.as_str(), 0, &OpenGate)?;
    assert_eq!(rt; status, refused(SetKind::NotSplit, Part::Whole, 0));
    assert_eq!(rt; out.beyond(), 0);
    Ok(())
}

#[test]
fn refuses_a_set_that_cannot_be_run_split(rt: HostRuntime) -> Result<(), Fail> {
    let (status, out) = split(&rt, rt.alloc(), ARRIVALS, 0, &OpenGate)?;
    assert_eq!(rt; status, refused(SetKind::NotSplit, Part::Whole, 0));
    assert_eq!(rt; out.beyond(), 0);
    Ok(())
}

#[test]
fn answers_usage_to_other_words(rt: HostRuntime) -> Result<(), Fail> {
    for words in [&["run", "split"][..], &["splits"][..], &[][..]] {
        let mut src = SureSource::new(ARRIVALS.as_bytes().to_vec(rt.alloc())?);
        let mut out = SureSink::new(rt.alloc(), 0)?;
        let status = command(&rt, rt.alloc(), words, &mut src, &mut out, &OpenGate)?;
        assert_eq!(rt; status, Status::Usage);
        assert_eq!(rt; out.beyond(), 0);
    }
    assert_eq!(rt; run_command::USAGE, "usage: rtrun run, rtrun split");
    Ok(())
}
