//! The command `run`: processors that meet at a gate, the order in which their threads play, and a refusal.

use crate::calls::words;
use cpu_site::{Gate, OpenGate};
use rt_base::CpuNo;
use rt_fault::{Sink, Source, Status, SureSink, SureSource};
use rt_task::{Part, SetKind};
use run_command::run;
use set_input::refused;
use std::alloc::Global;
use std::sync::Wait;
use std::sync::atomic::{AtomicBool, AtomicU64, Ordering};
use std::test::Fail;
use std::thread;
use trace_check::{Verdict, check_trace};
use trace_read::read_head;
use trace_tools::{Bus, shipped_tools};

const TWO_TICKS_EACH: &str =
    r#"{"plugin":"GSN-EDF","clusters":[{"cpus":2}],"steps":[[0,0,"tick"],[0,1,"tick"],[1,0,"tick"],[1,1,"tick"]]}"#;

const TWO_TURNS_EACH: &str = r#"{"plugin":"GSN-EDF","clusters":[{"cpus":2}],"horizon":2}"#;

/// What is said of the text of a trace, where it is one of a set that can be checked.
fn verdict(alloc: Global, text: &[u8]) -> Option<Verdict> {
    let Ok(head) = read_head(alloc, text) else {
        return None;
    };
    let mut bus = Bus::open(alloc, shipped_tools(alloc).ok()?).ok()?;
    check_trace(alloc, text, &head, &mut bus).ok()
}

/// Runs the command with the tools of the program.
fn command<R: thread::Threads + Wait + Sync, S: Source, K: Sink, G: Gate + Sync>(
    rt: &R,
    alloc: Global,
    src: &mut S,
    out: &mut K,
    gate: &G,
) -> Result<Status, Fail> {
    let words = words(alloc, &["run"])?;
    let tools = shipped_tools(alloc)?;
    Ok(run(rt, alloc, words.as_slice(), src, out, tools, gate))
}

/// The text that a set gives, between ends that never fail.
fn text_of<R: thread::Threads + Wait + Sync, G: Gate + Sync>(
    rt: &R,
    alloc: Global,
    set: &str,
    gate: &G,
) -> Result<SureSink, Fail> {
    let mut src = SureSource::new(set.as_bytes().to_vec(alloc)?);
    let mut out = SureSink::new(alloc, 8192)?;
    match command(rt, alloc, &mut src, &mut out, gate)? {
        Status::Ok => Ok(out),
        _ => Err(Fail::new("the set was not played")),
    }
}

/// How many looks a processor waits for the other one.
const MOST_LOOKS: u32 = 100_000_000;

/// What the plays of one processor asked.
#[derive(Drop)]
struct Asked {
    is_there: AtomicBool,
    plays: AtomicU64,
}

impl Asked {
    fn nothing() -> Asked {
        Asked {
            is_there: AtomicBool::new(false),
            plays: AtomicU64::new(0),
        }
    }

    /// Whether the processor came, after this many looks at most.
    fn comes(&self) -> bool {
        for _ in 0..MOST_LOOKS {
            if self.is_there.load(Ordering::SeqCst) {
                return true;
            }
            thread::yield_now();
        }
        false
    }
}

/// Holds the first play of each of two processors until the first play of the other has come, and counts the plays.
#[derive(Drop)]
struct StartBarrier {
    zero: Asked,
    one: Asked,
    is_late: AtomicBool,
    is_out_of_turn: AtomicBool,
}

impl StartBarrier {
    fn new() -> StartBarrier {
        StartBarrier {
            zero: Asked::nothing(),
            one: Asked::nothing(),
            is_late: AtomicBool::new(false),
            is_out_of_turn: AtomicBool::new(false),
        }
    }
}

impl Gate for StartBarrier {
    fn before<R: Wait>(&self, _rt: &R, cpu: CpuNo, n: u32) {
        let (own, other) = match cpu.0 {
            0 => (&self.zero, &self.one),
            _ => (&self.one, &self.zero),
        };
        if own.plays.fetch_add(1, Ordering::SeqCst) != u64::from(n) {
            self.is_out_of_turn.store(true, Ordering::SeqCst);
        }
        if n == 0 {
            own.is_there.store(true, Ordering::SeqCst);
            if !other.comes() {
                self.is_late.store(true, Ordering::SeqCst);
            }
        }
    }
}

#[test]
fn two_processors_meet(rt: HostRuntime) -> Result<(), Fail> {
    let gate = StartBarrier::new();
    let out = text_of(&rt, rt.alloc(), TWO_TICKS_EACH, &gate)?;
    assert!(rt; !gate.is_late.load(Ordering::SeqCst));
    assert!(rt; !gate.is_out_of_turn.load(Ordering::SeqCst));
    assert_eq!(rt; gate.zero.plays.load(Ordering::SeqCst), 3);
    assert_eq!(rt; gate.one.plays.load(Ordering::SeqCst), 3);
    assert_eq!(rt;
        verdict(rt.alloc(), out.as_slice()),
        Some(Verdict::Valid(4))
    );
    Ok(())
}

#[test]
fn two_processors_meet_at_their_turns(rt: HostRuntime) -> Result<(), Fail> {
    let gate = StartBarrier::new();
    let out = text_of(&rt, rt.alloc(), TWO_TURNS_EACH, &gate)?;
    assert!(rt; !gate.is_late.load(Ordering::SeqCst));
    assert!(rt; !gate.is_out_of_turn.load(Ordering::SeqCst));
    // Of each turn its Tick, its Irq, and that it is over; and at the end that none is left.
    assert_eq!(rt; gate.zero.plays.load(Ordering::SeqCst), 7);
    assert_eq!(rt; gate.one.plays.load(Ordering::SeqCst), 7);
    assert_eq!(rt;
        verdict(rt.alloc(), out.as_slice()),
        Some(Verdict::Valid(8))
    );
    Ok(())
}

/// Holds the first play of processor 0 until processor 1 has played all its steps.
#[derive(Drop)]
struct OneFirst {
    one_is_over: AtomicBool,
    is_late: AtomicBool,
}

impl OneFirst {
    fn new() -> OneFirst {
        OneFirst {
            one_is_over: AtomicBool::new(false),
            is_late: AtomicBool::new(false),
        }
    }

    /// Whether processor 1 has played its steps, after this many looks at most.
    fn is_over(&self) -> bool {
        for _ in 0..MOST_LOOKS {
            if self.one_is_over.load(Ordering::SeqCst) {
                return true;
            }
            thread::yield_now();
        }
        false
    }
}

impl Gate for OneFirst {
    fn before<R: Wait>(&self, _rt: &R, cpu: CpuNo, n: u32) {
        if cpu.0 == 1 && n == 2 {
            self.one_is_over.store(true, Ordering::SeqCst);
        }
        if cpu.0 == 0 && n == 0 && !self.is_over() {
            self.is_late.store(true, Ordering::SeqCst);
        }
    }
}

const ONE_FIRST_TRACE: &str = "rtsched trace 2
set {\"clusters\":[{\"cpus\":2,\"group\":0}],\"plugin\":\"GSN-EDF\",\"resvs\":[],\"sems\":[],\"steps\":[[0,0,\"tick\"],[0,1,\"tick\"],[1,0,\"tick\"],[1,1,\"tick\"]],\"tasks\":[]}
group 0 0:- 1:-
0 0 1 tick done
1 1 1 tick done
2 0 0 tick done
3 1 0 tick done
end
count M 0
count S 0
count G 0
count O 0 0
count F
";

/// The trace is that of the steps as the threads took them, and not that of another order.
#[test]
fn the_order_of_the_threads_is_printed(rt: HostRuntime) -> Result<(), Fail> {
    let gate = OneFirst::new();
    let out = text_of(&rt, rt.alloc(), TWO_TICKS_EACH, &gate)?;
    assert!(rt; !gate.is_late.load(Ordering::SeqCst));
    assert_eq!(rt; out.as_slice(), ONE_FIRST_TRACE.as_bytes());
    Ok(())
}

#[test]
fn refuses_what_is_no_set(rt: HostRuntime) -> Result<(), Fail> {
    let mut src = SureSource::new(b"{}".to_vec(rt.alloc())?);
    let mut out = SureSink::new(rt.alloc(), 8)?;
    let status = command(&rt, rt.alloc(), &mut src, &mut out, &OpenGate)?;
    assert_eq!(rt; status, refused(SetKind::Shape, Part::Whole, 0));
    assert_eq!(rt; out.as_slice(), b"".as_slice());
    Ok(())
}
