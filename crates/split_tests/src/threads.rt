//! Processors of a split run that meet at a gate: their threads run beside each other.

use crate::commands::split;
use cpu_site::Gate;
use rt_base::CpuNo;
use rt_fault::Status;
use std::sync::Wait;
use std::sync::atomic::{AtomicBool, AtomicU64, Ordering};
use std::test::Fail;
use std::thread;

const TWO_TICKS_EACH: &str =
    r#"{"plugin":"P-FP","clusters":[{"cpus":1},{"cpus":1}],"steps":[[0,0,"tick"],[0,1,"tick"],[1,0,"tick"],[1,1,"tick"]]}"#;

const TEXT: &str = "rtsched split 1
set {\"clusters\":[{\"cpus\":1,\"group\":0},{\"cpus\":1,\"group\":0}],\"plugin\":\"P-FP\",\"resvs\":[],\"sems\":[],\"steps\":[[0,0,\"tick\"],[0,1,\"tick\"],[1,0,\"tick\"],[1,1,\"tick\"]],\"tasks\":[]}
part 0 -
0 0 tick done
1 1 tick done
part 1 -
0 0 tick done
1 1 tick done
end
";

/// How many looks a processor waits for the other one.
const MOST_LOOKS: u32 = 100_000_000;

/// What the steps of one processor asked.
#[derive(Drop)]
struct Asked {
    is_there: AtomicBool,
    steps: AtomicU64,
}

impl Asked {
    fn nothing() -> Asked {
        Asked {
            is_there: AtomicBool::new(false),
            steps: AtomicU64::new(0),
        }
    }

    /// Whether the processor came, after this many looks at most.
    fn comes(&self) -> bool {
        for _ in 0..MOST_LOOKS {
            if self.is_there.load(Ordering::SeqCst) {
                return true;
            }
            thread::yield_now();
        }
        false
    }
}

/// Holds the first step of each of two processors until the first step of the other has come, and counts the steps.
#[derive(Drop)]
struct StartBarrier {
    zero: Asked,
    one: Asked,
    is_late: AtomicBool,
    is_out_of_turn: AtomicBool,
}

impl StartBarrier {
    fn new() -> StartBarrier {
        StartBarrier {
            zero: Asked::nothing(),
            one: Asked::nothing(),
            is_late: AtomicBool::new(false),
            is_out_of_turn: AtomicBool::new(false),
        }
    }
}

impl Gate for StartBarrier {
    fn before<R: Wait>(&self, _rt: &R, cpu: CpuNo, n: u32) {
        let (own, other) = match cpu.0 {
            0 => (&self.zero, &self.one),
            _ => (&self.one, &self.zero),
        };
        if own.steps.fetch_add(1, Ordering::SeqCst) != u64::from(n) {
            self.is_out_of_turn.store(true, Ordering::SeqCst);
        }
        if n == 0 {
            own.is_there.store(true, Ordering::SeqCst);
            if !other.comes() {
                self.is_late.store(true, Ordering::SeqCst);
            }
        }
    }
}

#[test]
fn two_partitions_meet(rt: HostRuntime) -> Result<(), Fail> {
    let gate = StartBarrier::new();
    let (status, out) = split(&rt, rt.alloc(), TWO_TICKS_EACH, 4096, &gate)?;
    assert_eq!(rt; status, Status::Ok);
    assert!(rt; !gate.is_late.load(Ordering::SeqCst));
    assert!(rt; !gate.is_out_of_turn.load(Ordering::SeqCst));
    // Before each of two steps, and before the one that finds none left.
    assert_eq!(rt; gate.zero.steps.load(Ordering::SeqCst), 3);
    assert_eq!(rt; gate.one.steps.load(Ordering::SeqCst), 3);
    assert_eq!(rt; out.as_slice(), TEXT.as_bytes());
    Ok(())
}
