//! Tools of a stranger, and none at all: one that ends, and one that never does.
ghost use Rattle.program_tests.specs.Tools.{strange};

use crate::calls::words;
use rt_fault::{Status, SureSink, SureSource};
use sim_commands::sim;
use std::test::Fail;
use trace_tools::{Shown, TraceTool};

const BOUND_REACHED: &str =
    r#"{"clusters":[{"cpus":2,"group":0}],"plugin":"GSN-EDF","resvs":[],"sems":[{"name":"s1","protocol":"OMLP"}],"steps":[[0,0,"irq"],[1,0,"irq"],[0,0,"lock","s1"],[1,0,"lock","s1"],[1,1,"arrive","C"],[1,1,"irq"],[1,1,"lock","s1"],[1,2,"arrive","D"],[1,2,"irq"],[1,2,"lock","s1"],[0,2,"unlock","s1"],[1,2,"irq"],[1,2,"unlock","s1"],[1,2,"irq"],[1,2,"unlock","s1"],[0,2,"irq"],[0,2,"unlock","s1"]],"tasks":[{"body":[],"cluster":0,"cost":1,"deadline":100,"enforce":false,"kind":"periodic","name":"A","period":1000,"phase":0,"prio":511,"resv":null,"uses":["s1"]},{"body":[],"cluster":0,"cost":1,"deadline":100,"enforce":false,"kind":"periodic","name":"B","period":1000,"phase":0,"prio":511,"resv":null,"uses":["s1"]},{"body":[],"cluster":0,"cost":1,"deadline":50,"enforce":false,"kind":"sporadic","name":"C","period":1000,"phase":0,"prio":511,"resv":null,"uses":["s1"]},{"body":[],"cluster":0,"cost":1,"deadline":20,"enforce":false,"kind":"sporadic","name":"D","period":1000,"phase":0,"prio":511,"resv":null,"uses":["s1"]}]}"#;

const BOUND_REACHED_REST: &str = "group 0 0:@A 1:@B
0 0 0 irq runs @A
1 0 1 irq runs @B
2 0 0 lock 1 granted
3 0 1 lock 1 queued 1:-
4 1 1 arrive @C done 1:@C
5 1 1 irq runs @C
6 1 1 lock 1 queued 1:-
7 2 1 arrive @D done 1:@D
8 2 1 irq runs @D
9 2 1 lock 1 queued 1:-
10 2 0 unlock 1 done 1:@B
11 2 1 irq runs @B
12 2 1 unlock 1 done 1:@D
13 2 1 irq runs @D
14 2 1 unlock 1 done 0:@C
15 2 0 irq runs @C
16 2 0 unlock 1 done
block 2 @A 1 0 0 3
block 3 @B 1 0 1 3
block 6 @C 1 3 3 3
block 9 @D 1 2 2 3
end
";

/// Two tools: `Y` has every total; `X` ends after its third entry, and its total is how many it was fed.
#[derive(Drop)]
struct Strange {
    is_endless: bool,
    fed: u64,
}

impl TraceTool for Strange {
    ghost tool = { λ t. strange t.is_endless t.fed };

    fn feed(&mut self, _e: &Shown) {
        if self.is_endless {
            return;
        }
        self.fed = self.fed.saturating_add(1);
    }

    fn total(&self, i: u32) -> Option<u64> {
        if self.is_endless {
            return Some(u64::from(i));
        }
        if i == 0 { Some(self.fed) } else { None }
    }

    fn ended(&self) -> bool {
        !self.is_endless && self.fed >= 3
    }

    fn name(&self) -> u8 {
        if self.is_endless { b'Y' } else { b'X' }
    }
}

#[test]
fn plays_with_tools_of_a_stranger(rt: HostRuntime) -> Result<(), Fail> {
    let alloc = rt.alloc();
    let mut src = SureSource::new(BOUND_REACHED.as_bytes().to_vec(alloc)?);
    let mut out = SureSink::new(alloc, 8192)?;
    let three = Strange {
        is_endless: false,
        fed: 0,
    };
    let endless = Strange {
        is_endless: true,
        fed: 0,
    };
    let tools = vec![in alloc; three, endless]?;
    let words = words(alloc, &["sim"])?;
    let status = sim(alloc, words.as_slice(), &mut src, &mut out, tools);
    assert_eq!(rt; status, Status::Ok);
    let head = "rtsched trace 2\nset ";
    let mut wanted = format!(in alloc;
        "{head}{BOUND_REACHED}\n{BOUND_REACHED_REST}count X 3\ncount Y"
    )?;
    for i in 0..64u32 {
        let word = format!(in alloc; " {i}")?;
        wanted.push_str(&word)?;
    }
    wanted.push('\n')?;
    assert_eq!(rt; out.as_slice(), wanted.as_bytes());
    Ok(())
}

#[test]
fn plays_with_no_tools(rt: HostRuntime) -> Result<(), Fail> {
    let alloc = rt.alloc();
    let mut src = SureSource::new(BOUND_REACHED.as_bytes().to_vec(alloc)?);
    let mut out = SureSink::new(alloc, 8192)?;
    let words = words(alloc, &["sim"])?;
    let none = Vec::<Strange>::new(alloc);
    let status = sim(alloc, words.as_slice(), &mut src, &mut out, none);
    assert_eq!(rt; status, Status::Ok);
    let head = "rtsched trace 2\nset ";
    let wanted = format!(in alloc; "{head}{BOUND_REACHED}\n{BOUND_REACHED_REST}")?;
    assert_eq!(rt; out.as_slice(), wanted.as_bytes());
    Ok(())
}
