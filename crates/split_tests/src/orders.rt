//! Orders in which the processors of a split run step, and the texts that come about.

use crate::stepping::{end_in_order, text_in_order};
use part_seat::Played2;
use rt_base::{SemNo, TaskNo, Tick};
use rt_rules::Reply;
use split_rules::{SplitAct, SplitEntry};
use std::test::Fail;

/// Task A of one partition locks X and frees it; task B of the other one locks it.
const TWO_LOCKS: &str =
    r#"{"plugin":"P-FP","clusters":[{"cpus":1},{"cpus":1}],"sems":[{"name":"X","protocol":"FMLP"}],"tasks":[{"name":"A","cost":1,"period":10,"cluster":0,"uses":["X"]},{"name":"B","cost":1,"period":10,"cluster":1,"uses":["X"]}],"steps":[[0,0,"irq"],[0,0,"lock","X"],[0,0,"unlock","X"],[1,0,"irq"],[1,0,"lock","X"]]}"#;

const TWO_LOCKS_HEAD: &str = "rtsched split 1
set {\"clusters\":[{\"cpus\":1,\"group\":0},{\"cpus\":1,\"group\":0}],\"plugin\":\"P-FP\",\"resvs\":[],\"sems\":[{\"name\":\"X\",\"protocol\":\"FMLP\"}],\"steps\":[[0,0,\"irq\"],[0,0,\"lock\",\"X\"],[0,0,\"unlock\",\"X\"],[1,0,\"irq\"],[1,0,\"lock\",\"X\"]],\"tasks\":[{\"body\":[],\"cluster\":0,\"cost\":1,\"deadline\":10,\"enforce\":false,\"kind\":\"periodic\",\"name\":\"A\",\"period\":10,\"phase\":0,\"prio\":511,\"resv\":null,\"uses\":[\"X\"]},{\"body\":[],\"cluster\":1,\"cost\":1,\"deadline\":10,\"enforce\":false,\"kind\":\"periodic\",\"name\":\"B\",\"period\":10,\"phase\":0,\"prio\":511,\"resv\":null,\"uses\":[\"X\"]}]}
";

/// B asks while A holds X, and takes the grant.
const B_WAITS: &str = "sem 1
0 0 @A ask granted
1 1 @B ask queued
2 0 @A release @B
part 0 @A
0 0 irq runs @A
1 0 lock 1 granted
2 0 unlock 1 done
part 1 @B
0 0 irq runs @B
1 0 lock 1 queued -
2 0 take 1 2 done @B
end
";

/// A has freed X before B asks.
const B_COMES_LATER: &str = "sem 1
0 0 @A ask granted
1 0 @A release -
2 1 @B ask granted
part 0 @A
0 0 irq runs @A
1 0 lock 1 granted
2 0 unlock 1 done
part 1 @B
0 0 irq runs @B
1 0 lock 1 granted
end
";

/// The set, the order and the text of the case `split/split-028`.
const CASE: &str =
    r#"{"plugin": "P-FP", "clusters": [{"cpus": 1}, {"cpus": 1}], "tasks": [{"name": "t1", "cost": 4, "period": 1000, "prio": 3, "cluster": 1, "uses": ["s1"]}, {"name": "t2", "cost": 3, "period": 10, "prio": 2, "cluster": 1, "uses": ["s1"]}, {"name": "t3", "cost": 3, "period": 10, "cluster": 0, "uses": ["s1"]}, {"name": "t4", "cost": 3, "period": 3, "cluster": 0, "uses": ["s1"]}], "sems": [{"name": "s1", "protocol": "FMLP"}], "steps": [[0, 0, "irq"], [1, 0, "irq"], [0, 1, "lock", "s1"], [1, 1, "lock", "s1"], [0, 3, "work"], [1, 3, "irq"], [1, 6, "lock", "s1"], [0, 6, "work"], [0, 7, "unlock", "s1"], [0, 7, "lock", "s1"], [1, 22, "irq"], [1, 24, "work"], [0, 25, "tick"], [1, 28, "end"], [1, 28, "unlock", "s1"], [1, 29, "irq"], [0, 29, "irq"], [0, 29, "lock", "s1"], [1, 30, "unlock", "s1"], [0, 37, "tick"], [1, 37, "irq"], [1, 37, "lock", "s1"], [1, 37, "irq"], [1, 37, "lock", "s1"], [0, 37, "tick"], [0, 37, "irq"], [0, 8, "work"], [0, 38, "unlock", "s1"], [0, 38, "irq"], [0, 39, "unlock", "s1"]]}"#;

const CASE_ORDER: &str =
    "1011011001101111000111011100011110111110101100100010001101100101010101010101010101010101010101010101010101010101010101010101010101010101";

const CASE_TEXT: &str = "rtsched split 1
set {\"clusters\":[{\"cpus\":1,\"group\":0},{\"cpus\":1,\"group\":0}],\"plugin\":\"P-FP\",\"resvs\":[],\"sems\":[{\"name\":\"s1\",\"protocol\":\"FMLP\"}],\"steps\":[[0,0,\"irq\"],[1,0,\"irq\"],[0,1,\"lock\",\"s1\"],[1,1,\"lock\",\"s1\"],[0,3,\"work\"],[1,3,\"irq\"],[1,6,\"lock\",\"s1\"],[0,6,\"work\"],[0,7,\"unlock\",\"s1\"],[0,7,\"lock\",\"s1\"],[1,22,\"irq\"],[1,24,\"work\"],[0,25,\"tick\"],[1,28,\"end\"],[1,28,\"unlock\",\"s1\"],[1,29,\"irq\"],[0,29,\"irq\"],[0,29,\"lock\",\"s1\"],[1,30,\"unlock\",\"s1\"],[0,37,\"tick\"],[1,37,\"irq\"],[1,37,\"lock\",\"s1\"],[1,37,\"irq\"],[1,37,\"lock\",\"s1\"],[0,37,\"tick\"],[0,37,\"irq\"],[0,8,\"work\"],[0,38,\"unlock\",\"s1\"],[0,38,\"irq\"],[0,39,\"unlock\",\"s1\"]],\"tasks\":[{\"body\":[],\"cluster\":1,\"cost\":4,\"deadline\":1000,\"enforce\":false,\"kind\":\"periodic\",\"name\":\"t1\",\"period\":1000,\"phase\":0,\"prio\":3,\"resv\":null,\"uses\":[\"s1\"]},{\"body\":[],\"cluster\":1,\"cost\":3,\"deadline\":10,\"enforce\":false,\"kind\":\"periodic\",\"name\":\"t2\",\"period\":10,\"phase\":0,\"prio\":2,\"resv\":null,\"uses\":[\"s1\"]},{\"body\":[],\"cluster\":0,\"cost\":3,\"deadline\":10,\"enforce\":false,\"kind\":\"periodic\",\"name\":\"t3\",\"period\":10,\"phase\":0,\"prio\":511,\"resv\":null,\"uses\":[\"s1\"]},{\"body\":[],\"cluster\":0,\"cost\":3,\"deadline\":3,\"enforce\":false,\"kind\":\"periodic\",\"name\":\"t4\",\"period\":3,\"phase\":0,\"prio\":511,\"resv\":null,\"uses\":[\"s1\"]}]}
sem 1
0 1 @t2 ask granted
1 0 @t3 ask queued
2 1 @t2 release @t3
3 1 @t2 ask queued
4 1 @t1 ask queued
5 0 @t3 release @t2
part 0 @t3
0 0 irq runs @t3
1 1 lock 1 queued @t4
2 3 work idle
3 6 work idle
4 7 unlock 1 idle
5 7 take 1 2 done @t3
6 7 lock 1 idle
7 25 tick done
8 29 irq runs @t3
9 29 lock 1 nested
10 37 tick done
11 37 tick done
12 37 irq quiet
13 8 work done
14 38 unlock 1 done
15 38 irq quiet
16 39 unlock 1 notheld
part 1 @t2
0 0 irq runs @t2
1 1 lock 1 granted
2 3 irq quiet
3 6 lock 1 nested
4 22 irq quiet
5 24 work done
6 28 end holding
7 28 unlock 1 done
8 29 irq quiet
9 30 unlock 1 notheld
10 37 irq quiet
11 37 lock 1 queued @t1
12 37 irq runs @t1
13 37 lock 1 queued -
14 37 take 1 5 done @t2
end
";

/// B's take of the grant by entry 2 of the history of X.
const TAKE_OF_B: SplitEntry = SplitEntry {
    tick: Tick(0),
    act: SplitAct::Take {
        sem: SemNo(1),
        no: 2,
        task: TaskNo(2),
    },
    reply: Reply::Done,
};

#[test]
fn a_grant_is_taken_after_it_was_posted(rt: HostRuntime) -> Result<(), Fail> {
    let (last, text) = text_in_order(&rt, rt.alloc(), TWO_LOCKS, "001101")?;
    let is_take = matches!(last, Some(Played2::Did(entry)) if entry == TAKE_OF_B);
    assert!(rt; is_take, "the sixth step takes the grant");
    let wanted = format!(in rt.alloc(); "{TWO_LOCKS_HEAD}{B_WAITS}")?;
    assert_eq!(rt; text.as_slice(), wanted.as_bytes());
    Ok(())
}

#[test]
fn a_grant_that_nobody_took_is_taken_at_the_end(rt: HostRuntime) -> Result<(), Fail> {
    let end = end_in_order(&rt, rt.alloc(), TWO_LOCKS, "00110")?;
    let is_taken = match end.parts.as_slice() {
        [_, second] => second.last() == Some(&TAKE_OF_B),
        _ => false,
    };
    assert!(rt; is_taken, "the last entry of B's partition");
    Ok(())
}

#[test]
fn a_later_request_waits_for_no_grant(rt: HostRuntime) -> Result<(), Fail> {
    let (_, text) = text_in_order(&rt, rt.alloc(), TWO_LOCKS, "00011")?;
    let wanted = format!(in rt.alloc(); "{TWO_LOCKS_HEAD}{B_COMES_LATER}")?;
    assert_eq!(rt; text.as_slice(), wanted.as_bytes());
    Ok(())
}

#[test]
fn an_order_of_a_case_has_its_text(rt: HostRuntime) -> Result<(), Fail> {
    let (last, text) = text_in_order(&rt, rt.alloc(), CASE, CASE_ORDER)?;
    assert!(rt;
        matches!(last, Some(Played2::Ended)),
        "all steps are played"
    );
    assert_eq!(rt; text.as_slice(), CASE_TEXT.as_bytes());
    Ok(())
}
