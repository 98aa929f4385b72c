//! Lines as text, with each act and each reply, in both formats.

use rt_base::{CpuNo, GroupNo, SemNo, TaskNo, Tick};
use rt_rules::{Entry, Reply};
use rt_task::{Act, Op, Setup, Step};
use set_read::read_set;
use std::alloc::Global;
use std::test::Fail;
use trace_lines::{
    CpuLink, Format, Version, put_block_line, put_count_line, put_end_line, put_entry_line,
    put_group_line,
};

/// Three tasks, whose names are what a number and a dash are too.
fn set(alloc: Global) -> Result<Setup, Fail> {
    let document =
        b"{\"plugin\":\"GSN-EDF\",\"clusters\":[{\"cpus\":1}],\"tasks\":[{\"name\":\"2\",\"cost\":1,\"period\":10},{\"name\":\"-\",\"cost\":1,\"period\":10},{\"name\":\"a_B-9\",\"cost\":1,\"period\":10}],\"steps\":[]}";
    Ok(read_set(alloc, document)?)
}

fn line_in(
    alloc: Global,
    version: Version,
    act: Act,
    reply: Reply,
    links: &[CpuLink],
) -> Result<Vec<u8>, Fail> {
    let setup = set(alloc)?;
    let parts = setup.parts();
    let mut out = Vec::new(alloc);
    let step = Step {
        cpu: CpuNo(63),
        tick: Tick(999_999_999_999),
        act,
    };
    put_entry_line(
        &mut out,
        &Format { version, parts },
        199_999,
        &Entry { step, reply },
        links,
    )?;
    Ok(out)
}

fn line_of(alloc: Global, act: Act, reply: Reply, links: &[CpuLink]) -> Result<Vec<u8>, Fail> {
    line_in(alloc, Version::One, act, reply, links)
}

#[test]
fn writes_names_in_format_2(rt: HostRuntime) -> Result<(), Fail> {
    let links = [
        CpuLink {
            cpu: CpuNo(0),
            task: Some(TaskNo(3)),
        },
        CpuLink {
            cpu: CpuNo(10),
            task: None,
        },
    ];
    let line = line_in(
        rt.alloc(),
        Version::Two,
        Act::Arrive(TaskNo(2)),
        Reply::Runs(TaskNo(1)),
        &links,
    )?;
    assert_eq!(rt;
        line.as_slice(),
        b"199999 999999999999 63 arrive @- runs @2 0:@a_B-9 10:-\n".as_slice()
    );
    let setup = set(rt.alloc())?;
    let format = Format {
        version: Version::Two,
        parts: setup.parts(),
    };
    let mut out = Vec::new(rt.alloc());
    put_group_line(&mut out, &format, GroupNo(2), &links)?;
    put_block_line(&mut out, &format, 6, TaskNo(3), SemNo(1), 2, 4, Some(3))?;
    assert_eq!(rt;
        out.as_slice(),
        b"group 2 0:@a_B-9 10:-\nblock 6 @a_B-9 1 2 4 3\n".as_slice()
    );
    Ok(())
}

#[test]
fn writes_each_act(rt: HostRuntime) -> Result<(), Fail> {
    let acts = [
        (Act::Tick, "199999 999999999999 63 tick done\n"),
        (Act::Irq, "199999 999999999999 63 irq done\n"),
        (
            Act::Arrive(TaskNo(1024)),
            "199999 999999999999 63 arrive 1024 done\n",
        ),
        (Act::Do(Op::Work), "199999 999999999999 63 work done\n"),
        (
            Act::Do(Op::Lock(SemNo(7))),
            "199999 999999999999 63 lock 7 done\n",
        ),
        (
            Act::Do(Op::Unlock(SemNo(256))),
            "199999 999999999999 63 unlock 256 done\n",
        ),
        (
            Act::Do(Op::Sleep(10)),
            "199999 999999999999 63 sleep 10 done\n",
        ),
        (Act::Do(Op::NpOn), "199999 999999999999 63 npon done\n"),
        (Act::Do(Op::NpOff), "199999 999999999999 63 npoff done\n"),
        (Act::Do(Op::End), "199999 999999999999 63 end done\n"),
    ];
    for (act, text) in acts.iter() {
        let line = line_of(rt.alloc(), *act, Reply::Done, &[])?;
        assert_eq!(rt; line.as_slice(), text.as_bytes());
    }
    Ok(())
}

#[test]
fn writes_each_reply(rt: HostRuntime) -> Result<(), Fail> {
    let replies = [
        (Reply::Done, "199999 999999999999 63 irq done\n"),
        (
            Reply::Runs(TaskNo(12)),
            "199999 999999999999 63 irq runs 12\n",
        ),
        (Reply::Idles, "199999 999999999999 63 irq idles\n"),
        (Reply::Granted, "199999 999999999999 63 irq granted\n"),
        (Reply::Queued, "199999 999999999999 63 irq queued\n"),
        (Reply::Quiet, "199999 999999999999 63 irq quiet\n"),
        (Reply::Deferred, "199999 999999999999 63 irq deferred\n"),
        (Reply::Idle, "199999 999999999999 63 irq idle\n"),
        (Reply::Spent, "199999 999999999999 63 irq spent\n"),
        (Reply::NoBudget, "199999 999999999999 63 irq nobudget\n"),
        (
            Reply::NotDeclared,
            "199999 999999999999 63 irq notdeclared\n",
        ),
        (Reply::Nested, "199999 999999999999 63 irq nested\n"),
        (Reply::NotHeld, "199999 999999999999 63 irq notheld\n"),
        (Reply::NotLast, "199999 999999999999 63 irq notlast\n"),
        (Reply::Holding, "199999 999999999999 63 irq holding\n"),
        (Reply::InNp, "199999 999999999999 63 irq innp\n"),
        (Reply::NotInNp, "199999 999999999999 63 irq notinnp\n"),
        (Reply::TooEarly, "199999 999999999999 63 irq tooearly\n"),
        (
            Reply::NotSporadic,
            "199999 999999999999 63 irq notsporadic\n",
        ),
    ];
    for (reply, text) in replies.iter() {
        let line = line_of(rt.alloc(), Act::Irq, *reply, &[])?;
        assert_eq!(rt; line.as_slice(), text.as_bytes());
    }
    Ok(())
}

#[test]
fn writes_links(rt: HostRuntime) -> Result<(), Fail> {
    let links = [
        CpuLink {
            cpu: CpuNo(0),
            task: Some(TaskNo(3)),
        },
        CpuLink {
            cpu: CpuNo(10),
            task: None,
        },
    ];
    let setup = set(rt.alloc())?;
    let format = Format {
        version: Version::One,
        parts: setup.parts(),
    };
    let mut out = Vec::new(rt.alloc());
    put_group_line(&mut out, &format, GroupNo(2), &links)?;
    assert_eq!(rt; out.as_slice(), b"group 2 0:3 10:-\n".as_slice());
    put_end_line(&mut out)?;
    assert_eq!(rt; out.as_slice(), b"group 2 0:3 10:-\nend\n".as_slice());
    let line = line_of(rt.alloc(), Act::Tick, Reply::Done, &links)?;
    assert_eq!(rt;
        line.as_slice(),
        b"199999 999999999999 63 tick done 0:3 10:-\n".as_slice()
    );
    Ok(())
}

#[test]
fn writes_block_lines_and_count_lines(rt: HostRuntime) -> Result<(), Fail> {
    let setup = set(rt.alloc())?;
    let format = Format {
        version: Version::One,
        parts: setup.parts(),
    };
    let mut out = Vec::new(rt.alloc());
    put_block_line(&mut out, &format, 6, TaskNo(3), SemNo(1), 2, 4, Some(3))?;
    assert_eq!(rt; out.as_slice(), b"block 6 3 1 2 4 3\n".as_slice());
    out.clear();
    put_block_line(&mut out, &format, 6, TaskNo(3), SemNo(1), 0, 0, None)?;
    assert_eq!(rt; out.as_slice(), b"block 6 3 1 0 0 -\n".as_slice());
    out.clear();
    put_count_line(&mut out, b't', &[12, 0])?;
    assert_eq!(rt; out.as_slice(), b"count t 12 0\n".as_slice());
    Ok(())
}
