//! Which lines a trace of a set may have.
ghost use Rattle.std.specs.Prelude.{◌≡◌, ◌↔◌, ◌≤◌, All, IsTrue, length};
ghost use Rattle.rt_base.specs.declared.TheConstants.{MOST_TOTALS};
ghost use Rattle.trace_lines.specs.Known as known;
ghost use Rattle.trace_lines.specs.Lines.{link_of, links_of, group_line};
ghost use Rattle.trace_read.specs.Lines.{line_of};

use crate::Line;
use crate::known::Known;
use rt_base::{GroupNo, MOST_TOTALS, SemNo, TaskNo};
use rt_rules::{Entry, Reply};
use rt_task::{Act, Op};
use trace_lines::CpuLink;

/// Whether `n` numbers one of `most` things, which are numbered from 1.
fn is_number_of(most: usize, n: u32) -> bool
    ensures { IsTrue result ↔ known.IsNumberOf most n }
{
    n >= 1 && n as usize <= most
}

fn op_fits(k: &Known, op: Op) -> bool
    ensures { IsTrue result ↔ known.OpIsKnown k.now op }
{
    match op {
        Op::Lock(s) | Op::Unlock(s) => is_number_of(k.sems(), s.0),
        _ => true,
    }
}

fn act_fits(k: &Known, act: Act) -> bool
    ensures { IsTrue result ↔ known.ActIsKnown k.now act }
{
    match act {
        Act::Arrive(t) => is_number_of(k.tasks(), t.0),
        Act::Do(op) => op_fits(k, op),
        _ => true,
    }
}

fn reply_fits(k: &Known, reply: Reply) -> bool
    ensures { IsTrue result ↔ known.ReplyIsKnown k.now reply }
{
    match reply {
        Reply::Runs(t) => is_number_of(k.tasks(), t.0),
        _ => true,
    }
}

fn link_fits(k: &Known, link: CpuLink) -> bool
    ensures { IsTrue result ↔ known.LinkIsKnown k.now (link_of link) }
{
    match link.task {
        None => true,
        Some(t) => is_number_of(k.tasks(), t.0),
    }
}

fn links_fit(k: &Known, links: &[CpuLink]) -> bool
    ensures { IsTrue result ↔ All (known.LinkIsKnown k.now) (links_of links.now) }
{
    for link in links {
        if !link_fits(k, *link) {
            return false;
        }
    }
    true
}

fn is_letter(c: u8) -> bool
    ensures { IsTrue result ↔ known.IsLetter c }
{
    c.is_ascii_alphabetic()
}

fn totals_fit(totals: &[u64]) -> bool
    ensures { IsTrue result ↔ ((length totals.now ≤ MOST_TOTALS) × All known.Is64 totals.now) }
{
    totals.len() <= MOST_TOTALS as usize
}

fn group_fits(k: &Known, group: GroupNo, links: &[CpuLink]) -> bool
    ensures { IsTrue result
        ↔ known.IsLine k.now (group_line group.0 (links_of links.now)) }
{
    links.len() >= 1 && links_fit(k, links)
}

fn entry_fits(k: &Known, no: u32, entry: Entry, links: &[CpuLink]) -> bool
    ensures { IsTrue result ↔ known.IsEntryLine
        k.now no entry.step.tick.0 entry.step.cpu.0 entry.step.act entry.reply
        (links_of links.now) }
{
    act_fits(k, entry.step.act) && reply_fits(k, entry.reply) && links_fit(k, links)
}

fn block_fits(
    k: &Known,
    no: u32,
    task: TaskNo,
    sem: SemNo,
    ends: u32,
    ends_all: u32,
    bound: Option<u32>,
) -> bool
    ensures { IsTrue result
        ↔ known.IsBlockLine k.now no task.0 sem.0 ends ends_all bound }
{
    is_number_of(k.tasks(), task.0) && is_number_of(k.sems(), sem.0)
}

/// Whether a line is one of the grammar, and its tasks and semaphores are the set's.
pub(crate) fn line_fits(k: &Known, line: &Line) -> bool
    ensures { IsTrue result ↔ known.IsLine k.now (line_of line.now) }
{
    match line {
        Line::GroupLine { group, links } => group_fits(k, *group, links.as_slice()),
        Line::EntryLine { no, entry, links } => entry_fits(k, *no, *entry, links.as_slice()),
        Line::BlockLine {
            no,
            task,
            sem,
            ends,
            ends_all,
            bound,
        } => { block_fits(k, *no, *task, *sem, *ends, *ends_all, *bound) }
        Line::EndLine => true,
        Line::CountLine { name, totals } => is_letter(*name) && totals_fit(totals.as_slice()),
    }
}
