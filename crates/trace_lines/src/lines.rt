//! The lines of a trace.
ghost use Rattle.std.specs.Prelude.{◌≡◌, ◌++◌, OnOk};
ghost use Rattle.trace_lines.specs.Lines.{links_of, group_line, entry_line, block_line, end_line, count_line};
ghost use Rattle.trace_lines.specs.Known.{Known, known_in};
ghost use Rattle.trace_lines.specs.Grammar.{line_text};
ghost use Rattle.trace_lines.specs.EntryRest.{text_after_tick};

use crate::links::put_links;
use crate::pairs::put_act_and_reply;
use crate::put::{
    put, put_next_number, put_next_number_or_dash, put_next_numbers, put_next_word, put_number,
};
use crate::tasks::put_next_task;
use crate::{CpuLink, Format};
use rt_base::{GroupNo, NoMemory, SemNo, TaskNo};
use rt_rules::Entry;
use std::alloc::AllocError;

#[tactic(auto, using(crate::proofs::LineTexts::group_text, std::proofs::Common::append_assoc))]
fn append_group_line(
    out: &mut Vec<u8>,
    format: &Format,
    group: GroupNo,
    links: &[CpuLink],
) -> Result<(), AllocError>
    ensures { let text = line_text (known_in format.now) in OnOk result (out.new.items
        ≡ out.old.items ++ text (group_line group.0 (links_of links.now))) }
{
    put(out, b"group")?;
    put_next_number(out, u64::from(group.0))?;
    put_links(out, format, links)?;
    out.push(b'\n')?;
    Ok(())
}

#[tactic(auto, using(crate::proofs::LineTexts::rest_text, std::proofs::Common::append_assoc))]
#[inline(always)]
pub(crate) fn append_after_tick(
    out: &mut Vec<u8>,
    format: &Format,
    entry: &Entry,
    links: &[CpuLink],
) -> Result<(), AllocError>
    ensures { let text = text_after_tick (known_in format.now) in
        OnOk result (out.new.items ≡ out.old.items ++ text entry.now (links_of links.now)) }
{
    put_next_number(out, u64::from(entry.step.cpu.0))?;
    put_act_and_reply(out, format, entry.step.act, entry.reply)?;
    put_links(out, format, links)?;
    out.push(b'\n')?;
    Ok(())
}

#[tactic(auto, using(crate::proofs::LineTexts::entry_text, std::proofs::Common::append_assoc))]
fn append_entry_line(
    out: &mut Vec<u8>,
    format: &Format,
    number: u32,
    entry: &Entry,
    links: &[CpuLink],
) -> Result<(), AllocError>
    ensures { let text = line_text (known_in format.now) in OnOk result (out.new.items
        ≡ out.old.items ++ text (entry_line number entry.now (links_of links.now))) }
{
    put_number(out, u64::from(number))?;
    put_next_number(out, entry.step.tick.0)?;
    append_after_tick(out, format, entry, links)
}

#[tactic(auto, using(crate::proofs::LineTexts::block_text, std::proofs::Common::append_assoc))]
fn append_block_line(
    out: &mut Vec<u8>,
    format: &Format,
    number: u32,
    task: TaskNo,
    sem: SemNo,
    ends: u32,
    ends_all: u32,
    bound: Option<u32>,
) -> Result<(), AllocError>
    ensures { let text = line_text (known_in format.now) in OnOk result (out.new.items
        ≡ out.old.items ++ text (block_line number task.0 sem.0 ends ends_all bound)) }
{
    put(out, b"block")?;
    put_next_number(out, u64::from(number))?;
    put_next_task(out, format, task)?;
    put_next_number(out, u64::from(sem.0))?;
    put_next_number(out, u64::from(ends))?;
    put_next_number(out, u64::from(ends_all))?;
    put_next_number_or_dash(out, bound)?;
    out.push(b'\n')?;
    Ok(())
}

#[tactic(auto, using(crate::proofs::LineTexts::count_text, std::proofs::Common::append_assoc))]
fn append_count_line(out: &mut Vec<u8>, name: u8, totals: &[u64]) -> Result<(), AllocError>
    ensures { (k : Known)
        → OnOk result (out.new.items ≡ out.old.items ++ line_text k (count_line name totals.now)) }
{
    put(out, b"count")?;
    put_next_word(out, &[name])?;
    put_next_numbers(out, totals)?;
    out.push(b'\n')?;
    Ok(())
}

/// The line of a group: `group <group> <cpu>:<link> ..`, with the links of its processors at opening.
pub fn put_group_line(
    out: &mut Vec<u8>,
    format: &Format,
    group: GroupNo,
    links: &[CpuLink],
) -> Result<(), NoMemory>
    ensures { let text = line_text (known_in format.now) in OnOk result (out.new.items
        ≡ out.old.items ++ text (group_line group.0 (links_of links.now))) }
{
    Ok(append_group_line(out, format, group, links)?)
}

/// The line of an entry: `<number> <tick> <cpu> <act> <reply> <cpu>:<link> ..`, with the entry's number in its group from
/// 0 and the links that it changed.
pub fn put_entry_line(
    out: &mut Vec<u8>,
    format: &Format,
    number: u32,
    entry: &Entry,
    links: &[CpuLink],
) -> Result<(), NoMemory>
    ensures { let text = line_text (known_in format.now) in OnOk result (out.new.items
        ≡ out.old.items ++ text (entry_line number entry.now (links_of links.now))) }
{
    Ok(append_entry_line(out, format, number, entry, links)?)
}

/// The line of a request: `block <number> <task> <sem> <ends> <all> <bound>`, with the number of its entry, the critical
/// sections that ended while its task was blocked, all that ended while it waited, and the bound on them, or a dash.
pub fn put_block_line(
    out: &mut Vec<u8>,
    format: &Format,
    number: u32,
    task: TaskNo,
    sem: SemNo,
    ends: u32,
    ends_all: u32,
    bound: Option<u32>,
) -> Result<(), NoMemory>
    ensures { let text = line_text (known_in format.now) in OnOk result (out.new.items
        ≡ out.old.items ++ text (block_line number task.0 sem.0 ends ends_all bound)) }
{
    Ok(append_block_line(out, format, number, task, sem, ends, ends_all, bound)?)
}

/// The line of what a tool counted: `count <letter> <total> ..`.
pub fn put_count_line(out: &mut Vec<u8>, name: u8, totals: &[u64]) -> Result<(), NoMemory>
    ensures { (k : Known)
        → OnOk result (out.new.items ≡ out.old.items ++ line_text k (count_line name totals.now)) }
{
    Ok(append_count_line(out, name, totals)?)
}

/// The line `end`, after the last group.
#[tactic(auto, using(crate::proofs::LineTexts::end_text))]
pub fn put_end_line(out: &mut Vec<u8>) -> Result<(), NoMemory>
    ensures { (k : Known)
        → OnOk result (out.new.items ≡ out.old.items ++ line_text k end_line) }
{
    Ok(put(out, b"end\n")?)
}
