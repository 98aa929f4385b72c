//! Lines by their words.
ghost use Rattle.std.specs.Prelude.{◌≡◌, option_map, IfOk, Some};
ghost use Rattle.trace_lines.specs.Lines.{end_line};
ghost use Rattle.trace_read.specs.Lines.{line_of};
ghost use Rattle.trace_read.specs.Reading as reading;

use crate::Line;
use crate::acts::act_at;
use crate::known::Known;
use crate::links::{links_in, totals_in};
use crate::replies::reply_at;
use crate::tasks::task_at;
use crate::words::{begins_with_digit, cut, is_word, number_at, small_at, small_or_dash, word_at};
use rt_base::{CpuNo, GroupNo, SemNo, Tick};
use rt_rules::Entry;
use rt_task::Step;
use std::alloc::{AllocError, Global};

/// An entry, and what stands after it.
#[tactic(auto, unfolding(crate::specs::Reading::entry_at))]
pub(crate) fn entry_at<'a>(k: &Known, text: &'a [u8]) -> Option<(Entry, &'a [u8])>
    ensures { option_map (λ p. (p.0, reading.front p.1.now)) result
        ≡ reading.entry_at k.now (reading.front text.now) }
{
    let (tick, rest) = number_at(text)?;
    let (cpu, rest) = small_at(rest)?;
    let (act, rest) = act_at(k, rest)?;
    let (reply, rest) = reply_at(k, rest)?;
    let step = Step {
        cpu: CpuNo(cpu),
        tick: Tick(tick),
        act,
    };
    Some((Entry { step, reply }, rest))
}

#[tactic(auto, unfolding(crate::specs::Reading::entry_line_in))]
fn entry_line_in(alloc: Global, k: &Known, text: &[u8]) -> Result<Option<Line>, AllocError>
    ensures { IfOk result (λ o. option_map line_of o
        ≡ reading.entry_line_in k.now (reading.front text.now)) }
{
    let Some((no, rest)) = small_at(text) else {
        return Ok(None);
    };
    let Some((entry, rest)) = entry_at(k, rest) else {
        return Ok(None);
    };
    let Some(links) = links_in(alloc, k, rest)? else {
        return Ok(None);
    };
    Ok(Some(Line::EntryLine { no, entry, links }))
}

#[tactic(auto, unfolding(crate::specs::Reading::group_line_in))]
fn group_line_in(alloc: Global, k: &Known, text: &[u8]) -> Result<Option<Line>, AllocError>
    ensures { IfOk result (λ o. option_map line_of o
        ≡ reading.group_line_in k.now (reading.front text.now)) }
{
    let Some((group, rest)) = small_at(text) else {
        return Ok(None);
    };
    let Some(links) = links_in(alloc, k, rest)? else {
        return Ok(None);
    };
    Ok(Some(Line::GroupLine {
        group: GroupNo(group),
        links,
    }))
}

#[tactic(auto, unfolding(crate::specs::Reading::block_line_in))]
fn block_line_in(k: &Known, text: &[u8]) -> Option<Line>
    ensures { option_map line_of result ≡ reading.block_line_in k.now (reading.front text.now) }
{
    let (no, rest) = small_at(text)?;
    let (task, rest) = task_at(k, rest)?;
    let (sem, rest) = small_at(rest)?;
    let (ends, rest) = small_at(rest)?;
    let (ends_all, rest) = small_at(rest)?;
    let (word, _) = cut(rest, b'\n');
    let bound = small_or_dash(word)?;
    Some(Line::BlockLine {
        no,
        task,
        sem: SemNo(sem),
        ends,
        ends_all,
        bound,
    })
}

fn name_in(word: &[u8]) -> Option<u8>
    ensures { result ≡ reading.name_in word.now }
{
    match word {
        [name] => Some(*name),
        _ => None,
    }
}

#[tactic(auto, unfolding(crate::specs::Reading::count_line_in))]
fn count_line_in(alloc: Global, text: &[u8]) -> Result<Option<Line>, AllocError>
    ensures { IfOk result (λ o. option_map line_of o
        ≡ reading.count_line_in (reading.front text.now)) }
{
    let (word, rest) = word_at(text);
    let Some(name) = name_in(word) else {
        return Ok(None);
    };
    let Some(totals) = totals_in(alloc, rest)? else {
        return Ok(None);
    };
    Ok(Some(Line::CountLine { name, totals }))
}

/// A line that begins with a word.
#[tactic(auto, unfolding(crate::specs::Reading::line_in))]
fn worded_line_in(alloc: Global, k: &Known, text: &[u8]) -> Result<Option<Line>, AllocError>
    ensures { IfOk result (λ o. option_map line_of o
        ≡ reading.line_in k.now (reading.front text.now)) }
{
    let (word, rest) = word_at(text);
    match word {
        w if is_word(w, b"group") => group_line_in(alloc, k, rest),
        w if is_word(w, b"block") => Ok(block_line_in(k, rest)),
        w if is_word(w, b"end") => Ok(Some(Line::EndLine)),
        w if is_word(w, b"count") => count_line_in(alloc, rest),
        _ => entry_line_in(alloc, k, text),
    }
}

/// The line that a text begins with, before it is checked: each line of the grammar is read, and one that is none of its
/// may be too.
#[tactic(auto, using(crate::proofs::EntryLaws::entry_by_digit))]
pub(crate) fn line_in(alloc: Global, k: &Known, text: &[u8]) -> Result<Option<Line>, AllocError>
    ensures { IfOk result (λ o. option_map line_of o
        ≡ reading.line_in k.now (reading.front text.now)) }
{
    if begins_with_digit(text) {
        return entry_line_in(alloc, k, text);
    }
    worded_line_in(alloc, k, text)
}
