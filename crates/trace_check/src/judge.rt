//! The text of a trace behind its first two lines, judged line by line.
ghost use Rattle.std.specs.Prelude.{◌≡◌, ◌+◌, ◌≤◌, List, [], map, false, IfOk, length};
ghost use Rattle.rt_task.specs.declared.Parts.{Parts};
ghost use Rattle.trace_lines.specs.declared.format.Version.{Version};
ghost use Rattle.trace_tools.specs.BusCounters.{counters};
ghost use Rattle.trace_tools.specs.Counters.{counter_of};
ghost use Rattle.trace_tools.specs.Tools.{Tool};
ghost use Rattle.trace_check.specs.Counts.{IsCountedText};
ghost use Rattle.trace_check.specs.inside.Judging.{IsJudgedText, IsShownText, IsTextOfPlays};
ghost use Rattle.trace_check.specs.inside.Judging.{verdict_behind};
ghost use Rattle.trace_check.specs.Keeping.{Between, IsKeptText};
ghost use Rattle.trace_check.specs.inside.Progress.{AreAllRight};

use crate::behind::lines_alike;
use crate::counts::count_text;
use crate::group::follow_group;
use crate::keeper::Keeper;
use crate::lines::begins_with;
use crate::progress::{Followed, Progress};
use crate::{Checked, Verdict};
use rt_base::{GroupNo, NoMemory};
use rt_task::Setup;
use std::alloc::Global;
use trace_lines::Version;
use trace_text::count_groups;
use trace_tools::{Bus, TraceTool};
use view_replay::Player;

/// The number of a line from 1, by its position after the two lines of the head.
fn line_at(position: usize) -> Result<u32, NoMemory>
    ensures { IfOk result (λ n. n ≡ position + 3) }
{
    match position.checked_add(3) {
        Some(n) => u32::try_from(n).map_err(|_| NoMemory),
        None => Err(NoMemory),
    }
}

fn wrong_at(position: usize) -> Result<Verdict, NoMemory>
    ensures { IfOk result (λ v. v ≡ Verdict.Invalid (position + 3)) }
{
    Ok(Verdict::Invalid(line_at(position)?))
}

/// That the line behind this position is the first that is wrong.
fn wrong(position: usize) -> Result<Checked, NoMemory>
    ensures { IfOk result (λ c. c
        ≡ record { verdict = Verdict.Invalid (position + 3); counted = false }) }
{
    Ok(Checked {
        verdict: wrong_at(position)?,
        counted: false,
    })
}

/// The line behind all groups.
const END: &[u8] = b"end\n";

/// The verdict that `further` lines after line `position` are right, and the next is wrong.
fn wrong_behind(position: usize, further: usize) -> Result<Verdict, NoMemory>
    ensures { IfOk result (λ v. v ≡ Verdict.Invalid (position + further + 3)) }
{
    match position.checked_add(further) {
        Some(n) => wrong_at(n),
        None => Err(NoMemory),
    }
}

/// What the text behind the line `end` comes to, where the lines before this position are right: nothing is to stand there, or
/// the count lines.
fn judge_behind(
    rest: &[u8],
    counts: &[u8],
    position: usize,
    entries: u32,
) -> Result<Verdict, NoMemory>
    ensures { IfOk result (λ v. v ≡ verdict_behind rest.now counts.now (position + 2) entries) }
{
    if rest.is_empty() || rest == counts {
        return Ok(Verdict::Valid(entries));
    }
    wrong_behind(position, lines_alike(rest, counts))
}

/// What the text comes to behind the lines of all groups.
fn end_at<T: TraceTool>(
    alloc: Global,
    text: &[u8],
    right: Progress,
    bus: &Bus<T>,
) -> Result<Checked, NoMemory>
    requires within { right.length ≤ length text.now }
    requires positions { right.lines ≤ right.length }
    ensures judged { IfOk result (λ c. (version : Version) (p : Parts) (tools : List Tool)
        → AreAllRight version p text.now right (map counter_of tools) (counters T.tool bus.now)
        → IsJudgedText tools version p text.now c.verdict) }
    ensures counted { IfOk result (λ c. (version : Version) (p : Parts) (tools : List Tool)
        → AreAllRight version p text.now right (map counter_of tools) (counters T.tool bus.now)
        → IsCountedText tools version p text.now c.verdict c.counted) }
    ensures shown { IfOk result (λ c. (version : Version) (p : Parts) (tools : List Tool)
        → AreAllRight version p text.now right (map counter_of tools) (counters T.tool bus.now)
        → IsShownText tools version p text.now (counters T.tool bus.now) c.verdict) }
    ensures said { IfOk result (λ c. (version : Version) (p : Parts) (tools : List Tool)
        (all : AreAllRight version p text.now right (map counter_of tools) (counters T.tool bus.now))
        → IsTextOfPlays tools version p text.now all.right.histories c.verdict) }
{
    let rest = &text[right.length..];
    if !begins_with(rest, END) {
        return wrong(right.lines);
    }
    let counts = count_text(alloc, bus)?;
    let behind = &rest[END.len()..];
    let verdict = judge_behind(behind, counts.as_slice(), right.lines + 1, right.entries)?;
    Ok(Checked {
        verdict,
        counted: !behind.is_empty(),
    })
}

/// What the text comes to that stands behind the two lines of a head with a canonical set. The keeper is given each group.
pub(crate) fn judge_text<T: TraceTool, P: Player, K: Keeper<P>>(
    alloc: Global,
    version: Version,
    setup: &Setup,
    text: &[u8],
    bus: &mut Bus<T>,
    keeper: &mut K,
) -> Result<Checked, NoMemory>
    requires { K.holds keeper.old setup.now [] [] }
    ensures judged { IfOk result (λ c. (tools : List Tool)
        → counters T.tool bus.old ≡ map counter_of tools
        → IsJudgedText tools version setup.now text.now c.verdict) }
    ensures counted { IfOk result (λ c. (tools : List Tool)
        → counters T.tool bus.old ≡ map counter_of tools
        → IsCountedText tools version setup.now text.now c.verdict c.counted) }
    ensures shown { IfOk result (λ c. (tools : List Tool)
        → counters T.tool bus.old ≡ map counter_of tools
        → IsShownText tools version setup.now text.now (counters T.tool bus.new) c.verdict) }
    ensures kept { IfOk result (λ c. (tools : List Tool)
        → counters T.tool bus.old ≡ map counter_of tools
        → IsKeptText tools version setup.now text.now
        (Between (K.holds keeper.new setup.now)) c.verdict) }
{
    // A proof knows that a setup is valid once its parts are read.
    let _parts = setup.parts();
    let mut line = Vec::new(alloc);
    let mut right = Progress {
        lines: 0,
        entries: 0,
        length: 0,
    };
    for n in 0..count_groups(setup) {
        match follow_group::<T, P, K>(
            alloc,
            version,
            setup,
            GroupNo(n),
            text,
            right,
            &mut line,
            bus,
            keeper,
        )? {
            Followed::Whole(further) => right = further,
            Followed::Wrong(position) => return wrong(position),
        }
    }
    end_at(alloc, text, right, bus)
}
