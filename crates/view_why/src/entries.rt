//! The lines of an entry whose step was taken.
ghost use Rattle.std.specs.Prelude.{◌≡◌, ◌++◌, ◌∷◌, ℕ, IfOk, OnOk};
ghost use Rattle.rt_base.specs.TaskNos.{number_of_task};
ghost use Rattle.rt_model.specs.Group.{group_processors};
ghost use Rattle.rt_model.specs.Histories.{after, changed, clock_moved};
ghost use Rattle.rt_model.specs.Outcomes.{ended};
ghost use Rattle.rt_model.specs.Past.{Past};
ghost use Rattle.trace_lines.specs.Lines.{links_of};
ghost use Rattle.trace_text.specs.TraceText.{links_at};
ghost use Rattle.view_replay.specs.Replays as replays;
ghost use Rattle.why_texts.specs.WhyText.{ended_line, entry_text, trace_line};
ghost use Rattle.view_why.specs.inside.Groups.{AreMembers, group_of};
ghost use Rattle.view_why.specs.inside.Parts.{AreNotes, act_lines, link_lines, states_lines};

use crate::links::{put_links, read_links};
use crate::members::{Members, state_of};
use crate::noted::Noted;
use rt_base::NoMemory;
use rt_rules::Entry;
use std::alloc::Global;
use trace_lines::{CpuLink, Format, Version, put_entry_line};
use trace_text::put_changed;
use view_replay::Replay;
use why_lines::{put, put_ended_line, put_ran_line, put_sentence_line};
use why_states::put_state;

/// The links that the step changed.
fn changed_links(
    alloc: Global,
    members: &Members,
    replay: &Replay,
    before: &[CpuLink],
) -> Result<Vec<CpuLink>, NoMemory>
    requires members { AreMembers members.now }
    requires group { replays.group_of replay.now ≡ group_of members.now }
    requires links { (was : Past) × (now : Past) × replays.IsAt replay.now now
        × (links_of before.now ≡ links_at (group_of members.now) was
        (group_processors (group_of members.now))) }
    ensures { IfOk result (λ v. (was now : Past) → replays.IsAt replay.now now
        → links_of before.now ≡ links_at (group_of members.now) was
        (group_processors (group_of members.now))
        → links_of v.items ≡ links_at (group_of members.now) now
        (changed (group_of members.now) was now)) }
{
    let now = read_links(alloc, replay.afresh(), members.cpus.as_slice())?;
    let mut changed = Vec::new(alloc);
    put_changed(before, now.as_slice(), &mut changed)?;
    Ok(changed)
}

/// The line that the entry has in a trace of format 2.
fn put_trace_line(
    alloc: Global,
    out: &mut Vec<u8>,
    members: &Members,
    replay: &Replay,
    number: u32,
    entry: &Entry,
    noted: &Noted,
) -> Result<(), NoMemory>
    requires members { AreMembers members.now }
    requires group { replays.group_of replay.now ≡ group_of members.now }
    requires noted { (past : Past) × AreNotes (group_of members.now) entry.now.step past noted.now
        × replays.IsAt replay.now (after (group_of members.now) entry.now.step past) }
    ensures { OnOk result ((past : Past)
        → AreNotes (group_of members.now) entry.now.step past noted.now
        → replays.IsAt replay.now (after (group_of members.now) entry.now.step past)
        → out.new.items
        ≡ out.old.items ++ trace_line (group_of members.now) number entry.now past) }
{
    let changed = changed_links(alloc, members, replay, noted.links.as_slice())?;
    let format = Format {
        version: Version::Two,
        parts: members.set.parts,
    };
    put_entry_line(out, &format, number, entry, changed.as_slice())
}

/// The job that the act ended.
fn put_ended(
    out: &mut Vec<u8>,
    members: &Members,
    replay: &Replay,
    entry: &Entry,
    noted: &Noted,
) -> Result<(), NoMemory>
    requires members { AreMembers members.now }
    requires group { replays.group_of replay.now ≡ group_of members.now }
    requires noted { (past : Past) × AreNotes (group_of members.now) entry.now.step past noted.now
        × replays.IsAt replay.now (after (group_of members.now) entry.now.step past) }
    ensures { OnOk result ((past : Past)
        → AreNotes (group_of members.now) entry.now.step past noted.now
        → replays.IsAt replay.now (after (group_of members.now) entry.now.step past)
        → out.new.items ≡ out.old.items ++ ended_line (group_of members.now)
        (ended (group_of members.now) entry.now.step.cpu.0 entry.now.step.act
        (clock_moved entry.now.step past)) (clock_moved entry.now.step past)) }
{
    match noted.act.ended {
        Some(task) => put_ended_line(out, &members.set, replay.afresh().done(task), task),
        None => Ok(()),
    }
}

/// The lines about the act: the entry, what its processor ran, why it was answered so, and the job that it ended.
fn put_act_lines(
    alloc: Global,
    out: &mut Vec<u8>,
    members: &Members,
    replay: &Replay,
    number: u32,
    entry: &Entry,
    noted: &Noted,
) -> Result<(), NoMemory>
    requires members { AreMembers members.now }
    requires group { replays.group_of replay.now ≡ group_of members.now }
    requires noted { (past : Past) × AreNotes (group_of members.now) entry.now.step past noted.now
        × replays.IsAt replay.now (after (group_of members.now) entry.now.step past) }
    ensures { OnOk result ((past : Past)
        → AreNotes (group_of members.now) entry.now.step past noted.now
        → replays.IsAt replay.now (after (group_of members.now) entry.now.step past)
        → out.new.items ≡ out.old.items ++ act_lines (group_of members.now) number entry.now past) }
{
    put_trace_line(alloc, out, members, replay, number, entry, noted)?;
    put_ran_line(out, &members.set, entry.step.cpu, noted.act.task)?;
    put_sentence_line(out, entry.reply)?;
    put_ended(out, members, replay, entry, noted)
}

/// The lines of the links before the step.
fn put_link_lines(out: &mut Vec<u8>, members: &Members, noted: &Noted) -> Result<(), NoMemory>
    ensures { OnOk result ((past : Past)
        → links_of noted.now.links.items ≡ links_at (group_of members.now) past
        (group_processors (group_of members.now))
        → out.new.items ≡ out.old.items ++ link_lines (group_of members.now) past) }
{
    put(out, b"links before\n")?;
    put_links(out, &members.set, noted.links.as_slice())
}

/// The lines of the states between the moves of the step and after both.
fn put_states(
    alloc: Global,
    out: &mut Vec<u8>,
    members: &Members,
    replay: &Replay,
    entry: &Entry,
    noted: &Noted,
) -> Result<(), NoMemory>
    requires members { AreMembers members.now }
    requires group { replays.group_of replay.now ≡ group_of members.now }
    requires noted { (past : Past) × AreNotes (group_of members.now) entry.now.step past noted.now
        × replays.IsAt replay.now (after (group_of members.now) entry.now.step past) }
    ensures { OnOk result ((past : Past)
        → AreNotes (group_of members.now) entry.now.step past noted.now
        → replays.IsAt replay.now (after (group_of members.now) entry.now.step past)
        → out.new.items
        ≡ out.old.items ++ states_lines (group_of members.now) entry.now.step past) }
{
    put(out, b"before the act\n")?;
    put(out, noted.between.as_slice())?;
    put(out, b"after the act\n")?;
    put_state(alloc, out, &state_of(members, replay))
}

/// The text of an entry with its number, whose step the replay took last.
pub(crate) fn text_of(
    alloc: Global,
    members: &Members,
    replay: &Replay,
    number: u32,
    entry: &Entry,
    noted: &Noted,
) -> Result<Vec<u8>, NoMemory>
    requires members { AreMembers members.now }
    requires group { replays.group_of replay.now ≡ group_of members.now }
    requires noted { (past : Past) × AreNotes (group_of members.now) entry.now.step past noted.now
        × replays.IsAt replay.now (after (group_of members.now) entry.now.step past) }
    ensures { IfOk result (λ v. (past : Past)
        → AreNotes (group_of members.now) entry.now.step past noted.now
        → replays.IsAt replay.now (after (group_of members.now) entry.now.step past)
        → v.items ≡ entry_text (group_of members.now) number entry.now past) }
{
    let mut text = Vec::new(alloc);
    put_act_lines(alloc, &mut text, members, replay, number, entry, noted)?;
    put_link_lines(&mut text, members, noted)?;
    put_states(alloc, &mut text, members, replay, entry, noted)?;
    Ok(text)
}
