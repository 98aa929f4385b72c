//! The groups of a trace, whose steps are played as their lines are written.
ghost use Rattle.std.specs.Prelude.{◌≡◌, ◌≤◌, ◌++◌, [], flat_map, length, map, OnOk};
ghost use Rattle.rt_base.specs.declared.TheConstants.{MOST_CLUSTERS, MOST_STEPS};
ghost use Rattle.rt_plays.specs.Plays.{group_with};
ghost use Rattle.rt_plays.specs.Groups.{group_of, past, IsGroupOf};
ghost use Rattle.block_counts.specs.SeenWords.{tallies_of};
ghost use Rattle.set_plays.specs.GroupSteps.{AreGroupSteps, AreStepsIn, group_told, told};
ghost use Rattle.set_plays.specs.StepsLeft.{AreOf};
ghost use Rattle.trace_lines.specs.Grammar.{line_text};
ghost use Rattle.trace_lines.specs.Known.{known_in};
ghost use Rattle.trace_tools.specs.BusCounters.{counters};
ghost use Rattle.trace_tools.specs.Counters.{counters_after};
ghost use Rattle.trace_text.specs.CountLines.{bus_text, shown_entries, shown_from};
ghost use Rattle.trace_text.specs.Groups.{request_line};
ghost use Rattle.trace_text.specs.TraceText.{entry_lines, group_lines, head_text, lines_from};
ghost use Rattle.trace_writer.specs.Replays.{ShowsLinks, HasPlayed, ahead};
ghost use Rattle.rt_fault.specs.Ends.{writing};
ghost use Rattle.trace_writer.specs.Writing.{Came};

use crate::WriteStop;
use crate::counts::{show, write_counts};
use crate::lines::{
    write_bytes, write_end_line, write_group_line, write_set_line, write_when_long,
};
use crate::replay::Replay;
use block_counts::Seen;
use rt_base::{GroupNo, NoMemory};
use rt_fault::Sink;
use rt_rules::Entry;
use rt_task::{Parts, Setup};
use set_canonical::canonical_of_parts;
use set_plays::{GroupSteps, StepsLeft};
use std::alloc::Global;
use trace_lines::{Format, LineNumbers, Version, first_line};
use trace_text::put_request_line;
use trace_tools::{Bus, TraceTool};

/// The lines of the entries of a group, each written as its step is taken. The bus is shown each entry.
fn write_entries<T: TraceTool, K: Sink>(
    setup: &Setup,
    replay: &mut Replay,
    left: &mut StepsLeft<'_>,
    number: GroupNo,
    format: &Format,
    bus: &mut Bus<T>,
    lines: &mut Vec<u8>,
    numbers: &mut LineNumbers,
    out: &mut K,
) -> Result<(), WriteStop>
    requires setup { replay.old.engine.setup ≡ setup.now }
    requires number { replay.old.engine.group ≡ number.0 }
    requires shows { ShowsLinks replay.old.engine replay.old.cpus.items replay.old.links.items }
    requires of { AreOf (group_of replay.old.engine) left.old }
    requires room { let es = ahead (group_of replay.old.engine) left.old (past replay.old.engine) in
        length es ≤ replay.old.engine.spare }
    requires few { replay.old.engine.spare ≤ MOST_STEPS }
    ensures lines { let g = group_of replay.old.engine in
        let es = ahead g left.old (past replay.old.engine) in
        Came result (writing K.held K.faults out.old out.new)
        (flat_map (line_text (known_in format.now))
        (entry_lines g 0 (past replay.old.engine) es)) }
    ensures played { let es = ahead (group_of replay.old.engine) left.old (past replay.old.engine) in
        OnOk result (HasPlayed replay.old.engine replay.new.engine es) }
    ensures shown { let g = group_of replay.old.engine in
        let es = ahead g left.old (past replay.old.engine) in
        let shown = shown_entries g 0 (past replay.old.engine) es in
        OnOk result (counters T.tool bus.new ≡ counters_after shown (counters T.tool bus.old)) }
{
    let mut no = 0;
    lines.clear();
    while let Some(step) = left.next(setup, replay.engine().engine()) {
        let reply = replay.step(step)?;
        let entry = Entry { step, reply };
        numbers.put_entry_line(lines, format, no, &entry, replay.changed())?;
        write_when_long(out, lines)?;
        show(bus, replay.engine(), number, no, &entry);
        no += 1;
    }
    write_bytes(out, lines.as_slice())
}

/// The lines of requests.
fn write_blocks<K: Sink>(
    requests: &[Seen],
    format: &Format,
    lines: &mut Vec<u8>,
    out: &mut K,
) -> Result<(), WriteStop>
    ensures { Came result (writing K.held K.faults out.old out.new)
        (flat_map (line_text (known_in format.now))
        (map request_line (tallies_of requests.now))) }
{
    lines.clear();
    for seen in requests {
        put_request_line(lines, format, seen)?;
        write_when_long(out, lines)?;
    }
    write_bytes(out, lines.as_slice())
}

/// The lines of a group that plays these steps. The bus is shown its entries.
fn write_group<T: TraceTool, K: Sink>(
    alloc: Global,
    setup: &Setup,
    format: &Format,
    number: GroupNo,
    steps: GroupSteps<'_>,
    bus: &mut Bus<T>,
    line: &mut Vec<u8>,
    out: &mut K,
) -> Result<(), WriteStop>
    requires there { IsGroupOf setup.now number.0 }
    requires steps { AreStepsIn (group_with setup.now number.0) steps }
    ensures lines { let es = group_told setup.now number.0 steps.entry in Came result
        (writing K.held K.faults out.old out.new) (flat_map (line_text (known_in format.now))
        (group_lines (group_with setup.now number.0) es)) }
    ensures shown { let es = group_told setup.now number.0 steps.entry in
        let shown = shown_entries (group_with setup.now number.0) 0 [] es in
        OnOk result (counters T.tool bus.new ≡ counters_after shown (counters T.tool bus.old)) }
{
    let mut left = steps.all(alloc, setup, number)?;
    let mut replay = Replay::open(alloc, setup, number, left.room())?;
    let mut numbers = LineNumbers::new(alloc)?;
    write_group_line(out, line, format, number, replay.links())?;
    write_entries(
        setup,
        &mut replay,
        &mut left,
        number,
        format,
        bus,
        line,
        &mut numbers,
        out,
    )?;
    write_blocks(replay.requests(), format, line, out)
}

/// The lines of the groups, and the line `end`. The bus is shown all entries.
fn write_groups<T: TraceTool, K: Sink>(
    alloc: Global,
    setup: &Setup,
    format: &Format,
    groups: &[GroupSteps<'_>],
    bus: &mut Bus<T>,
    out: &mut K,
) -> Result<(), WriteStop>
    requires groups { AreGroupSteps setup.now groups.now }
    requires few { length groups.now ≤ MOST_CLUSTERS }
    ensures lines { Came result (writing K.held K.faults out.old out.new)
        (flat_map (line_text (known_in format.now))
        (lines_from setup.now 0 (told setup.now groups.now))) }
    ensures shown { let es = shown_from setup.now 0 (told setup.now groups.now) in
        OnOk result (counters T.tool bus.new ≡ counters_after es (counters T.tool bus.old)) }
{
    // A proof knows that a setup is valid once its parts are read.
    let _parts = setup.parts();
    let mut line = Vec::new(alloc);
    for (i, steps) in groups.iter().enumerate() {
        write_group(
            alloc,
            setup,
            format,
            GroupNo(i as u32),
            *steps,
            bus,
            &mut line,
            out,
        )?;
    }
    write_end_line(out, &mut line)
}

/// The first two lines, one after the other.
fn write_head<K: Sink>(
    alloc: Global,
    version: Version,
    parts: &Parts,
    out: &mut K,
) -> Result<(), WriteStop>
    ensures { Came result (writing K.held K.faults out.old out.new) (head_text version parts.now) }
{
    let set = canonical_of_parts(alloc, parts)?;
    write_bytes(out, first_line(version))?;
    write_set_line(out, set.as_slice())
}

/// The whole trace of groups that play these steps, and the count lines of a bus that is shown the entries.
pub(crate) fn write_all<T: TraceTool, K: Sink>(
    alloc: Global,
    version: Version,
    setup: &Setup,
    groups: &[GroupSteps<'_>],
    bus: &mut Bus<T>,
    out: &mut K,
) -> Result<(), WriteStop>
    requires groups { AreGroupSteps setup.now groups.now }
    ensures lines { let all = bus_text version (counters T.tool bus.old) setup.now in Came result
        (writing K.held K.faults out.old out.new) (all (told setup.now groups.now)) }
    ensures shown { let es = shown_from setup.now 0 (told setup.now groups.now) in
        OnOk result (counters T.tool bus.new ≡ counters_after es (counters T.tool bus.old)) }
{
    let parts = setup.parts();
    write_head(alloc, version, parts, out)?;
    write_groups(alloc, setup, &Format { version, parts }, groups, bus, out)?;
    write_counts(alloc, bus, out)
}
