//! The trace of groups that were played before: their steps are taken again.
ghost use Rattle.std.specs.Prelude.{◌≡◌, ◌≢◌, ◌≤◌, ◌++◌, IfOk, OnErr, OnOk, flat_map, map};
ghost use Rattle.rt_fault.specs.Faults.{HasRisen};
ghost use Rattle.rt_fault.specs.Held.{Extends, ExtendsByPrefix};
ghost use Rattle.set_plays.specs.GroupSteps.{AreGroupSteps, told};
ghost use Rattle.trace_lines.specs.Grammar.{line_text};
ghost use Rattle.trace_lines.specs.Known.{known_of};
ghost use Rattle.trace_tools.specs.BusCounters.{counters};
ghost use Rattle.trace_tools.specs.Counters.{counter_line, counters_after};
ghost use Rattle.trace_text.specs.CountLines.{bus_text, shown_from};
ghost use Rattle.trace_text.specs.Groups.{AreGroupsOf, histories};
ghost use Rattle.trace_text.specs.TraceText.{trace_text};
ghost use Rattle.rt_fault.specs.Ends.{writing};
ghost use Rattle.trace_writer.specs.Writing.{Came};
ghost use Rattle.trace_writer.specs.declared.stop.WriteStop.TheVariants as stops;

use crate::WriteStop;
use crate::counts::write_counts;
use crate::groups::write_all;
use group_engine::KeepingEngine;
use rt_base::NoMemory;
use rt_fault::Sink;
use rt_task::Setup;
use set_plays::GroupSteps;
use std::alloc::Global;
use trace_lines::Version;
use trace_tools::{Bus, TraceTool};

/// The steps that these groups have taken.
fn steps_again<'a>(
    alloc: Global,
    setup: &Setup,
    groups: &'a [KeepingEngine],
) -> Result<Vec<GroupSteps<'a>>, NoMemory>
    requires groups { AreGroupsOf setup.now groups.now }
    ensures steps { IfOk result (λ v. AreGroupSteps setup.now v.items) }
    ensures told { IfOk result (λ v. told setup.now v.items ≡ histories groups.now) }
{
    // A proof knows that a setup is valid once its parts are read.
    let _parts = setup.parts();
    let mut steps = Vec::new(alloc);
    for group in groups {
        steps.push(GroupSteps::Again(group.entries()))?;
    }
    Ok(steps)
}

/// Writes the trace, in this format, of a setup and its groups, one engine for each group by rising number: the
/// canonical set, each group with its links at opening and a line for each entry, the line `end`, and the count line of
/// each tool of the bus, which is shown every entry once, in the order of the lines.
///
/// Where a write fails or memory runs out, a first part of the text was written. Memory is taken
/// for one line, and for one group at a time.
pub fn write_trace<T: TraceTool, K: Sink>(
    alloc: Global,
    version: Version,
    setup: &Setup,
    groups: &[KeepingEngine],
    bus: &mut Bus<T>,
    out: &mut K,
) -> Result<(), WriteStop>
    requires groups { AreGroupsOf setup.now groups.now }
    ensures ok { let told = counters T.tool bus.old in
        let text = bus_text version told setup.now (histories groups.now) in
        OnOk result (Extends (K.held out.old) (K.held out.new) text) }
    ensures shown { let es = shown_from setup.now 0 (histories groups.now) in
        OnOk result (counters T.tool bus.new ≡ counters_after es (counters T.tool bus.old)) }
    ensures stopped { let told = counters T.tool bus.old in
        let text = bus_text version told setup.now (histories groups.now) in
        OnErr result (ExtendsByPrefix (K.held out.old) (K.held out.new) text) }
    ensures fault { result ≡ Err stops.Fault → HasRisen (K.faults out.old) (K.faults out.new) }
    ensures unfailed { result ≢ Err stops.Fault → K.faults out.new ≡ K.faults out.old }
    ensures counted { K.faults out.old ≤ K.faults out.new }
{
    write_engines(alloc, version, setup, groups, bus, out)
}

/// The same; what came is told as a whole.
fn write_engines<T: TraceTool, K: Sink>(
    alloc: Global,
    version: Version,
    setup: &Setup,
    groups: &[KeepingEngine],
    bus: &mut Bus<T>,
    out: &mut K,
) -> Result<(), WriteStop>
    requires groups { AreGroupsOf setup.now groups.now }
    ensures lines { let all = bus_text version (counters T.tool bus.old) setup.now in Came result
        (writing K.held K.faults out.old out.new) (all (histories groups.now)) }
    ensures shown { let es = shown_from setup.now 0 (histories groups.now) in
        OnOk result (counters T.tool bus.new ≡ counters_after es (counters T.tool bus.old)) }
{
    let steps = steps_again(alloc, setup, groups)?;
    write_all(alloc, version, setup, steps.as_slice(), bus, out)
}

/// Writes the trace, in this format, of a setup and its groups, as `write_trace` does, and behind it the count lines of a bus
/// that was shown the entries before.
pub fn write_shown_trace<T: TraceTool, K: Sink>(
    alloc: Global,
    version: Version,
    setup: &Setup,
    groups: &[KeepingEngine],
    bus: &Bus<T>,
    out: &mut K,
) -> Result<(), WriteStop>
    requires groups { AreGroupsOf setup.now groups.now }
    ensures { Came result (writing K.held K.faults out.old out.new)
        (trace_text version setup.now (histories groups.now)
        ++ flat_map (line_text (known_of version setup.now)) (map counter_line (counters T.tool bus.now))) }
{
    let mut none: Bus<T> = Bus::open(alloc, Vec::new(alloc))?;
    write_engines(alloc, version, setup, groups, &mut none, out)?;
    write_counts(alloc, bus, out)
}
