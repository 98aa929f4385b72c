//! The trace of a set, whose steps are played as their lines are written.
ghost use Rattle.std.specs.Prelude.{◌≡◌, OnOk};
ghost use Rattle.rt_plays.specs.Order.{histories};
ghost use Rattle.trace_tools.specs.BusCounters.{counters};
ghost use Rattle.trace_tools.specs.Counters.{counters_after};
ghost use Rattle.trace_text.specs.CountLines.{bus_text, shown_from};
ghost use Rattle.rt_fault.specs.Ends.{writing};
ghost use Rattle.trace_writer.specs.Writing.{Came};

use crate::WriteStop;
use crate::groups::write_all;
use rt_fault::Sink;
use rt_task::Setup;
use set_plays::Scripts;
use std::alloc::Global;
use trace_lines::Version;
use trace_tools::{Bus, TraceTool};

/// Plays a set on one thread, group by group, and writes its trace in this format: the canonical set, each group with its
/// links at opening and a line for each entry, the line `end`, and the count line of each tool of the bus, which is shown every
/// entry once, in the order of the lines.
///
/// Where a write fails or memory runs out, a first part of the text was written. Memory is taken for the steps by their groups,
/// for one line, and for one group at a time.
pub fn write_played<T: TraceTool, K: Sink>(
    alloc: Global,
    version: Version,
    setup: &Setup,
    bus: &mut Bus<T>,
    out: &mut K,
) -> Result<(), WriteStop>
    ensures lines { let all = bus_text version (counters T.tool bus.old) setup.now in Came result
        (writing K.held K.faults out.old out.new) (all (histories setup.now)) }
    ensures shown { let es = shown_from setup.now 0 (histories setup.now) in
        OnOk result (counters T.tool bus.new ≡ counters_after es (counters T.tool bus.old)) }
{
    let scripts = Scripts::open(alloc, setup)?;
    let groups = scripts.groups(alloc, setup)?;
    write_all(alloc, version, setup, groups.as_slice(), bus, out)
}
