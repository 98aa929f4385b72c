//! What a bus is shown of the entries, and the count lines of its tools.
ghost use Rattle.std.specs.Prelude.{◌≡◌, flat_map, map};
ghost use Rattle.rt_plays.specs.Groups.{group_of, past};
ghost use Rattle.trace_lines.specs.Grammar.{line_text};
ghost use Rattle.trace_lines.specs.Known.{Known};
ghost use Rattle.trace_tools.specs.BusCounters.{counters};
ghost use Rattle.trace_tools.specs.Counters.{counter_after, counter_line};
ghost use Rattle.trace_text.specs.CountLines.{shown_as};
ghost use Rattle.rt_fault.specs.Ends.{writing};
ghost use Rattle.trace_writer.specs.Writing.{Came};

use crate::WriteStop;
use crate::counted::CountingEngine;
use crate::lines::write_bytes;
use rt_base::GroupNo;
use rt_fault::Sink;
use rt_rules::Entry;
use std::alloc::Global;
use trace_text::shown_by;
use trace_tools::{Bus, TraceTool};

/// Shows the bus an entry of a group, whose step the engine has taken last.
#[inline(always)]
pub fn show<T: TraceTool>(
    bus: &mut Bus<T>,
    engine: &CountingEngine,
    group: GroupNo,
    no: u32,
    entry: &Entry,
)
    requires { engine.now.group ≡ group.0 }
    ensures { let e = shown_as (group_of engine.now) no entry.now (past engine.now) in
        counters T.tool bus.new ≡ map (counter_after e) (counters T.tool bus.old) }
{
    bus.feed(&shown_by(group, no, *entry, engine.ended()));
}

/// The count lines of a bus: one for each tool, in the order in which they were handed in.
pub fn write_counts<T: TraceTool, K: Sink>(
    alloc: Global,
    bus: &Bus<T>,
    out: &mut K,
) -> Result<(), WriteStop>
    ensures { (k : Known)
        → Came result (writing K.held K.faults out.old out.new)
        (flat_map (line_text k) (map counter_line (counters T.tool bus.now))) }
{
    // There is no memory for more tools than that.
    let Ok(count) = u32::try_from(bus.count()) else {
        return Err(WriteStop::NoMemory);
    };
    for i in 0..count {
        let line = bus.line(alloc, i)?;
        write_bytes(out, line.as_slice())?;
    }
    Ok(())
}
