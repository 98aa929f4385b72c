//! The count lines of the tools of a bus.
ghost use Rattle.std.specs.Prelude.{◌≡◌, flat_map, map, IfOk};
ghost use Rattle.trace_lines.specs.Grammar.{line_text};
ghost use Rattle.trace_lines.specs.Known.{Known};
ghost use Rattle.trace_tools.specs.BusCounters.{counters};
ghost use Rattle.trace_tools.specs.Counters.{counter_line};

use rt_base::NoMemory;
use std::alloc::Global;
use trace_tools::{Bus, TraceTool};

/// The count lines of a bus: one for each tool, in the order in which they were handed in.
pub(crate) fn count_text<T: TraceTool>(alloc: Global, bus: &Bus<T>) -> Result<Vec<u8>, NoMemory>
    ensures { IfOk result (λ v. (k : Known)
        → v.items ≡ flat_map (line_text k) (map counter_line (counters T.tool bus.now))) }
{
    // There is no memory for more tools than that.
    let Ok(count) = u32::try_from(bus.count()) else {
        return Err(NoMemory);
    };
    let mut text = Vec::new(alloc);
    for i in 0..count {
        let line = bus.line(alloc, i)?;
        text.extend_from_slice(line.as_slice())?;
    }
    Ok(text)
}
