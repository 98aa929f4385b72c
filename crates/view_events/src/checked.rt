//! The tracks of a trace, recorded as it is checked.
ghost use Rattle.std.specs.Prelude.{◌≡◌, List, map, IfOk};
ghost use Rattle.trace_tools.specs.BusCounters.{counters};
ghost use Rattle.trace_tools.specs.Counters.{counter_of};
ghost use Rattle.trace_tools.specs.Tools.{Tool};
ghost use Rattle.trace_read.specs.Reads.{IsHeadOf};
ghost use Rattle.trace_check.specs.Verdicts.{HasShown, IsVerdict};
ghost use Rattle.view_events.specs.TextTracks.{HasTracks};

use crate::keeper::TrackKeeper;
use crate::recording::Recording;
use event_lines::GroupTracks;
use rt_base::NoMemory;
use std::alloc::Global;
use trace_check::{Verdict, check_with};
use trace_read::TraceHead;
use trace_tools::{Bus, TraceTool};

/// The same as `check_trace` of `trace_check`, and of a valid text the tracks of the groups of its set, by rising number. Of
/// another text the tracks say nothing. Each step is taken once, for the check and for the tracks. Memory is taken for the spans
/// and jobs of all groups, and for the requests of one group at a time.
pub fn check_tracks<T: TraceTool>(
    alloc: Global,
    bytes: &[u8],
    head: &TraceHead,
    bus: &mut Bus<T>,
) -> Result<(Verdict, Vec<GroupTracks>), NoMemory>
    requires read { IsHeadOf bytes.now head.now }
    ensures verdict { IfOk result (λ x. (tools : List Tool)
        → counters T.tool bus.old ≡ map counter_of tools
        → IsVerdict tools head.now.version head.now.setup bytes.now x.0) }
    ensures shown { IfOk result (λ x. (tools : List Tool)
        → counters T.tool bus.old ≡ map counter_of tools
        → HasShown tools head.now.version head.now.setup bytes.now (counters T.tool bus.new) x.0) }
    ensures tracks { IfOk result (λ x. (tools : List Tool)
        → counters T.tool bus.old ≡ map counter_of tools
        → HasTracks tools head.now.version head.now.setup bytes.now x.1.items x.0) }
{
    let mut keeper = TrackKeeper::new(alloc);
    let checked = check_with::<T, Recording, TrackKeeper>(alloc, bytes, head, bus, &mut keeper)?;
    Ok((checked.verdict, keeper.tracks()))
}
