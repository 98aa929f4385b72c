//! Checks a trace: whether its lines are the ones that its set gives, in some order of its
//! processors' steps or turns, and the count lines those of its entries.
#![tactic(auto)]

ghost use Rattle.std.specs.Prelude.{◌≡◌, List, [], map, IfOk, true};
ghost use Rattle.rt_task.specs.Validity.{IsValid};
ghost use Rattle.trace_tools.specs.BusCounters.{counters};
ghost use Rattle.trace_tools.specs.Counters.{counter_of};
ghost use Rattle.trace_tools.specs.Tools.{Tool};
ghost use Rattle.trace_read.specs.Reads.{IsHeadOf};
ghost use Rattle.trace_check.specs.Counts.{HasCounts};
ghost use Rattle.trace_check.specs.Groups.{HasGroups};
ghost use Rattle.trace_check.specs.Verdicts.{HasShown, IsVerdict};
ghost use Rattle.trace_check.specs.Keeping.{Between, HasKept};

mod behind;
mod counts;
mod follow;
mod group;
mod head;
mod judge;
mod keeper;
mod lines;
mod links;
mod progress;
mod requests;
mod verdict;

use head::has_head;
use judge::judge_text;
use keeper::GroupKeeper;
pub use keeper::Keeper;
use rt_base::NoMemory;
use std::alloc::Global;
use trace_read::TraceHead;
use trace_text::PlayedGroup;
use trace_tools::{Bus, TraceTool};
pub use verdict::{Checked, Verdict};
use view_replay::{Player, Replay};

/// Whether a text of which this head was read is a valid trace, in its format, for its set: the canonical set, for each
/// group the lines of a play of it, and the line `end`, and behind that nothing, or the count line of each tool of the bus.
/// Else the first line that is wrong: one more than the greatest number of lines with which a valid text begins as this one
/// does.
///
/// The steps are replayed by `Afresh`: of each line of an entry it is read who takes the step, and the line that a valid
/// trace has there is made and compared. The bus is shown each entry as it is followed, and where the text is valid, all.
pub fn check_trace<T: TraceTool>(
    alloc: Global,
    bytes: &[u8],
    head: &TraceHead,
    bus: &mut Bus<T>,
) -> Result<Verdict, NoMemory>
    requires read { IsHeadOf bytes.now head.now }
    ensures verdict { IfOk result (λ v. (tools : List Tool)
        → counters T.tool bus.old ≡ map counter_of tools
        → IsVerdict tools head.now.version head.now.setup bytes.now v) }
    ensures shown { IfOk result (λ v. (tools : List Tool)
        → counters T.tool bus.old ≡ map counter_of tools
        → HasShown tools head.now.version head.now.setup bytes.now (counters T.tool bus.new) v) }
{
    Ok(check_counted(alloc, bytes, head, bus)?.verdict)
}

/// The same, and of a valid text whether the count lines stand behind it.
pub fn check_counted<T: TraceTool>(
    alloc: Global,
    bytes: &[u8],
    head: &TraceHead,
    bus: &mut Bus<T>,
) -> Result<Checked, NoMemory>
    requires read { IsHeadOf bytes.now head.now }
    ensures verdict { IfOk result (λ c. (tools : List Tool)
        → counters T.tool bus.old ≡ map counter_of tools
        → IsVerdict tools head.now.version head.now.setup bytes.now c.verdict) }
    ensures counted { IfOk result (λ c. (tools : List Tool)
        → counters T.tool bus.old ≡ map counter_of tools
        → HasCounts tools head.now.version head.now.setup bytes.now c.verdict c.counted) }
    ensures shown { IfOk result (λ c. (tools : List Tool)
        → counters T.tool bus.old ≡ map counter_of tools
        → HasShown tools head.now.version head.now.setup bytes.now (counters T.tool bus.new) c.verdict) }
{
    check_with::<T, Replay, ()>(alloc, bytes, head, bus, &mut ())
}

/// The same as `check_trace`, and of a valid text the groups of its set, by rising number, each with its entries. Of another
/// text the groups say nothing.
pub fn check_groups<T: TraceTool>(
    alloc: Global,
    bytes: &[u8],
    head: &TraceHead,
    bus: &mut Bus<T>,
) -> Result<(Verdict, Vec<PlayedGroup>), NoMemory>
    requires read { IsHeadOf bytes.now head.now }
    ensures verdict { IfOk result (λ x. (tools : List Tool)
        → counters T.tool bus.old ≡ map counter_of tools
        → IsVerdict tools head.now.version head.now.setup bytes.now x.0) }
    ensures shown { IfOk result (λ x. (tools : List Tool)
        → counters T.tool bus.old ≡ map counter_of tools
        → HasShown tools head.now.version head.now.setup bytes.now (counters T.tool bus.new) x.0) }
    ensures groups { IfOk result (λ x. (tools : List Tool)
        → counters T.tool bus.old ≡ map counter_of tools
        → HasGroups tools head.now.version head.now.setup bytes.now x.1.items x.0) }
{
    let mut keeper = GroupKeeper::new(alloc, bytes.len())?;
    let checked = check_with::<T, Replay, GroupKeeper>(alloc, bytes, head, bus, &mut keeper)?;
    Ok((checked.verdict, keeper.groups()))
}

/// The same as `check_counted`, and the keeper is given each group.
pub fn check_with<T: TraceTool, P: Player, K: Keeper<P>>(
    alloc: Global,
    bytes: &[u8],
    head: &TraceHead,
    bus: &mut Bus<T>,
    keeper: &mut K,
) -> Result<Checked, NoMemory>
    requires read { IsHeadOf bytes.now head.now }
    requires opened { K.holds keeper.old head.now.setup [] [] }
    ensures valid { IsValid head.now.setup }
    ensures verdict { IfOk result (λ c. (tools : List Tool)
        → counters T.tool bus.old ≡ map counter_of tools
        → IsVerdict tools head.now.version head.now.setup bytes.now c.verdict) }
    ensures counted { IfOk result (λ c. (tools : List Tool)
        → counters T.tool bus.old ≡ map counter_of tools
        → HasCounts tools head.now.version head.now.setup bytes.now c.verdict c.counted) }
    ensures shown { IfOk result (λ c. (tools : List Tool)
        → counters T.tool bus.old ≡ map counter_of tools
        → HasShown tools head.now.version head.now.setup bytes.now (counters T.tool bus.new) c.verdict) }
    ensures kept { IfOk result (λ c. (tools : List Tool)
        → counters T.tool bus.old ≡ map counter_of tools
        → HasKept tools head.now.version head.now.setup bytes.now
        (Between (K.holds keeper.new head.now.setup)) c.verdict) }
{
    let parts = head.setup.parts();
    if !has_head(alloc, bytes, head.version, parts, head.is_canonical)? {
        return Ok(Checked {
            verdict: Verdict::Invalid(2),
            counted: false,
        });
    }
    let text = &bytes[head.length..];
    judge_text::<T, P, K>(alloc, head.version, &head.setup, text, bus, keeper)
}
