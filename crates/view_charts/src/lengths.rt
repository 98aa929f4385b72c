//! How many columns there are.
ghost use Rattle.std.specs.Prelude.{◌≡◌};
ghost use Rattle.rt_model.specs.Group.{Group};
ghost use Rattle.rt_model.specs.Histories.{past_from};
ghost use Rattle.rt_model.specs.Past.{Past, now};
ghost use Rattle.rt_plays.specs.Groups.{past};
ghost use Rattle.rt_task.specs.declared.Parts.{Parts};
ghost use Rattle.chart_texts.specs.Charts.{longest_on, pasts_from};
ghost use Rattle.chart_texts.specs.Windows.{length_on};
ghost use Rattle.trace_text.specs.Groups.{AreGroupsOf, histories};

use chart_texts::Axis;
use rt_base::Tick;
use rt_rules::Entry;
use trace_text::PlayedGroup;

/// The clock after these entries, which follow when it is this one.
pub(crate) fn clock_after(clock: Tick, entries: &[Entry]) -> Tick
    ensures { (g : Group) (past : Past) → clock.0 ≡ now past
        → result.0 ≡ now (past_from g past entries.now) }
{
    let mut last = clock;
    for entry in entries {
        last = last.max(entry.step.tick);
    }
    last
}

/// How many columns a group has.
fn length_of(axis: Axis, group: &PlayedGroup) -> u64
    ensures { result ≡ length_on axis (past group.now) }
{
    match axis {
        Axis::Ticks => clock_after(Tick(0), group.entries()).0 + 1,
        Axis::Entries => group.entries().len() as u64,
    }
}

/// How many columns the longest group has; 0 where there is none.
pub(crate) fn longest(axis: Axis, groups: &[PlayedGroup]) -> u64
    ensures { (p : Parts) → AreGroupsOf p groups.now
        → result ≡ longest_on axis (pasts_from p 0 (histories groups.now)) }
{
    let mut longest = 0;
    for group in groups {
        longest = longest.max(length_of(axis, group));
    }
    longest
}
