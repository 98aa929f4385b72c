//! What the histories of a set come to, in numbers.
ghost use Rattle.std.specs.Prelude.{◌≡◌, ◌+◌, ◌*◌, ◌<◌, ◌≤◌, ◌^◌, [], IfOk, length};
ghost use Rattle.rt_base.specs.declared.TheConstants.{MOST_STEPS};
ghost use Rattle.rt_plays.specs.Groups.{IsGroupOf, group_of, past};
ghost use Rattle.rt_plays.specs.Order.{histories};
ghost use Rattle.rt_plays.specs.Plays.{group_with};
ghost use Rattle.set_plays.specs.GroupSteps.{AreGroupSteps, AreStepsIn, group_told, told};
ghost use Rattle.set_plays.specs.StepsLeft.{AreOf};
ghost use Rattle.block_counts.specs.SeenWords.{tallies_of};
ghost use Rattle.trace_tools.specs.BusCounters.{counters};
ghost use Rattle.trace_tools.specs.Counters.{counters_after};
ghost use Rattle.trace_text.specs.CountLines.{shown_entries, shown_from};
ghost use Rattle.trace_writer.specs.Replays.{HasPlayed, ahead};
ghost use Rattle.trace_writer.specs.Summaries as words;
ghost use Rattle.trace_writer.specs.Summaries.{summary_from, summary_in};

use crate::counted::CountingEngine;
use crate::counts::show;
use block_counts::Seen;
use rt_base::{GroupNo, NoMemory};
use rt_rules::Entry;
use rt_task::Setup;
use set_plays::{GroupSteps, Scripts, StepsLeft};
use std::alloc::Global;
use trace_tools::{Bus, TraceTool};

/// How many entries and requests histories have, and the most critical sections that ended while a request was open and
/// its task priority-blocked, 0 where there is no request.
#[derive(Clone, Copy, PartialEq, Eq)]
pub struct Summary {
    pub entries: u32,
    pub requests: u32,
    pub most: u32,
}

fn most_ends(requests: &[Seen]) -> u32
    ensures { result ≡ words.most_ends (tallies_of requests.now) }
{
    let mut most = 0;
    for seen in requests {
        most = seen.ends.max(most);
    }
    most
}

fn joined(a: Summary, b: Summary) -> Summary
    requires entries { a.entries + b.entries < 2 ^ 32 }
    requires requests { a.requests + b.requests < 2 ^ 32 }
    ensures { result ≡ words.joined a b }
{
    Summary {
        entries: a.entries + b.entries,
        requests: a.requests + b.requests,
        most: a.most.max(b.most),
    }
}

/// The engine takes the steps that are left of its group, and the bus is shown each entry. Tells how many there were.
fn take_steps<T: TraceTool>(
    setup: &Setup,
    engine: &mut CountingEngine,
    left: &mut StepsLeft<'_>,
    number: GroupNo,
    bus: &mut Bus<T>,
) -> u32
    requires setup { engine.old.setup ≡ setup.now }
    requires number { engine.old.group ≡ number.0 }
    requires of { AreOf (group_of engine.old) left.old }
    requires room { length (ahead (group_of engine.old) left.old (past engine.old)) ≤ engine.old.spare }
    requires few { engine.old.spare ≤ MOST_STEPS }
    ensures count { result ≡ length (ahead (group_of engine.old) left.old (past engine.old)) }
    ensures played { let es = ahead (group_of engine.old) left.old (past engine.old) in
        HasPlayed engine.old engine.new es }
    ensures shown { let g = group_of engine.old in
        let es = shown_entries g 0 (past engine.old) (ahead g left.old (past engine.old)) in
        counters T.tool bus.new ≡ counters_after es (counters T.tool bus.old) }
{
    let mut no = 0;
    while let Some(step) = left.next(setup, engine.engine()) {
        let reply = engine.step(step);
        show(bus, engine, number, no, &Entry { step, reply });
        no += 1;
    }
    no
}

/// What the history of a group comes to that plays these steps. The bus is shown its entries.
fn summarize_group<T: TraceTool>(
    alloc: Global,
    setup: &Setup,
    number: GroupNo,
    steps: GroupSteps<'_>,
    bus: &mut Bus<T>,
) -> Result<Summary, NoMemory>
    requires there { IsGroupOf setup.now number.0 }
    requires steps { AreStepsIn (group_with setup.now number.0) steps }
    ensures summary { let es = group_told setup.now number.0 steps.entry in
        IfOk result (λ s. s ≡ summary_in (group_with setup.now number.0) es) }
    ensures entries { IfOk result (λ s. s.entries ≤ MOST_STEPS) }
    ensures requests { IfOk result (λ s. s.requests ≤ 2 * MOST_STEPS) }
    ensures shown { let es = group_told setup.now number.0 steps.entry in
        let shown = shown_entries (group_with setup.now number.0) 0 [] es in
        IfOk result (λ _. counters T.tool bus.new ≡ counters_after shown (counters T.tool bus.old)) }
{
    let mut left = steps.all(alloc, setup, number)?;
    let mut engine = CountingEngine::open(alloc, setup, number, left.room())?;
    let entries = take_steps(setup, &mut engine, &mut left, number, bus);
    let requests = engine.requests();
    Ok(Summary {
        entries,
        requests: requests.len() as u32,
        most: most_ends(requests),
    })
}

/// Plays a set on one thread: what the histories of its groups come to. The bus is shown every entry once, in the order of the
/// lines of a trace.
pub fn summarize<T: TraceTool>(
    alloc: Global,
    setup: &Setup,
    bus: &mut Bus<T>,
) -> Result<Summary, NoMemory>
    ensures summary { IfOk result
        (λ s. s ≡ summary_from setup.now 0 (histories setup.now)) }
    ensures shown { let es = shown_from setup.now 0 (histories setup.now) in
        IfOk result (λ _. counters T.tool bus.new ≡ counters_after es (counters T.tool bus.old)) }
{
    let scripts = Scripts::open(alloc, setup)?;
    let groups = scripts.groups(alloc, setup)?;
    summarize_groups(alloc, setup, groups.as_slice(), bus)
}

/// The same of groups that play these steps.
fn summarize_groups<T: TraceTool>(
    alloc: Global,
    setup: &Setup,
    groups: &[GroupSteps<'_>],
    bus: &mut Bus<T>,
) -> Result<Summary, NoMemory>
    requires { AreGroupSteps setup.now groups.now }
    ensures summary { IfOk result
        (λ s. s ≡ summary_from setup.now 0 (told setup.now groups.now)) }
    ensures shown { let es = shown_from setup.now 0 (told setup.now groups.now) in
        IfOk result (λ _. counters T.tool bus.new ≡ counters_after es (counters T.tool bus.old)) }
{
    // A proof knows that a setup is valid once its parts are read.
    let _parts = setup.parts();
    let mut summary = Summary {
        entries: 0,
        requests: 0,
        most: 0,
    };
    for (i, steps) in groups.iter().enumerate() {
        let own = summarize_group(alloc, setup, GroupNo(i as u32), *steps, bus)?;
        summary = joined(summary, own);
    }
    Ok(summary)
}
