//! A group after the first entries of its history.
ghost use Rattle.std.specs.Prelude.{◌≡◌, ◌+◌, ◌<◌, ◌≤◌, IfOk, length};
ghost use Rattle.rt_base.specs.declared.TheConstants.{MOST_STEPS};
ghost use Rattle.rt_model.specs.Histories.{after, past_from, past_of};
ghost use Rattle.rt_model.specs.Past.{Past};
ghost use Rattle.rt_model.specs.Steps.{IsStepOf};
ghost use Rattle.rt_plays.specs.Groups.{AreStepsOf, IsGroupOf};
ghost use Rattle.rt_plays.specs.Plays.{group_with};
ghost use Rattle.view_replay.specs.Replays.{IsAt, group_of, spare};

use rt_base::{GroupNo, NoMemory};
use rt_rules::Entry;
use rt_task::{Setup, Step};
use std::alloc::Global;
use view_replay::Replay;

/// Takes a step.
fn step(replay: &mut Replay, step: Step)
    requires room { 0 < spare replay.old }
    requires step { IsStepOf (group_of replay.old) step }
    requires at { (past : Past) × IsAt replay.old past }
    ensures at { (past : Past) → IsAt replay.old past
        → IsAt replay.new (after (group_of replay.old) step past) }
    ensures group { group_of replay.new ≡ group_of replay.old }
    ensures room { spare replay.new + 1 ≡ spare replay.old }
{
    replay.clock(step.tick);
    replay.act(step);
}

/// Takes the steps of these entries.
fn take(replay: &mut Replay, entries: &[Entry])
    requires room { length entries.now < spare replay.old }
    requires steps { AreStepsOf (group_of replay.old) entries.now }
    requires at { (past : Past) × IsAt replay.old past }
    ensures at { (past : Past) → IsAt replay.old past
        → IsAt replay.new (past_from (group_of replay.old) past entries.now) }
    ensures group { group_of replay.new ≡ group_of replay.old }
    ensures room { 0 < spare replay.new }
{
    for entry in entries {
        step(replay, entry.step);
    }
}

/// A group of a setup after these entries, with room for one more step.
pub(crate) fn replayed(
    alloc: Global,
    setup: &Setup,
    group: GroupNo,
    entries: &[Entry],
) -> Result<Replay, NoMemory>
    requires group { IsGroupOf setup.now group.0 }
    requires few { length entries.now < MOST_STEPS }
    requires steps { AreStepsOf (group_with setup.now group.0) entries.now }
    ensures at { IfOk result (λ r. IsAt r (past_of (group_with setup.now group.0) entries.now)) }
    ensures group { IfOk result (λ r. group_of r ≡ group_with setup.now group.0) }
    ensures room { IfOk result (λ r. 0 < spare r) }
{
    let mut replay = Replay::open(alloc, setup, group, entries.len() as u32 + 1)?;
    take(&mut replay, entries);
    Ok(replay)
}
