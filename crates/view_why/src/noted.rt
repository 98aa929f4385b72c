//! What is noted while a step is taken.
ghost use Rattle.std.specs.Prelude.{◌≡◌, ◌<◌, IfOk, OnOk};
ghost use Rattle.rt_model.specs.Histories.{after};
ghost use Rattle.rt_model.specs.Past.{Past};
ghost use Rattle.rt_model.specs.Steps.{IsStepOf};
ghost use Rattle.view_replay.specs.Replays as replays;
ghost use Rattle.why_states.specs.States as states;
ghost use Rattle.why_texts.specs.StateText.{state_text};
ghost use Rattle.view_why.specs.inside.Groups.{AreMembers, group_of};
ghost use Rattle.view_why.specs.inside.Parts.{AreNotes};

use crate::links::read_links;
use crate::members::{Members, state_of};
use rt_base::NoMemory;
use rt_task::Step;
use std::alloc::Global;
use trace_lines::CpuLink;
use view_acts::ShownAct;
use view_replay::Replay;
use why_states::{State, put_state};

/// What was noted while a step was taken: the links before it, the lines of the state between its moves, and its act.
#[derive(Drop)]
pub(crate) struct Noted {
    pub(crate) links: Vec<CpuLink>,
    pub(crate) between: Vec<u8>,
    pub(crate) act: ShownAct,
}

/// The lines of a state.
fn lines_of_state(alloc: Global, state: &State) -> Result<Vec<u8>, NoMemory>
    requires { (past : Past) × states.IsAt past state.now }
    ensures { IfOk result (λ v. (past : Past) → states.IsAt past state.now
        → v.items ≡ state_text (states.group_of state.now) past) }
{
    let mut lines = Vec::new(alloc);
    put_state(alloc, &mut lines, state)?;
    Ok(lines)
}

/// Takes a step and notes what was so before and between its moves.
pub(crate) fn take_noting(
    alloc: Global,
    members: &Members,
    replay: &mut Replay,
    step: Step,
) -> Result<Noted, NoMemory>
    requires members { AreMembers members.now }
    requires group { replays.group_of replay.old ≡ group_of members.now }
    requires room { 0 < replays.spare replay.old }
    requires step { IsStepOf (group_of members.now) step }
    requires at { (past : Past) × replays.IsAt replay.old past }
    ensures noted { IfOk result (λ n. (past : Past) → replays.IsAt replay.old past
        → AreNotes (group_of members.now) step past n) }
    ensures at { OnOk result ((past : Past) → replays.IsAt replay.old past
        → replays.IsAt replay.new (after (group_of members.now) step past)) }
    ensures group { OnOk result (replays.group_of replay.new ≡ group_of members.now) }
{
    let links = read_links(alloc, replay.afresh(), members.cpus.as_slice())?;
    replay.clock(step.tick);
    let between = lines_of_state(alloc, &state_of(members, replay))?;
    let act = replay.act(step);
    Ok(Noted {
        links,
        between,
        act,
    })
}
