//! What a group has: its tasks, the semaphores that these declare, its reservations and its processors.
ghost use Rattle.std.specs.Prelude.{◌≡◌, ◌∷◌, ℕ, IfOk};
ghost use Rattle.rt_model.specs.Past.{Clock, Past};
ghost use Rattle.rt_plays.specs.Plays.{group_with};
ghost use Rattle.view_replay.specs.Replays as replays;
ghost use Rattle.why_states.specs.States as states;
ghost use Rattle.why_lines.specs.GroupSets.{group_in};
ghost use Rattle.view_why.specs.inside.Groups.{AreMembers, group_of};

use rt_base::{CpuNo, GroupNo, NoMemory, ResvNo, SemNo, TaskNo};
use rt_task::Setup;
use std::alloc::Global;
use trace_text::cpus_of;
use view_replay::Replay;
use why_lines::{GroupSet, resvs_of, tasks_of};
use why_states::{State, sems_of};

/// A group of a set, and what it has, each by rising number.
#[derive(Drop)]
pub(crate) struct Members<'a> {
    pub(crate) set: GroupSet<'a>,
    pub(crate) tasks: Vec<TaskNo>,
    pub(crate) sems: Vec<SemNo>,
    pub(crate) resvs: Vec<ResvNo>,
    pub(crate) cpus: Vec<CpuNo>,
}

impl<'a> Members<'a> {
    /// What a group of a setup has.
    pub(crate) fn of(
        alloc: Global,
        setup: &'a Setup,
        group: GroupNo,
    ) -> Result<Members<'a>, NoMemory>
        ensures members { IfOk result AreMembers }
        ensures group { IfOk result (λ m. group_of m ≡ group_with setup.now group.0) }
    {
        let set = GroupSet {
            parts: setup.parts(),
            group,
        };
        let tasks = tasks_of(alloc, &set)?;
        let sems = sems_of(alloc, &set, tasks.as_slice())?;
        let resvs = resvs_of(alloc, &set)?;
        let cpus = cpus_of(alloc, setup, group)?;
        Ok(Members {
            set,
            tasks,
            sems,
            resvs,
            cpus,
        })
    }
}

/// The group at the moment at which a replay stands.
pub(crate) fn state_of<'a>(members: &'a Members<'a>, replay: &'a Replay) -> State<'a>
    requires members { AreMembers members.now }
    requires group { replays.group_of replay.now ≡ group_of members.now }
    ensures group { states.group_of result ≡ group_of members.now }
    ensures at { (past : Past) → replays.IsAt replay.now past → states.IsAt past result }
    ensures moved { (past : Past) (tick : ℕ) → replays.IsMoved replay.now tick past
        → states.IsAt (Clock tick ∷ past) result }
{
    State {
        set: members.set,
        afresh: replay.afresh(),
        clock: replay.now(),
        tasks: members.tasks.as_slice(),
        sems: members.sems.as_slice(),
        resvs: members.resvs.as_slice(),
    }
}
