//! How a job stands that is there.
ghost use Rattle.std.specs.Prelude.{◌≡◌, ◌++◌, None, OnOk, codes, decimal, true};
ghost use Rattle.rt_base.specs.TaskNos.{number_of_task};
ghost use Rattle.rt_rules.specs.Numbers.{has};
ghost use Rattle.rt_task.specs.declared.PluginKind.TheVariants as plugins;
ghost use Rattle.rt_model.specs.Group.{Group, protocol, sems, tasks};
ghost use Rattle.rt_model.specs.Past.{Past};
ghost use Rattle.why_texts.specs.Standings.{kept_back, ready_standing, standing, waiting_standing, waiting_words, with_piece};
ghost use Rattle.why_lines.specs.GroupSets.{group_in};
ghost use Rattle.why_states.specs.inside.Unserved.{unserved_piece};
ghost use Rattle.why_states.specs.States.{IsAt, group_of};

use crate::others::highest_of_others;
use crate::state::State;
use rt_base::{NoMemory, SemNo, TaskNo};
use rt_task::{PluginKind, Protocol};
use std::alloc::Global;
use why_lines::{
    GroupSet, protocol_of, put, put_number, put_sem_or_dash, put_task_or_dash, server_of,
};

#[tactic(auto, using(std::proofs::Common::append_assoc))]
fn put_sleeping(out: &mut Vec<u8>, wakes: u64) -> Result<(), NoMemory>
    ensures { OnOk result (out.new.items
        ≡ out.old.items ++ (codes " sleeps until " ++ decimal wakes)) }
{
    put(out, b" sleeps until ")?;
    put_number(out, wakes)
}

/// Under PCP, the semaphore of the highest ceiling that others hold.
fn put_with(
    alloc: Global,
    out: &mut Vec<u8>,
    state: &State,
    task: TaskNo,
    sem: SemNo,
) -> Result<(), NoMemory>
    requires at { (past : Past) × IsAt past state.now }
    requires sem { has sem.0 (sems (group_of state.now)) ≡ true }
    ensures { OnOk result ((past : Past) → IsAt past state.now → let g = group_of state.now in
        out.new.items ≡ out.old.items ++ with_piece g (protocol g sem.0) task.0 past) }
{
    match protocol_of(&state.set, sem) {
        Protocol::Pcp => {
            let highest = highest_of_others(alloc, state, task)?;
            put(out, b" with ")?;
            put_sem_or_dash(out, &state.set, highest)
        }
        _ => Ok(()),
    }
}

fn waiting_word(blocked: bool) -> &'static [u8]
    ensures { (g : Group) → result.now ≡ waiting_words g blocked }
{
    if blocked {
        b" blocked at "
    } else {
        b" waits for "
    }
}

/// What a task waits for that waits, and who keeps it from it.
fn put_waiting(
    alloc: Global,
    out: &mut Vec<u8>,
    state: &State,
    task: TaskNo,
    sem: SemNo,
) -> Result<(), NoMemory>
    requires at { (past : Past) × IsAt past state.now }
    requires task { has task.0 (tasks (group_of state.now)) ≡ true }
    requires sem { has sem.0 (sems (group_of state.now)) ≡ true }
    ensures { OnOk result ((past : Past) → IsAt past state.now → out.new.items
        ≡ out.old.items ++ waiting_standing (group_of state.now) sem.0 task.0 past) }
{
    put(out, waiting_word(state.afresh.blocked(task)))?;
    put_sem_or_dash(out, &state.set, Some(sem))?;
    put(out, b", kept by ")?;
    put_task_or_dash(out, &state.set, state.afresh.waits_for(task))?;
    put_with(alloc, out, state, task, sem)
}

/// What keeps a task from running that its reservation does not serve, with what is left of the budget and the front client.
#[tactic(auto, using(std::proofs::Common::append_assoc))]
fn put_unserved(
    out: &mut Vec<u8>,
    set: &GroupSet,
    left: u64,
    front: Option<TaskNo>,
) -> Result<(), NoMemory>
    ensures { OnOk result (out.new.items ≡ out.old.items
        ++ unserved_piece (group_in set.now) left (number_of_task front)) }
{
    if left == 0 {
        return put(out, b" without budget");
    }
    put(out, b" behind ")?;
    put_task_or_dash(out, set, front)
}

/// What keeps a task back under P-RES: its reservation has no budget, or serves another client.
fn put_behind(out: &mut Vec<u8>, state: &State, task: TaskNo) -> Result<(), NoMemory>
    requires at { (past : Past) × IsAt past state.now }
    requires task { has task.0 (tasks (group_of state.now)) ≡ true }
    requires plugin { (group_of state.now).setup.plugin ≡ plugins.PRes }
    ensures { OnOk result ((past : Past) → IsAt past state.now → out.new.items
        ≡ out.old.items ++ kept_back (group_of state.now) plugins.PRes task.0 past) }
{
    let resv = server_of(&state.set, task);
    let left = state.afresh.left(resv);
    let front = state.afresh.front(resv);
    put_unserved(out, &state.set, left, front)
}

/// What keeps a ready task back that waits for none.
fn put_kept_back(out: &mut Vec<u8>, state: &State, task: TaskNo) -> Result<(), NoMemory>
    requires at { (past : Past) × IsAt past state.now }
    requires task { has task.0 (tasks (group_of state.now)) ≡ true }
    ensures { OnOk result ((past : Past) → IsAt past state.now → let g = group_of state.now in
        out.new.items ≡ out.old.items ++ kept_back g g.setup.plugin task.0 past) }
{
    match state.set.parts.plugin {
        PluginKind::PRes => put_behind(out, state, task),
        _ => put(out, b" kept from starting by SRP"),
    }
}

/// How a task stands that waits for none and does not sleep.
fn put_awake(out: &mut Vec<u8>, state: &State, task: TaskNo) -> Result<(), NoMemory>
    requires at { (past : Past) × IsAt past state.now }
    requires task { has task.0 (tasks (group_of state.now)) ≡ true }
    ensures { OnOk result ((past : Past) → IsAt past state.now → out.new.items
        ≡ out.old.items ++ ready_standing (group_of state.now) None task.0 past) }
{
    if state.afresh.eligible(task) {
        put(out, b" eligible")
    } else {
        put_kept_back(out, state, task)
    }
}

/// How a job stands that is there: it sleeps, it waits, it is eligible, or it is kept back.
pub(crate) fn put_standing(
    alloc: Global,
    out: &mut Vec<u8>,
    state: &State,
    task: TaskNo,
) -> Result<(), NoMemory>
    requires at { (past : Past) × IsAt past state.now }
    requires task { has task.0 (tasks (group_of state.now)) ≡ true }
    ensures { OnOk result ((past : Past) → IsAt past state.now → out.new.items
        ≡ out.old.items ++ standing (group_of state.now) task.0 past) }
{
    if state.afresh.sleeps(task) {
        return put_sleeping(out, state.afresh.wakes(task));
    }
    match state.afresh.waits(task) {
        Some(sem) => put_waiting(alloc, out, state, task, sem),
        None => put_awake(out, state, task),
    }
}
