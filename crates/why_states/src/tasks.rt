//! The lines of the tasks.
ghost use Rattle.std.specs.Prelude.{◌≡◌, ◌+◌, ◌++◌, ◌<◌, ◌^◌, ◌&&◌, IfSome, OnOk, flat_map, nat_lt, not, true, unwrap_or};
ghost use Rattle.rt_base.specs.declared.TheConstants.{TICK_END};
ghost use Rattle.rt_rules.specs.Numbers.{has};
ghost use Rattle.rt_model.specs.BaseKeys.{base_key};
ghost use Rattle.rt_model.specs.EffectiveKeys.{effective_key};
ghost use Rattle.rt_model.specs.Group as groups;
ghost use Rattle.rt_model.specs.Group.{tasks};
ghost use Rattle.rt_model.specs.Jobs.{used};
ghost use Rattle.rt_model.specs.Past.{Past};
ghost use Rattle.rt_model.specs.Releases as moments;
ghost use Rattle.rt_model.specs.Releases.{deadline, opens_early, release};
ghost use Rattle.why_texts.specs.TaskLines.{job_or_absent, job_piece, task_line};
ghost use Rattle.why_lines.specs.GroupSets.{group_in};
ghost use Rattle.why_states.specs.States.{IsAt, group_of};

use crate::standings::put_standing;
use crate::state::State;
use rt_base::{NoMemory, TaskNo};
use std::alloc::Global;
use why_lines::{GroupSet, JobTimes, limits_of, put, put_absent, put_job_facts, put_job_start};

/// Whether the jobs of a task may open early.
#[tactic(auto, unfolding(rt_model::specs::Group::task))]
fn is_early(set: &GroupSet, task: TaskNo) -> bool
    ensures { result ≡ (groups.task (group_in set.now) task.0).early }
{
    match set
        .parts
        .tasks
        .as_slice()
        .get(task.0.saturating_sub(1) as usize)
    {
        Some(row) => row.early,
        None => false,
    }
}

/// Whether a moment has come.
fn has_come(clock: u64, moment: Option<u64>) -> bool
    ensures { result ≡ moments.has_come clock moment }
{
    match moment {
        Some(moment) => moment <= clock,
        None => false,
    }
}

/// Whether a job is open before its release: its task may open early, has ended a job, and the release has not come.
fn is_open_early(early: bool, done: u64, clock: u64, release: Option<u64>) -> bool
    ensures { result ≡ early && (nat_lt 0 done && not (moments.has_come clock release)) }
{
    early && done > 0 && !has_come(clock, release)
}

/// Whether the current job of a task is open before its release.
fn opens_early_now(state: &State, task: TaskNo) -> bool
    requires at { (past : Past) × IsAt past state.now }
    requires task { has task.0 (tasks (group_of state.now)) ≡ true }
    ensures { (past : Past) → IsAt past state.now
        → result ≡ opens_early (group_of state.now) task.0 past }
{
    let done = state.afresh.done(task);
    let release = state.afresh.release(task);
    is_open_early(is_early(&state.set, task), done, state.clock.0, release)
}

/// The deadline of a job of this release, with a task's relative deadline.
fn deadline_of(release: Option<u64>, relative: u64) -> u64
    requires release { IfSome release (λ r. r < 2 ^ 62) }
    requires relative { relative < TICK_END }
    ensures { result ≡ unwrap_or release 0 + relative }
{
    match release {
        Some(release) => release + relative,
        None => relative,
    }
}

/// The keys and times of the current job of a task.
fn times_of(state: &State, task: TaskNo) -> JobTimes
    requires at { (past : Past) × IsAt past state.now }
    requires task { has task.0 (tasks (group_of state.now)) ≡ true }
    ensures { (past : Past) → IsAt past state.now → let g = group_of state.now in
        result ≡ record {
          base = base_key g task.0 past;
          key = effective_key g task.0 past;
          release = release g task.0 past;
          deadline = deadline g task.0 past;
          used = used task.0 past;
          cost = (groups.task g task.0).cost;
        } }
{
    let release = state.afresh.release(task);
    let (relative, cost) = limits_of(&state.set, task);
    let deadline = deadline_of(release, relative);
    JobTimes {
        base: state.afresh.base_key(task),
        key: state.afresh.effective_key(task),
        release,
        deadline,
        used: state.afresh.used(task),
        cost,
    }
}

/// A job that is there: how it stands and what is so of it.
fn put_job(alloc: Global, out: &mut Vec<u8>, state: &State, task: TaskNo) -> Result<(), NoMemory>
    requires at { (past : Past) × IsAt past state.now }
    requires task { has task.0 (tasks (group_of state.now)) ≡ true }
    ensures { OnOk result ((past : Past) → IsAt past state.now → out.new.items
        ≡ out.old.items ++ job_piece (group_of state.now) task.0 past) }
{
    let held = state.afresh.held(alloc, task)?;
    put_standing(alloc, out, state, task)?;
    put_job_facts(
        out,
        &state.set,
        &times_of(state, task),
        opens_early_now(state, task),
        state.afresh.non_preemptive(task),
        held.as_slice(),
    )
}

/// What there is of the current job of a task.
fn put_job_or_absent(
    alloc: Global,
    out: &mut Vec<u8>,
    state: &State,
    task: TaskNo,
) -> Result<(), NoMemory>
    requires at { (past : Past) × IsAt past state.now }
    requires task { has task.0 (tasks (group_of state.now)) ≡ true }
    ensures { OnOk result ((past : Past) → IsAt past state.now → out.new.items
        ≡ out.old.items ++ job_or_absent (group_of state.now) task.0 past) }
{
    if state.afresh.exists(task) {
        put_job(alloc, out, state, task)
    } else {
        put_absent(out, state.afresh.release(task))
    }
}

/// The line of a task.
fn put_task(alloc: Global, out: &mut Vec<u8>, state: &State, task: TaskNo) -> Result<(), NoMemory>
    requires at { (past : Past) × IsAt past state.now }
    requires task { has task.0 (tasks (group_of state.now)) ≡ true }
    ensures { OnOk result ((past : Past) → IsAt past state.now → out.new.items
        ≡ out.old.items ++ task_line (group_of state.now) task.0 past) }
{
    put_job_start(out, &state.set, task, state.afresh.done(task) + 1)?;
    put_job_or_absent(alloc, out, state, task)?;
    put(out, b"\n")
}

/// The lines of the tasks of the group.
pub(crate) fn put_tasks(alloc: Global, out: &mut Vec<u8>, state: &State) -> Result<(), NoMemory>
    requires { (past : Past) × IsAt past state.now }
    ensures { OnOk result ((past : Past) → IsAt past state.now → out.new.items
        ≡ out.old.items
        ++ flat_map (λ t. task_line (group_of state.now) t past) (tasks (group_of state.now))) }
{
    for task in state.tasks {
        put_task(alloc, out, state, *task)?;
    }
    Ok(())
}
