//! What an act makes of the jobs of all tasks, of each kind of deed.
ghost use Rattle.std.specs.Prelude.{◌≡◌, ◌<◌, ◌≤◌, ℕ, OnOk, length};
ghost use Rattle.rt_base.specs.TaskNos.{number_of_task};
ghost use Rattle.rt_base.specs.declared.TheConstants.{MOST_STEPS, TICK_END};
ghost use Rattle.job_facts.specs.Deeds.{Scene, jobs_arrived, jobs_ended, jobs_run, jobs_taken};
ghost use Rattle.rt_rules.specs.Numbers.{is};
ghost use Rattle.view_acts.specs.ShownActs.{act_shown};
ghost use Rattle.job_views.specs.Told.{HasRoom, jobs_in};

use crate::deeds::{arrived, taken_up};
use crate::task_jobs::TaskJobs;
use rt_base::{NoMemory, TaskNo, Tick};
use std::alloc::Global;
use view_acts::ShownAct;

/// A processor takes a task up. The tasks are listed by number, from 0.
pub(crate) fn take_up(tasks: &mut [TaskJobs], act: &ShownAct)
    requires { (t : ℕ) → t < length tasks.old → (jobs_in tasks.old t).current.moves ≤ MOST_STEPS }
    ensures { (t : ℕ) → t < length tasks.old
        → jobs_in tasks.new t ≡ jobs_taken t (act_shown act.now) (jobs_in tasks.old t) }
{
    match taken_up(act.reply) {
        Some(task) if (task.0 as usize) < tasks.len() => {
            tasks[task.0 as usize].take_up(act.cpu.0);
        }
        _ => {}
    }
}

fn is_task(task: TaskNo, worker: Option<TaskNo>) -> bool
    ensures { result ≡ is task.0 (number_of_task worker) }
{
    match worker {
        Some(other) => task == other,
        None => false,
    }
}

/// A task ran on the act's processor, on which this task has worked since it switched last, and there were so many requests before.
pub(crate) fn run(
    tasks: &mut [TaskJobs],
    worker: Option<TaskNo>,
    clock: Tick,
    asked: u32,
    act: &ShownAct,
) -> Result<(), NoMemory>
    requires clock { clock.0 < TICK_END }
    requires room { (t : ℕ) → t < length tasks.old → HasRoom (jobs_in tasks.old t).current }
    ensures { let at : Scene =
        record { clock = clock.0; asked = asked; worker = number_of_task worker } in
        OnOk result ((t : ℕ) → t < length tasks.old
        → jobs_in tasks.new t ≡ jobs_run at t (act_shown act.now) (jobs_in tasks.old t)) }
{
    match act.task {
        Some(task) if (task.0 as usize) < tasks.len() => {
            tasks[task.0 as usize].run(is_task(task, worker), clock, asked, act)
        }
        _ => Ok(()),
    }
}

/// A job of a task arrives.
pub(crate) fn arrive(tasks: &mut [TaskJobs], clock: Tick, act: &ShownAct) -> Result<(), NoMemory>
    requires { clock.0 < TICK_END }
    ensures { OnOk result ((t : ℕ) → t < length tasks.old
        → jobs_in tasks.new t ≡ jobs_arrived clock.0 t (act_shown act.now) (jobs_in tasks.old t)) }
{
    match arrived(act.act, act.reply) {
        Some(task) if (task.0 as usize) < tasks.len() => tasks[task.0 as usize].arrive(clock),
        _ => Ok(()),
    }
}

/// The job of a task ends.
pub(crate) fn end(
    alloc: Global,
    tasks: &mut [TaskJobs],
    clock: Tick,
    act: &ShownAct,
) -> Result<(), NoMemory>
    requires { clock.0 < TICK_END }
    ensures { OnOk result ((t : ℕ) → t < length tasks.old
        → jobs_in tasks.new t ≡ jobs_ended clock.0 t (act_shown act.now) (jobs_in tasks.old t)) }
{
    match act.ended {
        Some(task) if (task.0 as usize) < tasks.len() => {
            tasks[task.0 as usize].end(alloc, clock)
        }
        _ => Ok(()),
    }
}
