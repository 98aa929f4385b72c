//! What an act makes of the times of all tasks.
ghost use Rattle.std.specs.Prelude.{◌≡◌, ◌<◌, ℕ, OnOk, length};
ghost use Rattle.rt_base.specs.declared.TheConstants.{TICK_END};
ghost use Rattle.rt_rules.specs.Numbers.{is};
ghost use Rattle.job_facts.specs.Deeds.{arrived_task};
ghost use Rattle.view_acts.specs.ShownActs.{act_shown};
ghost use Rattle.job_marks.specs.JobTimes.{times_in};
ghost use Rattle.job_marks.specs.Times.{arrived_if, ended_if};

use crate::arrived::arrived;
use crate::task_times::TaskTimes;
use rt_base::{NoMemory, Tick};
use view_acts::ShownAct;

/// A job of a task arrives. The tasks are listed by number, from 0.
pub(crate) fn arrive(tasks: &mut [TaskTimes], clock: Tick, act: &ShownAct) -> Result<(), NoMemory>
    requires { clock.0 < TICK_END }
    ensures { let d = act_shown act.now in OnOk result ((t : ℕ) → t < length tasks.old
        → times_in tasks.new t
        ≡ arrived_if (is t (arrived_task d.act d.reply)) clock.0 (times_in tasks.old t)) }
{
    match arrived(act.act, act.reply) {
        Some(task) if (task.0 as usize) < tasks.len() => tasks[task.0 as usize].arrive(clock),
        _ => Ok(()),
    }
}

/// The job of a task ends.
pub(crate) fn end(tasks: &mut [TaskTimes], clock: Tick, act: &ShownAct) -> Result<(), NoMemory>
    ensures { let d = act_shown act.now in OnOk result ((t : ℕ) → t < length tasks.old
        → times_in tasks.new t ≡ ended_if (is t d.ended) clock.0 (times_in tasks.old t)) }
{
    match act.ended {
        Some(task) if (task.0 as usize) < tasks.len() => tasks[task.0 as usize].end(clock),
        _ => Ok(()),
    }
}
