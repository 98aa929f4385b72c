//! The clocks at which jobs of tasks arrive and end.
ghost use Rattle.std.specs.Prelude.{◌≡◌, ◌∷◌, ◌<◌, ℕ, [], IfOk, OnOk, length, true, vec_len};
ghost use Rattle.rt_base.specs.TaskNos.{number_of_task};
ghost use Rattle.rt_rules.specs.Numbers.{is};
ghost use Rattle.rt_model.specs.Past.{Acted, Past, now};
ghost use Rattle.view_acts.specs.ShownActs.{act_shown};
ghost use Rattle.chart_feed.specs.Clocks as kept;
ghost use Rattle.chart_feed.specs.Clocks.{Keeps, clocks_at};

use chart_rows::is_accepted;
use rt_base::{NoMemory, TaskNo};
use rt_rules::Reply;
use rt_task::Act;
use std::alloc::Global;
use std::marker::Model;
use view_acts::ShownAct;

/// The arrivals of a task, and the ends of its jobs.
#[derive(Drop)]
pub(crate) struct TaskClocks {
    pub(crate) arrivals: Vec<u64>,
    pub(crate) ends: Vec<u64>,
}

impl Model for TaskClocks {
    ghost use Rattle.chart_feed.specs.Clocks.{ClocksKept};

    ghost Value = { ClocksKept };

    ghost view = { λ a. record { arrivals = a.arrivals.items; ends = a.ends.items } };
}

impl TaskClocks {
    fn new(alloc: Global) -> TaskClocks
        ensures { result ≡ kept.no_clocks }
    {
        TaskClocks {
            arrivals: Vec::new(alloc),
            ends: Vec::new(alloc),
        }
    }

    fn arrive(&mut self, clock: u64) -> Result<(), NoMemory>
        ensures { OnOk result (self.new ≡ kept.arrived true clock self.old) }
    {
        self.arrivals.push(clock)?;
        Ok(())
    }

    fn end(&mut self, clock: u64) -> Result<(), NoMemory>
        ensures { OnOk result (self.new ≡ kept.ended true clock self.old) }
    {
        self.ends.push(clock)?;
        Ok(())
    }
}

/// The task of which a job arrives.
fn arrived(act: Act, reply: Reply) -> Option<TaskNo>
    ensures { number_of_task result ≡ kept.arrived_task act reply }
{
    match act {
        Act::Arrive(task) if is_accepted(reply) => Some(task),
        _ => None,
    }
}

fn arrive(tasks: &mut [TaskClocks], clock: u64, task: Option<TaskNo>) -> Result<(), NoMemory>
    ensures { OnOk result ((t : ℕ) → t < length tasks.old → clocks_at tasks.new t
        ≡ kept.arrived (is t (number_of_task task)) clock (clocks_at tasks.old t)) }
{
    match task {
        Some(task) if (task.0 as usize) < tasks.len() => tasks[task.0 as usize].arrive(clock),
        _ => Ok(()),
    }
}

fn end(tasks: &mut [TaskClocks], clock: u64, task: Option<TaskNo>) -> Result<(), NoMemory>
    ensures { OnOk result ((t : ℕ) → t < length tasks.old → clocks_at tasks.new t
        ≡ kept.ended (is t (number_of_task task)) clock (clocks_at tasks.old t)) }
{
    match task {
        Some(task) if (task.0 as usize) < tasks.len() => tasks[task.0 as usize].end(clock),
        _ => Ok(()),
    }
}

/// The clocks of so many tasks before the first move; those of task 0, which there is not, stand first.
pub(crate) fn no_clocks(alloc: Global, count: u32) -> Result<Vec<TaskClocks>, NoMemory>
    ensures count { IfOk result (λ v. vec_len v ≡ count) }
    ensures opened { IfOk result (λ v. Keeps v.items []) }
{
    let mut tasks = Vec::new(alloc);
    for _ in 0..count {
        tasks.push(TaskClocks::new(alloc))?;
    }
    Ok(tasks)
}

/// Takes an act of the group, at the clock.
pub(crate) fn note_act(tasks: &mut [TaskClocks], clock: u64, act: &ShownAct) -> Result<(), NoMemory>
    ensures { OnOk result ((past : Past) → Keeps tasks.old past → clock ≡ now past
        → Keeps tasks.new (Acted (act_shown act.now) ∷ past)) }
{
    arrive(tasks, clock, arrived(act.act, act.reply))?;
    end(tasks, clock, act.ended)
}
