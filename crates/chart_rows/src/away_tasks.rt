//! The tasks whose job is not there yet, from one state to the next.
ghost use Rattle.std.specs.Prelude.{◌≡◌, IfOk, nat_lt, replicate, slice_index_or, slice_set, true};
ghost use Rattle.rt_base.specs.TaskNos.{number_of_task};
ghost use Rattle.rt_rules.specs.Numbers.{has};
ghost use Rattle.rt_model.specs.Group as groups;
ghost use Rattle.rt_model.specs.Past.{Past};
ghost use Rattle.rank_afresh.specs.Standing.{IsAt, group_of};
ghost use Rattle.trace_views.specs.Cells as views;
ghost use Rattle.view_acts.specs.ShownActs.{act_shown};
ghost use Rattle.chart_rows.specs.AwayTasks.{AreAway, IsNotBefore, ticks_untouched, without_tick};
ghost use Rattle.chart_rows.specs.Looks.{state_doing};

use crate::acting::arriving;
use rank_afresh::Afresh;
use rt_base::{NoMemory, TaskNo, Tick};
use std::alloc::Global;
use std::marker::Model;
use view_acts::ShownAct;

/// By a task's number a tick before which its job is known not to be there, unless an act touches the task: that of its release. 0
/// where none is known.
#[derive(Drop)]
pub struct AwayTasks {
    ticks: Vec<u64>,
}

impl Model for AwayTasks {
    ghost use Rattle.std.specs.Prelude.{ℕ, List};

    ghost Value = { List ℕ };

    ghost view = { λ a. a.ticks.items };
}

/// A release, where there is one, is not before this tick.
fn not_before(release: Option<u64>) -> u64
    ensures { IsNotBefore result release }
{
    match release {
        Some(tick) => tick,
        None => u64::MAX,
    }
}

impl AwayTasks {
    /// Of no task so much is known. There is room for so many tasks.
    pub fn new(alloc: Global, tasks: usize) -> Result<AwayTasks, NoMemory>
        ensures { IfOk result (λ v. v ≡ replicate tasks 0) }
    {
        let ticks = vec![in alloc; 0; tasks]?;
        Ok(AwayTasks { ticks })
    }

    /// Whether the job of a task is known not to be there at the clock.
    #[inline(always)]
    pub fn has(&self, task: TaskNo, clock: Tick) -> bool
        ensures { result ≡ nat_lt clock.0 (slice_index_or self.now task.0 0) }
    {
        match self.ticks.get(task.0 as usize) {
            Some(tick) => clock.0 < *tick,
            None => false,
        }
    }

    fn set(&mut self, task: TaskNo, tick: u64)
        ensures { self.new ≡ slice_set self.old task.0 tick }
    {
        if let Some(at) = self.ticks.get_mut(task.0 as usize) {
            *at = tick;
        }
    }

    /// Writes down a task whose job is not there in this state.
    pub fn learn(&mut self, afresh: &Afresh, task: TaskNo)
        requires { has task.0 (groups.tasks (group_of afresh.now)) ≡ true }
        ensures { (past : Past) → IsAt afresh.now past
            → state_doing (group_of afresh.now) task.0 past ≡ views.away
            → AreAway (group_of afresh.now) past self.old
            → AreAway (group_of afresh.now) past self.new }
    {
        let tick = not_before(afresh.release(task));
        self.set(task, tick);
    }

    fn drop_any(&mut self, task: Option<TaskNo>)
        ensures { self.new ≡ without_tick (number_of_task task) self.old }
    {
        if let Some(task) = task {
            self.set(task, 0);
        }
    }

    /// Drops what is known of the tasks that an act touches.
    pub fn take_act(&mut self, act: &ShownAct)
        ensures { self.new ≡ ticks_untouched (act_shown act.now) self.old }
    {
        self.drop_any(act.task);
        self.drop_any(arriving(act.act));
    }
}
