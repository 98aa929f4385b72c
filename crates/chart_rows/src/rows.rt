//! The rows of a group while columns go on.
ghost use Rattle.std.specs.Prelude.{◌≡◌, [], ◌∷◌, IfOk, OnOk};
ghost use Rattle.rt_base.specs.TaskNos.{numbers};
ghost use Rattle.rt_model.specs.Group as groups;
ghost use Rattle.rt_model.specs.Group.{Group};
ghost use Rattle.rt_model.specs.Past.{Acted, Past};
ghost use Rattle.rank_afresh.specs.Standing.{IsAt, group_of};
ghost use Rattle.trace_views.specs.Moments.{Moment};
ghost use Rattle.chart_cells.specs.Cells.{cpu_numbers};
ghost use Rattle.chart_texts.specs.Charts.{group_resvs};
ghost use Rattle.view_acts.specs.ShownActs.{act_shown};
ghost use Rattle.chart_rows.specs.Listed.{AreListed};
ghost use Rattle.chart_rows.specs.Rows.{rows_acted, rows_closed, rows_finished, rows_of, rows_seen};
ghost use Rattle.chart_rows.specs.Strips.{blank};
ghost use Rattle.chart_rows.specs.Units.{IsTold, resv_numbers};
ghost use Rattle.chart_rows.specs.UpTo.{AreUpTo};

use crate::cpus::CpuFeed;
use crate::loops::{act_cpus, act_resvs, act_tasks, close_tasks, finish_tasks};
use crate::opening::{cpu_rows, resv_rows, task_rows};
use crate::resvs::ResvFeed;
use crate::seeing::{
    close_cpus, close_resvs, finish_cpus, finish_resvs, plays, see_tasks, see_tasks_after,
};
use crate::tasks::TaskFeed;
use crate::units::Unit;
use rank_afresh::Afresh;
use rt_base::{CpuNo, NoMemory, ResvNo, TaskNo};
use std::alloc::Global;
use std::marker::Model;
use view_acts::ShownAct;

/// The rows of a group's tasks, processors and reservations.
#[derive(Drop)]
pub struct Rows {
    pub tasks: Vec<TaskFeed>,
    pub cpus: Vec<CpuFeed>,
    pub resvs: Vec<ResvFeed>,
}

impl Model for Rows {
    ghost use Rattle.chart_rows.specs.Rows.{RowsKept};

    ghost Value = { RowsKept };

    ghost view = { λ a. record {
      tasks = a.tasks.items;
      cpus = a.cpus.items;
      resvs = a.resvs.items;
    } };
}

impl Rows {
    /// Before the first column, of a group with these tasks, processors and reservations.
    pub fn open(
        alloc: Global,
        tasks: &[TaskNo],
        cpus: &[CpuNo],
        resvs: &[ResvNo],
    ) -> Result<Rows, NoMemory>
        ensures { IfOk result (λ v. (g : Group) → numbers tasks.now ≡ groups.tasks g
            → cpu_numbers cpus.now ≡ groups.group_processors g
            → resv_numbers resvs.now ≡ group_resvs g → v ≡ rows_of g [] blank) }
    {
        let tasks = task_rows(alloc, tasks)?;
        let cpus = cpu_rows(alloc, cpus)?;
        let resvs = resv_rows(alloc, resvs)?;
        Ok(Rows { tasks, cpus, resvs })
    }

    /// Takes a state of the column.
    pub fn see(&mut self, alloc: Global, afresh: &Afresh) -> Result<(), NoMemory>
        requires listed { AreListed (group_of afresh.now) self.old }
        requires at { (past : Past) × IsAt afresh.now past }
        ensures { OnOk result ((past : Past) → IsAt afresh.now past
            → self.new ≡ rows_seen (group_of afresh.now) past self.old) }
    {
        see_tasks(self.tasks.as_mut_slice(), alloc, afresh)?;
        Ok(())
    }

    /// Takes an act of the column, with its unit, if it is one, whose cell it takes too.
    pub fn act(
        &mut self,
        alloc: Global,
        act: &ShownAct,
        unit: &mut Option<Unit>,
    ) -> Result<(), NoMemory>
        ensures { OnOk result ((g : Group) (m : Moment) → AreListed g self.old
            → act_shown act.now ≡ m.act → IsTold g m unit.old
            → self.new ≡ rows_acted g m self.old) }
    {
        act_cpus(self.cpus.as_mut_slice(), act.cpu, unit);
        act_resvs(self.resvs.as_mut_slice(), unit);
        act_tasks(self.tasks.as_mut_slice(), alloc, act, unit)
    }

    /// Takes the state after an act of the column, once the state before the act was taken: only the tasks are looked at that the act
    /// touches.
    pub fn see_after(
        &mut self,
        alloc: Global,
        afresh: &Afresh,
        act: &ShownAct,
    ) -> Result<(), NoMemory>
        requires listed { AreListed (group_of afresh.now) self.old }
        requires at { (past : Past) × IsAt afresh.now (Acted (act_shown act.now) ∷ past)
            × AreUpTo (group_of afresh.now) past self.old }
        ensures { OnOk result ((past : Past) → IsAt afresh.now (Acted (act_shown act.now) ∷ past)
            → AreUpTo (group_of afresh.now) past self.old → self.new
            ≡ rows_seen (group_of afresh.now) (Acted (act_shown act.now) ∷ past) self.old) }
    {
        see_tasks_after(self.tasks.as_mut_slice(), alloc, afresh, act)?;
        Ok(())
    }

    /// Ends the column, in this state, for what is kept of it: no other column is begun yet.
    pub fn finish(&mut self, alloc: Global, afresh: &Afresh) -> Result<(), NoMemory>
        requires listed { AreListed (group_of afresh.now) self.old }
        requires at { (past : Past) × IsAt afresh.now past }
        ensures { OnOk result ((past : Past) → IsAt afresh.now past
            → self.new ≡ rows_finished (group_of afresh.now) past self.old) }
    {
        let plays = plays(alloc, self.cpus.as_slice(), afresh)?;
        finish_tasks(self.tasks.as_mut_slice(), alloc, plays.as_slice())?;
        finish_cpus(self.cpus.as_mut_slice(), afresh);
        finish_resvs(self.resvs.as_mut_slice(), afresh);
        Ok(())
    }

    /// Ends the column, in this state, and begins the next one.
    pub fn close(&mut self, alloc: Global, afresh: &Afresh) -> Result<(), NoMemory>
        requires listed { AreListed (group_of afresh.now) self.old }
        requires at { (past : Past) × IsAt afresh.now past }
        ensures { OnOk result ((past : Past) → IsAt afresh.now past
            → self.new ≡ rows_closed (group_of afresh.now) past self.old) }
    {
        let plays = plays(alloc, self.cpus.as_slice(), afresh)?;
        close_tasks(self.tasks.as_mut_slice(), alloc, plays.as_slice())?;
        close_cpus(self.cpus.as_mut_slice(), afresh)?;
        close_resvs(self.resvs.as_mut_slice(), afresh)?;
        Ok(())
    }
}
