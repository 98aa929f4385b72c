//! The row of a task while columns go on.
ghost use Rattle.std.specs.Prelude.{◌≡◌, ◌||◌, [], OnOk, false};
ghost use Rattle.rt_model.specs.Group.{Group};
ghost use Rattle.trace_views.specs.Cells.{cell_away};
ghost use Rattle.chart_cells.specs.Cells.{cell_shown, cpu_numbers};
ghost use Rattle.chart_cells.specs.Kept.{finished, with_unit};
ghost use Rattle.chart_rows.specs.Rows.{task_cleared, task_put};

use crate::runs::{is_of_last, put_in_last, put_new};
use chart_cells::{Cell, Doing, Marks, Run};
use rt_base::{CpuNo, NoMemory, TaskNo};
use std::alloc::Global;
use std::marker::Model;
use std::mem;

/// A task: its cells in the columns that are over, with whether a job of it ended there, run by run, and the same so far of the
/// column that goes on.
#[derive(Drop)]
pub struct TaskFeed {
    pub task: TaskNo,
    pub closed: Vec<Run>,
    pub kept: Cell,
    pub end: bool,
}

impl Model for TaskFeed {
    ghost use Rattle.chart_cells.specs.Cells.{cell_shown};
    ghost use Rattle.chart_rows.specs.Rows.{TaskKept};
    ghost use Rattle.chart_rows.specs.RunCells.{cells_of_runs, ends_of_runs};

    ghost Value = { TaskKept };

    ghost view = { λ a. record {
      task = a.task.0;
      cells = cells_of_runs a.closed.items;
      ends = ends_of_runs a.closed.items;
      kept = cell_shown a.kept;
      end = a.end;
    } };
}

impl TaskFeed {
    /// Before the first column.
    pub(crate) fn new(alloc: Global, task: TaskNo) -> TaskFeed
        ensures { (g : Group) → result ≡ record {
          task = task.0;
          cells = [];
          ends = [];
          kept = cell_away g;
          end = false;
        } }
    {
        TaskFeed {
            task,
            closed: Vec::new(alloc),
            kept: Cell::away(alloc),
            end: false,
        }
    }

    /// The number of the task.
    pub(crate) fn task(&self) -> TaskNo
        ensures { result.0 ≡ self.now.task }
    {
        self.task
    }

    /// Takes a unit that the task did on a processor, with what the state before it shows.
    pub(crate) fn work(&mut self, alloc: Global, cpu: CpuNo, before: Cell) -> Result<(), NoMemory>
        ensures { OnOk result (self.new
            ≡ record self.old { kept = with_unit cpu.0 (cell_shown before) self.old.kept }) }
    {
        self.kept.work(alloc, cpu, before)
    }

    /// Takes an act, which ended a job of the task or not.
    pub(crate) fn end(&mut self, ended: bool)
        ensures { self.new ≡ record self.old { end = ended || self.old.end } }
    {
        self.end = ended || self.end;
    }

    /// Ends the column, in which these processors, by number, run the task and do no unit.
    pub(crate) fn finish(&mut self, running: Vec<CpuNo>)
        ensures { self.new
            ≡ record self.old { kept = finished (cpu_numbers running.items) self.old.kept } }
    {
        self.kept.finish(running);
    }

    /// Begins the next column in place: what was kept of this one is dropped.
    pub fn clear(&mut self)
        ensures { (g : Group) → self.new ≡ task_cleared g self.old }
    {
        self.kept.doing = Doing::Away;
        self.kept.job = 0;
        self.kept.held.clear();
        self.kept.non_preemptive = false;
        self.kept.raised = false;
        self.end = false;
    }

    /// Begins the next column, and gives the cell that was kept of this one.
    pub fn take(&mut self, alloc: Global) -> Cell
        ensures cell { cell_shown result ≡ self.old.kept }
        ensures row { (g : Group) → self.new ≡ task_cleared g self.old }
    {
        self.end = false;
        mem::replace(&mut self.kept, Cell::away(alloc))
    }

    /// Begins the next column, and puts what was kept of this one behind those that are over. Where it is the same as in the last
    /// of these, as mostly, it is kept once.
    pub(crate) fn close(&mut self, alloc: Global) -> Result<(), NoMemory>
        ensures { OnOk result ((g : Group) → self.new ≡ task_put g self.old) }
    {
        let marks = Marks {
            release: false,
            deadline: false,
            missed: false,
            end: self.end,
        };
        if is_of_last(self.closed.as_slice(), &self.kept) {
            put_in_last(self.closed.as_mut_slice(), marks)?;
            self.clear();
            return Ok(());
        }
        let cell = self.take(alloc);
        put_new(&mut self.closed, alloc, cell, marks)?;
        Ok(())
    }
}
