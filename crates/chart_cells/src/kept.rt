//! A task's cell while its column goes on.
ghost use Rattle.std.specs.Prelude.{◌≡◌, [], ◌∷◌, nat_lt, OnOk};
ghost use Rattle.rt_model.specs.Group.{Group};
ghost use Rattle.trace_views.specs.Cells as views;
ghost use Rattle.chart_cells.specs.Cells.{cell_shown, cpu_numbers, doing_shown};
ghost use Rattle.chart_cells.specs.Kept.{finished, rank, with_unit};

use crate::cells::{Cell, Doing};
use rt_base::{CpuNo, NoMemory};
use std::alloc::Global;

/// Of what is so in a column the greatest is shown.
fn rank_of(doing: &Doing) -> u32
    ensures { result ≡ rank (doing_shown doing.now) }
{
    match doing {
        Doing::Works(_) => 4,
        Doing::Blocked(_) | Doing::Waits(_) => 3,
        Doing::Sleeping => 2,
        Doing::Running(_) | Doing::Ready => 1,
        Doing::Away => 0,
    }
}

impl Cell {
    /// A task whose job is not there.
    pub fn away(alloc: Global) -> Cell
        ensures { (g : Group) → cell_shown result ≡ views.cell_away g }
    {
        Cell {
            doing: Doing::Away,
            job: 0,
            held: Vec::new(alloc),
            non_preemptive: false,
            raised: false,
        }
    }

    /// Whether a state of the column in which the task does this shows more than what was so before.
    pub fn gives_way_to(&self, doing: &Doing) -> bool
        ensures { result
            ≡ nat_lt (rank (cell_shown self.now).doing) (rank (doing_shown doing.now)) }
    {
        rank_of(&self.doing) < rank_of(doing)
    }

    /// Takes a unit that the task did on a processor, with what the state before it shows.
    pub fn work(&mut self, alloc: Global, cpu: CpuNo, before: Cell) -> Result<(), NoMemory>
        ensures { OnOk result (cell_shown self.new
            ≡ with_unit cpu.0 (cell_shown before) (cell_shown self.old)) }
    {
        if let Doing::Works(cpus) = &mut self.doing {
            cpus.push(cpu)?;
            return Ok(());
        }
        let mut cpus = Vec::new(alloc);
        cpus.push(cpu)?;
        *self = Cell {
            doing: Doing::Works(cpus),
            ..before
        };
        Ok(())
    }

    /// Ends the column, in which these processors, by number, run the task and do no unit.
    pub fn finish(&mut self, running: Vec<CpuNo>)
        ensures { cell_shown self.new ≡ finished (cpu_numbers running.items) (cell_shown self.old) }
    {
        if !running.is_empty() && matches!(self.doing, Doing::Ready) {
            self.doing = Doing::Running(running);
        }
    }
}
