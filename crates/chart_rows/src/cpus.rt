//! The row of a processor while columns go on.
ghost use Rattle.std.specs.Prelude.{◌≡◌, [], ◌∷◌, ◌++◌, None, OnOk, unwrap_or};
ghost use Rattle.chart_cells.specs.Cells.{cpu_cell_shown};
ghost use Rattle.chart_cells.specs.KeptFirstLaws.{unless_kept};

use chart_cells::CpuCell;
use rt_base::{CpuNo, NoMemory};
use std::alloc::Global;
use std::marker::Model;

/// A processor: its cells in the columns that are over, and that of its first unit in the column that goes on, if it did one.
#[derive(Drop)]
pub struct CpuFeed {
    pub cpu: CpuNo,
    pub closed: Vec<CpuCell>,
    pub kept: Option<CpuCell>,
}

impl Model for CpuFeed {
    ghost use Rattle.std.specs.Prelude.{map, option_map};
    ghost use Rattle.chart_cells.specs.Cells.{cpu_cell_shown};
    ghost use Rattle.chart_rows.specs.Rows.{CpuKept};

    ghost Value = { CpuKept };

    ghost view = { λ a. record {
      cpu = a.cpu.0;
      cells = map cpu_cell_shown a.closed.items;
      kept = option_map cpu_cell_shown a.kept;
    } };
}

impl CpuFeed {
    /// Before the first column.
    pub(crate) fn new(alloc: Global, cpu: CpuNo) -> CpuFeed
        ensures { result ≡ record { cpu = cpu.0; cells = []; kept = None } }
    {
        CpuFeed {
            cpu,
            closed: Vec::new(alloc),
            kept: None,
        }
    }

    /// The number of the processor.
    pub(crate) fn cpu(&self) -> CpuNo
        ensures { result.0 ≡ self.now.cpu }
    {
        self.cpu
    }

    /// Takes a unit of the processor, which is shown so.
    pub(crate) fn work(&mut self, cell: CpuCell)
        ensures { self.new
            ≡ record self.old { kept = unless_kept self.old.kept (cpu_cell_shown cell) } }
    {
        if self.kept.is_none() {
            self.kept = Some(cell);
        }
    }

    /// What the processor does in the column, where this is so as it ends.
    pub(crate) fn ends(&self, cell: CpuCell) -> CpuCell
        ensures { cpu_cell_shown result ≡ unwrap_or self.now.kept (cpu_cell_shown cell) }
    {
        match self.kept {
            Some(first) => first,
            None => cell,
        }
    }

    /// Ends the column, where this is so.
    pub(crate) fn close(&mut self, cell: CpuCell) -> Result<(), NoMemory>
        ensures { OnOk result (self.new ≡ record {
          cpu = self.old.cpu;
          cells = self.old.cells ++ unwrap_or self.old.kept (cpu_cell_shown cell) ∷ [];
          kept = None;
        }) }
    {
        let ends = self.ends(cell);
        self.kept = None;
        self.closed.push(ends)?;
        Ok(())
    }
}
