//! What a chart shows, as data: of each group what its tasks, processors and reservations do in the columns of a window.
#![tactic(auto)]

ghost use Rattle.chart_cells.specs.KeptFirstLaws.{FirstUnitsAreKept};
ghost use Rattle.chart_cells.specs.KeptLaws.{KeptCellsFollow};

mod cells;
mod chart;
mod kept;
mod same;

pub use cells::{Cell, CpuCell, Doing, Marks, Playing, Run};
pub use chart::{Chart, CpuRow, Panel, ResvRow, TaskRow};
pub use same::same_cell;

/// A cell that is kept of a column changes by each state and each unit of the column alone, and finished it is the task's cell.
pub fn kept_cells_follow()
    ensures { KeptCellsFollow }
{}

/// What is kept of a processor and of a reservation changes by the first unit of the column alone, and with the state in which
/// the column ends it gives their cells.
pub fn first_units_are_kept()
    ensures { FirstUnitsAreKept }
{}
