//! The columns of a task that are over, run by run.
ghost use Rattle.std.specs.Prelude.{◌≡◌, ◌<◌, ◌∷◌, ◌++◌, [], OnOk, length, true};
ghost use Rattle.trace_views.specs.Cells.{TaskCell};
ghost use Rattle.chart_cells.specs.Cells.{cell_shown};
ghost use Rattle.chart_rows.specs.RunCells.{IsOfLast, cells_of_runs, ends_of_runs};

use chart_cells::{Cell, Marks, Run, same_cell};
use rt_base::NoMemory;
use std::alloc::Global;

/// Whether the last run has the cell.
pub(crate) fn is_of_last(runs: &[Run], cell: &Cell) -> bool
    ensures { result ≡ true → IsOfLast (cell_shown cell.now) runs.now }
{
    let count = runs.len();
    count > 0 && same_cell(&runs[count - 1].cell, cell)
}

/// Puts a column behind the others that has the cell of the last run.
pub(crate) fn put_in_last(runs: &mut [Run], marks: Marks) -> Result<(), NoMemory>
    requires { 0 < length runs.old }
    ensures cells { OnOk result ((c : TaskCell) → IsOfLast c runs.old
        → cells_of_runs runs.new ≡ cells_of_runs runs.old ++ c ∷ []) }
    ensures ends { OnOk result (ends_of_runs runs.new ≡ ends_of_runs runs.old ++ marks.end ∷ []) }
{
    let last = runs.len() - 1;
    runs[last].marks.push(marks)?;
    Ok(())
}

/// Puts a column behind the others, with a cell of its own.
pub(crate) fn put_new(
    runs: &mut Vec<Run>,
    alloc: Global,
    cell: Cell,
    marks: Marks,
) -> Result<(), NoMemory>
    ensures cells { OnOk result (cells_of_runs runs.new.items
        ≡ cells_of_runs runs.old.items ++ cell_shown cell ∷ []) }
    ensures ends { OnOk result (ends_of_runs runs.new.items
        ≡ ends_of_runs runs.old.items ++ marks.end ∷ []) }
{
    let mut columns = Vec::new(alloc);
    columns.push(marks)?;
    runs.push(Run {
        cell,
        marks: columns,
    })?;
    Ok(())
}
