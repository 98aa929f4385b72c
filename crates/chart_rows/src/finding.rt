//! The row of a task, and that of a processor, among those of all.
ghost use Rattle.std.specs.Prelude.{◌≡◌, ◌≢◌, ◌<◌, ⊤, MatchOption, false, length, slice_index_or, true};
ghost use Rattle.rt_base.specs.TaskNos.{number_of_task};
ghost use Rattle.chart_rows.specs.Positions.{IsPositionOf};
ghost use Rattle.chart_rows.specs.Rows.{CpuKept};

use crate::cpus::CpuFeed;
use crate::tasks::TaskFeed;
use rt_base::{CpuNo, TaskNo};

fn search(rows: &[TaskFeed], task: TaskNo) -> Option<usize>
    ensures { IsPositionOf task.0 rows.now result }
{
    for i in 0..rows.len() {
        if rows[i].task() == task {
            return Some(i);
        }
    }
    None
}

/// The position of the task's row. Where a group has all tasks of its set, they stand by number, and it is found at once.
pub fn position_of(rows: &[TaskFeed], task: TaskNo) -> Option<usize>
    ensures { IsPositionOf task.0 rows.now result }
{
    let by_number = task.0.saturating_sub(1) as usize;
    if by_number < rows.len() && rows[by_number].task() == task {
        Some(by_number)
    } else {
        search(rows, task)
    }
}

/// The place of the processor's row, where it stands as its number says: the processors of a group mostly follow each other.
pub fn place_of(cpus: &[CpuFeed], cpu: CpuNo) -> Option<usize>
    ensures { MatchOption result ⊤ (λ i. (i < length cpus.now)
        × ((d : CpuKept) → (slice_index_or cpus.now i d).cpu ≡ cpu.0)) }
{
    let first = cpus.first()?.cpu();
    let place = cpu.0.saturating_sub(first.0) as usize;
    if place < cpus.len() && cpus[place].cpu() == cpu {
        Some(place)
    } else {
        None
    }
}

/// Whether both are one task, or none.
pub(crate) fn are_same(one: Option<TaskNo>, other: Option<TaskNo>) -> bool
    ensures same { result ≡ true → number_of_task one ≡ number_of_task other }
    ensures apart { result ≡ false → number_of_task one ≢ number_of_task other }
{
    match (one, other) {
        (Some(one), Some(other)) => one == other,
        (None, None) => true,
        _ => false,
    }
}
