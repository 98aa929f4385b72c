//! Whether two cells of processors are the same.
ghost use Rattle.std.specs.Prelude.{◌≡◌, ◌==◌};
ghost use Rattle.rt_base.specs.TaskNos.{number_of_task};
ghost use Rattle.chart_cells.specs.Cells.{cpu_cell_shown, playing_shown};
ghost use Rattle.event_texts.specs.CpuSpans as cpu_texts;

use chart_cells::{CpuCell, Playing};
use rt_base::TaskNo;

fn plays_same(a: Playing, b: Playing) -> bool
    ensures { result ≡ cpu_texts.same_playing (playing_shown a) (playing_shown b) }
{
    match (a, b) {
        (Playing::WorksFor(a), Playing::WorksFor(b)) => a == b,
        (Playing::RunsTask(a), Playing::RunsTask(b)) => a == b,
        (Playing::Idle, Playing::Idle) => true,
        _ => false,
    }
}

fn same_link(a: Option<TaskNo>, b: Option<TaskNo>) -> bool
    ensures { result ≡ cpu_texts.same_link (number_of_task a) (number_of_task b) }
{
    match (a, b) {
        (None, None) => true,
        (Some(a), Some(b)) => a == b,
        _ => false,
    }
}

/// Whether a processor does the same and has the same link.
pub(crate) fn same_cpu_cell(a: CpuCell, b: CpuCell) -> bool
    ensures { result ≡ cpu_texts.same_cell (cpu_cell_shown a) (cpu_cell_shown b) }
{
    plays_same(a.playing, b.playing) && same_link(a.link, b.link)
}
