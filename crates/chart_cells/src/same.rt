//! Whether two cells of tasks are the same.
ghost use Rattle.std.specs.Prelude.{◌≡◌, ◌==◌};
ghost use Rattle.chart_cells.specs.Cells.{cell_shown, cpu_numbers, doing_shown, sem_numbers};
ghost use Rattle.event_texts.specs.TaskSpans as task_texts;
ghost use Rattle.event_texts.specs.TaskSpans.{same_numbers, same_truth};

use crate::cells::{Cell, Doing};
use rt_base::{CpuNo, SemNo};

fn same_cpus(a: &[CpuNo], b: &[CpuNo]) -> bool
    ensures { result ≡ same_numbers (cpu_numbers a.now) (cpu_numbers b.now) }
{
    if a.len() != b.len() {
        return false;
    }
    for (i, cpu) in a.iter().enumerate() {
        if *cpu != b[i] {
            return false;
        }
    }
    true
}

fn same_sems(a: &[SemNo], b: &[SemNo]) -> bool
    ensures { result ≡ same_numbers (sem_numbers a.now) (sem_numbers b.now) }
{
    if a.len() != b.len() {
        return false;
    }
    for (i, sem) in a.iter().enumerate() {
        if *sem != b[i] {
            return false;
        }
    }
    true
}

fn does_same(a: &Doing, b: &Doing) -> bool
    ensures { result ≡ task_texts.same_doing (doing_shown a.now) (doing_shown b.now) }
{
    match (a, b) {
        (Doing::Works(a), Doing::Works(b)) => same_cpus(a.as_slice(), b.as_slice()),
        (Doing::Blocked(a), Doing::Blocked(b)) => a == b,
        (Doing::Waits(a), Doing::Waits(b)) => a == b,
        (Doing::Running(a), Doing::Running(b)) => same_cpus(a.as_slice(), b.as_slice()),
        (Doing::Sleeping, Doing::Sleeping) => true,
        (Doing::Ready, Doing::Ready) => true,
        (Doing::Away, Doing::Away) => true,
        _ => false,
    }
}

/// Whether a task is and does the same.
pub fn same_cell(a: &Cell, b: &Cell) -> bool
    ensures { result ≡ task_texts.same_cell (cell_shown a.now) (cell_shown b.now) }
{
    does_same(&a.doing, &b.doing)
        && a.job == b.job
        && same_sems(a.held.as_slice(), b.held.as_slice())
        && a.non_preemptive == b.non_preemptive
        && a.raised == b.raised
}
