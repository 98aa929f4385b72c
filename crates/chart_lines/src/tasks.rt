//! The lines of a task.
ghost use Rattle.std.specs.Prelude.{◌≡◌, ◌∷◌, ◌++◌, [], map, flat_map, IfOk, OnOk, if◌then◌else◌};
ghost use Rattle.chart_texts.specs.TaskLines as spec;
ghost use Rattle.chart_cells.specs.Cells.{cpu_numbers, doing_shown, marks_shown, run_shown, runs_shown, sem_numbers};
ghost use Rattle.chart_cells.specs.Charts.{task_row_shown};

use crate::letters::{number_letter, sem_letter, task_letter};
use crate::rows::{put, put_row, put_two};
use chart_cells::{Doing, Marks, Run, TaskRow};
use rt_base::{CpuNo, NoMemory, SemNo};
use std::alloc::{AllocError, Global};

/// The sign where a mark stands, and else a blank.
fn mark_sign(stands: bool, sign: u8) -> u8
    ensures { result ≡ (if stands then sign else 32) }
{
    if stands { sign } else { b' ' }
}

fn deadline_sign(marks: Marks) -> u8
    ensures { result ≡ spec.deadline_sign (marks_shown marks) }
{
    if marks.missed {
        b'!'
    } else {
        mark_sign(marks.deadline, b'v')
    }
}

fn work_sign(cpus: &[CpuNo]) -> u8
    ensures { result ≡ spec.work_sign (cpu_numbers cpus.now) }
{
    match cpus {
        [] => b' ',
        [cpu, ..] => number_letter(u64::from(cpu.0)),
    }
}

fn doing_sign(doing: &Doing) -> u8
    ensures { result ≡ spec.doing_sign (doing_shown doing.now) }
{
    match doing {
        Doing::Works(cpus) => work_sign(cpus),
        Doing::Running(_) => b'=',
        Doing::Waits(_) => b'w',
        Doing::Blocked(_) => b'W',
        Doing::Sleeping => b'z',
        Doing::Ready => b'.',
        Doing::Away => b' ',
    }
}

fn held_sign(held: &[SemNo]) -> u8
    ensures { result ≡ spec.held_sign (sem_numbers held.now) }
{
    match held {
        [] => b' ',
        [sem] => sem_letter(u64::from(sem.0)),
        _ => b'+',
    }
}

/// The signs over the columns of a run.
#[tactic(auto, using(std::proofs::Common::append_assoc))]
fn put_mark_signs(signs: &mut Vec<u8>, run: &Run) -> Result<(), AllocError>
    ensures { OnOk result (signs.new.items
        ≡ signs.old.items ++ flat_map spec.mark_signs (run_shown run.now)) }
{
    for marks in &run.marks {
        put_two(signs, mark_sign(marks.release, b'^'), deadline_sign(*marks))?;
    }
    Ok(())
}

fn mark_signs(alloc: Global, runs: &[Run]) -> Result<Vec<u8>, AllocError>
    ensures { IfOk result (λ v. v.items ≡ flat_map spec.mark_signs (runs_shown runs.now)) }
{
    let mut signs = Vec::new(alloc);
    for run in runs {
        put_mark_signs(&mut signs, run)?;
    }
    Ok(signs)
}

/// The signs of a run's cell, and at the end of a column the end of a job.
#[tactic(auto, using(std::proofs::Common::append_assoc))]
fn put_cell_signs(signs: &mut Vec<u8>, run: &Run) -> Result<(), AllocError>
    ensures { OnOk result (signs.new.items
        ≡ signs.old.items ++ flat_map spec.cell_signs (run_shown run.now)) }
{
    let doing = doing_sign(&run.cell.doing);
    for marks in &run.marks {
        put_two(signs, doing, mark_sign(marks.end, b'|'))?;
    }
    Ok(())
}

fn cell_signs(alloc: Global, runs: &[Run]) -> Result<Vec<u8>, AllocError>
    ensures { IfOk result (λ v. v.items ≡ flat_map spec.cell_signs (runs_shown runs.now)) }
{
    let mut signs = Vec::new(alloc);
    for run in runs {
        put_cell_signs(&mut signs, run)?;
    }
    Ok(signs)
}

/// What is held in each column of a run.
#[tactic(auto, using(std::proofs::Common::append_assoc))]
fn put_held_signs(signs: &mut Vec<u8>, run: &Run) -> Result<(), AllocError>
    ensures { OnOk result (signs.new.items
        ≡ signs.old.items ++ flat_map spec.held_signs (run_shown run.now)) }
{
    let held = held_sign(&run.cell.held);
    for _ in 0..run.marks.len() {
        put_two(signs, held, b' ')?;
    }
    Ok(())
}

fn held_signs(alloc: Global, runs: &[Run]) -> Result<Vec<u8>, AllocError>
    ensures { IfOk result (λ v. v.items ≡ flat_map spec.held_signs (runs_shown runs.now)) }
{
    let mut signs = Vec::new(alloc);
    for run in runs {
        put_held_signs(&mut signs, run)?;
    }
    Ok(signs)
}

fn task_label(alloc: Global, name: &[u8], task: u64) -> Result<Vec<u8>, AllocError>
    ensures { IfOk result (λ v. v.items ≡ spec.task_label name.now task) }
{
    let mut label = Vec::new(alloc);
    put_two(&mut label, task_letter(task), b' ')?;
    put(&mut label, name)?;
    Ok(label)
}

/// The lines of a task with this name.
#[tactic(auto, using(std::proofs::Common::append_assoc), unfolding(chart_texts::specs::TaskLines::task_lines))]
pub fn put_task(
    alloc: Global,
    out: &mut Vec<u8>,
    name: &[u8],
    declares: bool,
    width: usize,
    row: &TaskRow,
) -> Result<(), NoMemory>
    ensures { OnOk result (out.new.items
        ≡ out.old.items ++ spec.task_lines name.now declares width (task_row_shown row.now)) }
{
    put_row(alloc, out, width, b"", &mark_signs(alloc, &row.runs)?)?;
    let label = task_label(alloc, name, u64::from(row.task.0))?;
    put_row(alloc, out, width, &label, &cell_signs(alloc, &row.runs)?)?;
    if declares {
        put_row(
            alloc,
            out,
            width,
            b"  holds",
            &held_signs(alloc, &row.runs)?,
        )?;
    }
    Ok(())
}
