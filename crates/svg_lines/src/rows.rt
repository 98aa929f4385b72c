//! The rows of tasks, processors and reservations.
ghost use Rattle.std.specs.Prelude.{◌≡◌, ◌+◌, ◌*◌, ◌<◌, ◌^◌, ◌++◌, codes, length, map, IfOk, OnOk};
ghost use Rattle.chart_cells.specs.Cells.{column_shown, marks_shown, runs_shown};
ghost use Rattle.chart_cells.specs.declared.cells.Cell.{Cell};
ghost use Rattle.chart_cells.specs.Charts.{cpu_row_shown, resv_row_shown, task_row_shown};
ghost use Rattle.svg_texts.specs.CpuRows as cpu_spec;
ghost use Rattle.svg_texts.specs.Shapes.{line};
ghost use Rattle.svg_texts.specs.TaskLanes.{task_lanes};
ghost use Rattle.svg_texts.specs.TaskRows as task_spec;

use crate::elements::{resv_budget, resv_name, task_name};
use crate::lanes::{column_x, put_cpu_lane, put_resv_lane, put_task_lane};
use crate::parts::{CpuLane, TaskLane, columns_behind};
use crate::put::{Pixels, put, put_number};
use crate::shapes::{put_deadline, put_end, put_line, put_release, put_words};
use chart_cells::{CpuRow, Marks, ResvRow, Run, TaskRow};
use rt_base::NoMemory;
use rt_task::Parts;
use std::alloc::{AllocError, Global};

/// Where the columns of a window begin, and how wide they are together.
#[derive(Clone, Copy)]
pub struct Field {
    pub edge: Pixels,
    pub columns: u64,
}

#[tactic(auto, using(std::proofs::Common::append_assoc), unfolding(svg_texts::specs::TaskRows::draw_marks))]
fn put_marks(out: &mut Vec<u8>, x: Pixels, y: Pixels, marks: Marks) -> Result<(), AllocError>
    requires { x < 2 ^ 91 }
    ensures { OnOk result (out.new.items
        ≡ out.old.items ++ task_spec.draw_marks x y (marks_shown marks)) }
{
    if marks.release {
        put_release(out, x, y)?;
    }
    if marks.deadline {
        let class = if marks.missed { b"M" } else { b"d" };
        put_deadline(out, class, x + 20, y)?;
    }
    if marks.end {
        put_end(out, x + 20, y)?;
    }
    Ok(())
}

/// The marks of columns side by side, from one on.
#[tactic(auto, using(std::proofs::Common::append_assoc), unfolding(svg_texts::specs::TaskRows::marks_from))]
fn put_columns_marks(
    out: &mut Vec<u8>,
    edge: Pixels,
    y: Pixels,
    column: usize,
    columns: &[Marks],
) -> Result<(), AllocError>
    requires edge { edge < 2 ^ 90 }
    requires inside { column + length columns.now < 2 ^ 64 }
    ensures { OnOk result ((c : Cell) → out.new.items ≡ out.old.items
        ++ task_spec.marks_from edge y column (map (column_shown c) columns.now)) }
{
    for i in 0..columns.len() {
        put_marks(out, column_x(edge, column + i), y, columns[i])?;
    }
    Ok(())
}

#[tactic(auto, using(std::proofs::Common::append_assoc), unfolding(svg_texts::specs::TaskRows::marks_from))]
fn put_all_marks(out: &mut Vec<u8>, edge: Pixels, y: Pixels, runs: &[Run]) -> Result<(), NoMemory>
    requires { edge < 2 ^ 90 }
    ensures { OnOk result (out.new.items
        ≡ out.old.items ++ task_spec.marks_from edge y 0 (runs_shown runs.now)) }
{
    let mut column = 0;
    for run in runs {
        let behind = columns_behind(column, run.marks.len())?;
        put_columns_marks(out, edge, y, column, &run.marks)?;
        column = behind;
    }
    Ok(())
}

#[tactic(auto, using(std::proofs::Common::append_assoc), unfolding(svg_texts::specs::TaskLanes::task_lanes))]
fn put_task_lanes(
    alloc: Global,
    out: &mut Vec<u8>,
    set: &Parts,
    edge: Pixels,
    task: u64,
    y: Pixels,
    runs: &[Run],
) -> Result<(), NoMemory>
    requires edge { edge < 2 ^ 90 }
    requires y { y < 2 ^ 90 }
    ensures { OnOk result (out.new.items
        ≡ out.old.items ++ task_lanes set.now edge task y (runs_shown runs.now)) }
{
    put_task_lane(alloc, out, set, edge, task, y, TaskLane::Job, runs)?;
    put_task_lane(alloc, out, set, edge, task, y, TaskLane::Held, runs)?;
    put_task_lane(alloc, out, set, edge, task, y, TaskLane::Section, runs)?;
    put_task_lane(alloc, out, set, edge, task, y, TaskLane::Raised, runs)
}

/// A task's number and name.
fn task_words(alloc: Global, set: &Parts, task: u64) -> Result<Vec<u8>, AllocError>
    ensures { IfOk result (λ v. v.items ≡ task_spec.task_words set.now task) }
{
    let mut words = Vec::new(alloc);
    put_number(&mut words, u128::from(task))?;
    put(&mut words, b" ")?;
    put(&mut words, task_name(set.tasks.as_slice(), task))?;
    Ok(words)
}

/// The line of a row.
fn put_base(alloc: Global, out: &mut Vec<u8>, field: Field, y: Pixels) -> Result<(), AllocError>
    ensures { OnOk result (out.new.items
        ≡ out.old.items ++ line (codes "b") field.edge y (20 * field.columns) 0) }
{
    put_line(
        alloc,
        out,
        b"b",
        field.edge,
        y,
        20 * u128::from(field.columns),
        0,
    )
}

#[tactic(auto, using(std::proofs::Common::append_assoc), unfolding(svg_texts::specs::TaskRows::task_row))]
fn put_task_row(
    alloc: Global,
    out: &mut Vec<u8>,
    set: &Parts,
    field: Field,
    y: Pixels,
    row: &TaskRow,
) -> Result<(), NoMemory>
    requires edge { field.edge < 2 ^ 90 }
    requires y { y < 2 ^ 90 }
    ensures { OnOk result (out.new.items ≡ out.old.items
        ++ task_spec.task_row set.now field.edge field.columns y (task_row_shown row.now)) }
{
    let task = u64::from(row.task.0);
    let words = task_words(alloc, set, task)?;
    put_words(out, b"e", field.edge.saturating_sub(8), y + 32, &words)?;
    put_task_lanes(alloc, out, set, field.edge, task, y, &row.runs)?;
    put_base(alloc, out, field, y + 38)?;
    put_all_marks(out, field.edge, y + 38, &row.runs)?;
    Ok(())
}

/// The top of row i of rows so high.
fn row_top(y: Pixels, height: u8, i: usize) -> Pixels
    requires { y < 2 ^ 80 }
    ensures top { result ≡ y + height * i }
    ensures small { result < 2 ^ 81 }
{
    y + u128::from(height) * i as u128
}

/// The rows of tasks, from y on.
#[tactic(auto, using(std::proofs::Common::append_assoc), unfolding(svg_texts::specs::TaskRows::task_rows))]
pub fn put_task_rows(
    alloc: Global,
    out: &mut Vec<u8>,
    set: &Parts,
    field: Field,
    y: Pixels,
    rows: &[TaskRow],
) -> Result<(), NoMemory>
    requires edge { field.edge < 2 ^ 90 }
    requires y { y < 2 ^ 80 }
    ensures { OnOk result (out.new.items ≡ out.old.items
        ++ task_spec.task_rows set.now field.edge field.columns y 0 (map task_row_shown rows.now)) }
{
    for i in 0..rows.len() {
        put_task_row(alloc, out, set, field, row_top(y, 52, i), &rows[i])?;
    }
    Ok(())
}

fn cpu_words(alloc: Global, cpu: u32) -> Result<Vec<u8>, AllocError>
    ensures { IfOk result (λ v. v.items ≡ cpu_spec.cpu_words cpu) }
{
    let mut words = Vec::from_slice(alloc, b"processor ")?;
    put_number(&mut words, u128::from(cpu))?;
    Ok(words)
}

#[tactic(auto, using(std::proofs::Common::append_assoc), unfolding(svg_texts::specs::CpuRows::cpu_row))]
fn put_cpu_row(
    alloc: Global,
    out: &mut Vec<u8>,
    set: &Parts,
    field: Field,
    y: Pixels,
    row: &CpuRow,
) -> Result<(), NoMemory>
    requires edge { field.edge < 2 ^ 90 }
    requires y { y < 2 ^ 90 }
    ensures { OnOk result (out.new.items ≡ out.old.items
        ++ cpu_spec.cpu_row set.now field.edge field.columns y (cpu_row_shown row.now)) }
{
    let words = cpu_words(alloc, row.cpu.0)?;
    put_words(out, b"e", field.edge.saturating_sub(8), y + 17, &words)?;
    put_cpu_lane(alloc, out, set, field.edge, y, CpuLane::Playing, &row.cells)?;
    put_cpu_lane(alloc, out, set, field.edge, y, CpuLane::Link, &row.cells)?;
    put_base(alloc, out, field, y + 22)?;
    Ok(())
}

/// The rows of processors, from y on.
#[tactic(auto, using(std::proofs::Common::append_assoc), unfolding(svg_texts::specs::CpuRows::cpu_rows))]
pub fn put_cpu_rows(
    alloc: Global,
    out: &mut Vec<u8>,
    set: &Parts,
    field: Field,
    y: Pixels,
    rows: &[CpuRow],
) -> Result<(), NoMemory>
    requires edge { field.edge < 2 ^ 90 }
    requires y { y < 2 ^ 80 }
    ensures { OnOk result (out.new.items ≡ out.old.items
        ++ cpu_spec.cpu_rows set.now field.edge field.columns y 0 (map cpu_row_shown rows.now)) }
{
    for i in 0..rows.len() {
        put_cpu_row(alloc, out, set, field, row_top(y, 36, i), &rows[i])?;
    }
    Ok(())
}

#[tactic(auto, using(std::proofs::Common::append_assoc), unfolding(svg_texts::specs::CpuRows::resv_row))]
fn put_resv_row(
    alloc: Global,
    out: &mut Vec<u8>,
    set: &Parts,
    field: Field,
    y: Pixels,
    row: &ResvRow,
) -> Result<(), NoMemory>
    requires edge { field.edge < 2 ^ 90 }
    requires y { y < 2 ^ 90 }
    ensures { OnOk result (out.new.items ≡ out.old.items
        ++ cpu_spec.resv_row set.now field.edge field.columns y (resv_row_shown row.now)) }
{
    let resv = u64::from(row.resv.0);
    let name = resv_name(set.resvs.as_slice(), resv);
    put_words(out, b"e", field.edge.saturating_sub(8), y + 22, name)?;
    let budget = resv_budget(set.resvs.as_slice(), resv);
    put_resv_lane(alloc, out, field.edge, budget, y, &row.left)?;
    put_base(alloc, out, field, y + 26)?;
    Ok(())
}

/// The rows of reservations, from y on.
#[tactic(auto, using(std::proofs::Common::append_assoc), unfolding(svg_texts::specs::CpuRows::resv_rows))]
pub fn put_resv_rows(
    alloc: Global,
    out: &mut Vec<u8>,
    set: &Parts,
    field: Field,
    y: Pixels,
    rows: &[ResvRow],
) -> Result<(), NoMemory>
    requires edge { field.edge < 2 ^ 90 }
    requires y { y < 2 ^ 80 }
    ensures { OnOk result (out.new.items ≡ out.old.items
        ++ cpu_spec.resv_rows set.now field.edge field.columns y 0 (map resv_row_shown rows.now)) }
{
    for i in 0..rows.len() {
        put_resv_row(alloc, out, set, field, row_top(y, 36, i), &rows[i])?;
    }
    Ok(())
}
