//! The lanes of rows: the spans of their parts, each drawn.
ghost use Rattle.std.specs.Prelude.{◌≡◌, ◌+◌, ◌-◌, ◌*◌, ◌<◌, ◌≤◌, ◌^◌, ◌++◌, length, map, IfOk, OnOk};
ghost use Rattle.chart_cells.specs.Cells.{cpu_cell_shown, runs_shown};
ghost use Rattle.svg_texts.specs.CpuRows as cpu_rows;
ghost use Rattle.svg_texts.specs.Lanes.{drawn, lane};
ghost use Rattle.svg_texts.specs.Parts as spec;
ghost use Rattle.svg_texts.specs.TaskLanes as task_lanes;
ghost use Rattle.svg_lines.specs.Shown.{cpu_part_of, lane_part, part_shown, runs_parts, spans_left, task_part_of};

use crate::bars::Area;
use crate::cpu_draws::{put_cpu_part, put_resv_part};
use crate::parts::{
    CpuLane, Part, Place, TaskLane, cpu_parts, left_parts, run_end, task_part, task_span_end,
};
use crate::put::Pixels;
use crate::task_draws::put_task_part;
use chart_cells::{Cell, CpuCell, Run};
use rt_base::NoMemory;
use rt_task::Parts;
use std::alloc::Global;

/// Where a column begins, and how wide so many are.
pub fn column_x(edge: Pixels, column: usize) -> Pixels
    requires { edge < 2 ^ 90 }
    ensures position { result ≡ edge + 20 * column }
    ensures small { result < 2 ^ 91 }
{
    edge + 20 * column as u128
}

fn columns_width(columns: usize) -> Pixels
    ensures width { result ≡ 20 * columns }
    ensures small { result < 2 ^ 91 }
{
    20 * columns as u128
}

/// The area of a span of a row at y; spans have heights of their own.
fn area(edge: Pixels, y: Pixels, from: usize, to: usize) -> Area
    requires { edge < 2 ^ 90 }
    ensures x { result.x ≡ edge + 20 * from }
    ensures y { result.y ≡ y }
    ensures w { result.w ≡ 20 * (to - from) }
    ensures small_x { result.x < 2 ^ 91 }
    ensures small_w { result.w < 2 ^ 91 }
{
    Area {
        x: column_x(edge, from),
        y,
        w: columns_width(to.saturating_sub(from)),
        h: 0,
    }
}

/// A span of a task, which begins with this cell.
fn put_task_span(
    alloc: Global,
    out: &mut Vec<u8>,
    set: &Parts,
    task: u64,
    area: Area,
    shown: TaskLane,
    cell: &Cell,
) -> Result<(), NoMemory>
    requires x { area.x < 2 ^ 91 }
    requires y { area.y < 2 ^ 90 }
    requires w { area.w < 2 ^ 91 }
    ensures { OnOk result (out.new.items ≡ out.old.items ++ task_lanes.draw_task_part
        set.now task area.y area.x area.w (lane_part shown cell.now)) }
{
    let part = task_part(alloc, shown, cell)?;
    put_task_part(alloc, out, set, task, area, &part)
}

/// The span that begins with a run; one without columns begins none. Gives where it ends.
fn put_next_span(
    alloc: Global,
    out: &mut Vec<u8>,
    set: &Parts,
    edge: Pixels,
    task: u64,
    y: Pixels,
    shown: TaskLane,
    runs: &[Run],
    at: Place,
) -> Result<Place, NoMemory>
    requires edge { edge < 2 ^ 90 }
    requires y { y < 2 ^ 90 }
    requires inside { at.run < length runs.now }
    ensures after { IfOk result (λ to. at.run < to.run) }
    ensures within { IfOk result (λ to. to.run ≤ length runs.now) }
    ensures text { IfOk result (λ to. out.new.items
        ++ drawn (task_lanes.draw_task_part set.now task y) edge (spans_left shown runs.now to)
        ≡ out.old.items
        ++ drawn (task_lanes.draw_task_part set.now task y) edge (spans_left shown runs.now at)) }
{
    if runs[at.run].marks.is_empty() {
        return Ok(Place {
            run: at.run + 1,
            column: at.column,
        });
    }
    let to = task_span_end(shown, runs, at)?;
    let here = area(edge, y, at.column, to.column);
    put_task_span(alloc, out, set, task, here, shown, &runs[at.run].cell)?;
    Ok(to)
}

#[tactic(auto, unfolding(svg_texts::specs::Lanes::lane))]
fn put_task_spans(
    alloc: Global,
    out: &mut Vec<u8>,
    set: &Parts,
    edge: Pixels,
    task: u64,
    y: Pixels,
    shown: TaskLane,
    runs: &[Run],
) -> Result<(), NoMemory>
    requires edge { edge < 2 ^ 90 }
    requires y { y < 2 ^ 90 }
    ensures { OnOk result (out.new.items ≡ out.old.items
        ++ lane (task_lanes.draw_task_part set.now task y) edge (runs_parts shown runs.now)) }
{
    let mut at = Place { run: 0, column: 0 };
    while at.run < runs.len() {
        at = put_next_span(alloc, out, set, edge, task, y, shown, runs, at)?;
    }
    Ok(())
}

#[tactic(auto, unfolding(svg_texts::specs::Lanes::lane))]
fn put_cpu_spans(
    alloc: Global,
    out: &mut Vec<u8>,
    set: &Parts,
    edge: Pixels,
    y: Pixels,
    parts: &[Part],
) -> Result<(), NoMemory>
    requires edge { edge < 2 ^ 90 }
    requires y { y < 2 ^ 90 }
    ensures { OnOk result (out.new.items ≡ out.old.items
        ++ lane (cpu_rows.draw_cpu_part set.now y) edge (map part_shown parts.now)) }
{
    let mut from = 0;
    while from < parts.len() {
        let to = run_end(parts, from);
        put_cpu_part(alloc, out, set, area(edge, y, from, to), &parts[from])?;
        from = to;
    }
    Ok(())
}

#[tactic(auto, unfolding(svg_texts::specs::Lanes::lane))]
fn put_resv_spans(
    alloc: Global,
    out: &mut Vec<u8>,
    edge: Pixels,
    budget: u64,
    y: Pixels,
    parts: &[Part],
) -> Result<(), NoMemory>
    requires edge { edge < 2 ^ 90 }
    requires y { y < 2 ^ 90 }
    ensures { OnOk result (out.new.items ≡ out.old.items
        ++ lane (cpu_rows.draw_resv_part budget y) edge (map part_shown parts.now)) }
{
    let mut from = 0;
    while from < parts.len() {
        let to = run_end(parts, from);
        put_resv_part(alloc, out, budget, area(edge, y, from, to), &parts[from])?;
        from = to;
    }
    Ok(())
}

/// A lane of a task.
pub fn put_task_lane(
    alloc: Global,
    out: &mut Vec<u8>,
    set: &Parts,
    edge: Pixels,
    task: u64,
    y: Pixels,
    shown: TaskLane,
    runs: &[Run],
) -> Result<(), NoMemory>
    requires edge { edge < 2 ^ 90 }
    requires y { y < 2 ^ 90 }
    ensures { OnOk result (out.new.items ≡ out.old.items ++ task_lanes.task_lane set.now edge task y
        (task_part_of shown) (runs_shown runs.now)) }
{
    put_task_spans(alloc, out, set, edge, task, y, shown, runs)
}

/// A lane of a processor.
pub fn put_cpu_lane(
    alloc: Global,
    out: &mut Vec<u8>,
    set: &Parts,
    edge: Pixels,
    y: Pixels,
    shown: CpuLane,
    cells: &[CpuCell],
) -> Result<(), NoMemory>
    requires edge { edge < 2 ^ 90 }
    requires y { y < 2 ^ 90 }
    ensures { OnOk result (out.new.items
        ≡ out.old.items ++ lane (cpu_rows.draw_cpu_part set.now y) edge
        (map (cpu_part_of shown) (map cpu_cell_shown cells.now))) }
{
    let parts = cpu_parts(alloc, shown, cells)?;
    put_cpu_spans(alloc, out, set, edge, y, &parts)
}

/// The lane of a reservation with this budget.
pub fn put_resv_lane(
    alloc: Global,
    out: &mut Vec<u8>,
    edge: Pixels,
    budget: u64,
    y: Pixels,
    left: &[u64],
) -> Result<(), NoMemory>
    requires edge { edge < 2 ^ 90 }
    requires y { y < 2 ^ 90 }
    ensures { OnOk result (out.new.items ≡ out.old.items
        ++ lane (cpu_rows.draw_resv_part budget y) edge (map spec.left left.now)) }
{
    let parts = left_parts(alloc, left)?;
    put_resv_spans(alloc, out, edge, budget, y, &parts)
}
