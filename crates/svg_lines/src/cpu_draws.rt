//! The spans of a processor and of a reservation.
ghost use Rattle.std.specs.Prelude.{◌≡◌, ◌<◌, ◌^◌, ◌++◌, OnOk};
ghost use Rattle.rt_base.specs.TaskNos.{number_of_task};
ghost use Rattle.chart_cells.specs.Cells.{playing_shown};
ghost use Rattle.svg_texts.specs.CpuRows as spec;
ghost use Rattle.svg_lines.specs.Shown.{part_shown};

use crate::bars::{Area, fit, put_bar};
use crate::elements::{colour, number_text, task_name};
use crate::parts::Part;
use crate::put::Pixels;
use crate::shapes::{put_rect, put_words};
use chart_cells::Playing;
use rt_base::{NoMemory, TaskNo};
use rt_task::Parts;
use std::alloc::Global;

/// A bar of a processor, with the task's name where it fits, else its number.
fn put_cpu_bar(
    alloc: Global,
    out: &mut Vec<u8>,
    set: &Parts,
    full: bool,
    task: TaskNo,
    a: Area,
) -> Result<(), NoMemory>
    requires x { a.x < 2 ^ 99 }
    requires y { a.y < 2 ^ 99 }
    requires w { a.w < 2 ^ 99 }
    ensures { OnOk result (out.new.items
        ≡ out.old.items ++ spec.cpu_bar set.now full task.0 a.y a.x a.w) }
{
    let number = u64::from(task.0);
    let short = number_text(alloc, number)?;
    let words = fit(task_name(set.tasks.as_slice(), number), &short, a.w);
    let bar = Area {
        y: a.y + 4,
        h: 18,
        ..a
    };
    put_bar(alloc, out, full, number, bar, words)
}

#[tactic(auto, unfolding(svg_texts::specs::CpuRows::draw_playing))]
fn put_playing(
    alloc: Global,
    out: &mut Vec<u8>,
    set: &Parts,
    a: Area,
    playing: Playing,
) -> Result<(), NoMemory>
    requires x { a.x < 2 ^ 99 }
    requires y { a.y < 2 ^ 99 }
    requires w { a.w < 2 ^ 99 }
    ensures { OnOk result (out.new.items
        ≡ out.old.items ++ spec.draw_playing set.now a.y a.x a.w (playing_shown playing)) }
{
    match playing {
        Playing::WorksFor(task) => put_cpu_bar(alloc, out, set, true, task, a),
        Playing::RunsTask(task) => put_cpu_bar(alloc, out, set, false, task, a),
        Playing::Idle => Ok(()),
    }
}

#[tactic(auto, unfolding(svg_texts::specs::CpuRows::draw_link))]
fn put_link(alloc: Global, out: &mut Vec<u8>, a: Area, link: Option<TaskNo>) -> Result<(), NoMemory>
    requires { a.y < 2 ^ 99 }
    ensures { OnOk result (out.new.items
        ≡ out.old.items ++ spec.draw_link a.y a.x a.w (number_of_task link)) }
{
    if let Some(task) = link {
        let class = colour(alloc, u64::from(task.0))?;
        put_rect(out, &class, a.x, a.y + 24, a.w, 4)?;
    }
    Ok(())
}

/// A span of a processor: its part, from x on, so wide, in the row at y.
#[tactic(auto, unfolding(svg_texts::specs::CpuRows::draw_cpu_part))]
pub fn put_cpu_part(
    alloc: Global,
    out: &mut Vec<u8>,
    set: &Parts,
    a: Area,
    part: &Part,
) -> Result<(), NoMemory>
    requires x { a.x < 2 ^ 99 }
    requires y { a.y < 2 ^ 99 }
    requires w { a.w < 2 ^ 99 }
    ensures { OnOk result (out.new.items ≡ out.old.items
        ++ spec.draw_cpu_part set.now a.y a.x a.w (part_shown part.now)) }
{
    match part {
        Part::Playing(playing) => put_playing(alloc, out, set, a, *playing),
        Part::Link(link) => put_link(alloc, out, a, *link),
        _ => Ok(()),
    }
}

/// What is left of a budget, as a part of 20 pixels, but at least one.
fn budget_height(budget: u64, units: u64) -> Pixels
    ensures { result ≡ spec.budget_height budget units }
{
    if budget == 0 {
        return 1;
    }
    (u128::from(units) * 20 / u128::from(budget)).max(1)
}

#[tactic(auto, using(std::proofs::Common::append_assoc), unfolding(svg_texts::specs::CpuRows::draw_left))]
fn put_left(
    alloc: Global,
    out: &mut Vec<u8>,
    budget: u64,
    a: Area,
    units: u64,
) -> Result<(), NoMemory>
    requires x { a.x < 2 ^ 99 }
    requires y { a.y < 2 ^ 99 }
    requires w { a.w < 2 ^ 99 }
    ensures { OnOk result (out.new.items
        ≡ out.old.items ++ spec.draw_left budget a.y a.x a.w units) }
{
    if units == 0 {
        return Ok(());
    }
    let h = budget_height(budget, units);
    put_rect(out, b"c0", a.x, (a.y + 26).saturating_sub(h), a.w, h)?;
    put_words(
        out,
        b"m",
        a.x + a.w / 2,
        a.y + 24,
        &number_text(alloc, units)?,
    )?;
    Ok(())
}

/// A span of a reservation with this budget.
#[tactic(auto, unfolding(svg_texts::specs::CpuRows::draw_resv_part))]
pub fn put_resv_part(
    alloc: Global,
    out: &mut Vec<u8>,
    budget: u64,
    a: Area,
    part: &Part,
) -> Result<(), NoMemory>
    requires x { a.x < 2 ^ 99 }
    requires y { a.y < 2 ^ 99 }
    requires w { a.w < 2 ^ 99 }
    ensures { OnOk result (out.new.items ≡ out.old.items
        ++ spec.draw_resv_part budget a.y a.x a.w (part_shown part.now)) }
{
    match part {
        Part::Left(units) => put_left(alloc, out, budget, a, *units),
        _ => Ok(()),
    }
}
