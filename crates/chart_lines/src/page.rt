//! The text of a chart.
ghost use Rattle.std.specs.Prelude.{◌≡◌, ◌+◌, ◌++◌, length, map, flat_map, fold, max, IfOk, OnOk};
ghost use Rattle.chart_texts.specs.ChartText as spec;
ghost use Rattle.chart_cells.specs.Charts.{chart_shown, panel_shown};

use crate::letters::sem_letter;
use crate::panels::put_panel;
use crate::rows::{put, put_number, put_two};
use chart_cells::{Chart, Panel};
use chart_texts::{Axis, Window};
use rt_base::NoMemory;
use rt_task::{Parts, Resv, Sem, Task};
use set_canonical::{plugin_word, protocol_word};
use std::alloc::{AllocError, Global};

const KEY: &[u8] = b"above a task  ^ release, v deadline, ! deadline missed
task          0 unit of work on processor 0, = runs and does none, . there, not running,
              w waits for a semaphore, W waits and is priority-blocked, z sleeps, | end of the job
holds         the letter of the semaphore, + more than one
processor     A works for task A, A= runs it and does no unit
";

fn axis_word(axis: Axis) -> &'static [u8]
    ensures { result.now ≡ spec.axis_word axis }
{
    match axis {
        Axis::Ticks => b"ticks",
        Axis::Entries => b"entries",
    }
}

/// The scheduler, and which part of how much is shown.
#[tactic(auto, using(std::proofs::Common::append_assoc), unfolding(chart_texts::specs::ChartText::title))]
pub fn put_title(
    out: &mut Vec<u8>,
    parts: &Parts,
    axis: Axis,
    window: Window,
    longest: u64,
) -> Result<(), AllocError>
    ensures { OnOk result (out.new.items
        ≡ out.old.items ++ spec.title parts.now axis window longest) }
{
    put(out, plugin_word(parts.plugin))?;
    put(out, b", ")?;
    put(out, axis_word(axis))?;
    put(out, b" ")?;
    put_number(out, window.from)?;
    put(out, b" to ")?;
    put_number(out, window.to)?;
    put(out, b" of ")?;
    put_number(out, longest)
}

/// The length of the longest label, or 12.
fn longest_label(tasks: &[Task], resvs: &[Resv]) -> usize
    ensures { result ≡ spec.width_of tasks.now resvs.now }
{
    let mut width = 12;
    for task in tasks {
        width = width.max(task.name.as_slice().len() + 2);
    }
    for resv in resvs {
        width = width.max(resv.name.as_slice().len());
    }
    width
}

#[tactic(auto, unfolding(chart_texts::specs::ChartText::label_width))]
fn label_width(parts: &Parts) -> usize
    ensures { result ≡ spec.label_width parts.now }
{
    longest_label(parts.tasks.as_slice(), parts.resvs.as_slice())
}

#[tactic(auto, using(std::proofs::Common::append_assoc))]
fn put_panels(
    alloc: Global,
    out: &mut Vec<u8>,
    parts: &Parts,
    axis: Axis,
    width: usize,
    panels: &[Panel],
) -> Result<(), NoMemory>
    ensures { OnOk result (out.new.items
        ≡ out.old.items
        ++ flat_map (spec.panel_text parts.now axis width) (map panel_shown panels.now)) }
{
    for panel in panels {
        put_panel(alloc, out, parts, axis, width, panel)?;
    }
    Ok(())
}

/// A semaphore, by its number.
#[tactic(auto, using(std::proofs::Common::append_assoc))]
fn put_sem(out: &mut Vec<u8>, number: u64, sem: &Sem) -> Result<(), AllocError>
    ensures { OnOk result (out.new.items ≡ out.old.items ++ spec.sem_line number sem.now) }
{
    put(out, &[sem_letter(number)])?;
    put(out, b" semaphore ")?;
    put(out, sem.name.as_slice())?;
    put(out, b" ")?;
    put(out, protocol_word(sem.protocol))?;
    put(out, b"\n")
}

#[tactic(auto, using(std::proofs::Common::append_assoc), unfolding(chart_texts::specs::ChartText::sems_text))]
fn put_sems(out: &mut Vec<u8>, sems: &[Sem]) -> Result<(), AllocError>
    ensures { OnOk result (out.new.items ≡ out.old.items ++ spec.sems_text sems.now) }
{
    if !sems.is_empty() {
        put(out, b"\n")?;
    }
    for i in 0..sems.len() {
        put_sem(out, i as u64 + 1, &sems[i])?;
    }
    Ok(())
}

#[tactic(auto, unfolding(chart_texts::specs::ChartText::key_text))]
fn key_text() -> &'static [u8]
    ensures { result.now ≡ spec.key_text }
{
    KEY
}

/// The semaphores, and the key to the characters.
#[tactic(auto, using(std::proofs::Common::append_assoc))]
fn put_foot(out: &mut Vec<u8>, sems: &[Sem]) -> Result<(), AllocError>
    ensures { OnOk result (out.new.items ≡ out.old.items ++ spec.foot sems.now) }
{
    put_sems(out, sems)?;
    put(out, b"\n")?;
    put(out, key_text())
}

/// The text of a chart of a set, by an axis and in a window, in characters: a title, the groups, the semaphores, and a key.
#[tactic(auto, using(std::proofs::Common::append_assoc), unfolding(chart_texts::specs::ChartText::text_of))]
pub fn chart_text(
    alloc: Global,
    parts: &Parts,
    axis: Axis,
    window: Window,
    chart: &Chart,
) -> Result<Vec<u8>, NoMemory>
    ensures { IfOk result (λ v. v.items
        ≡ spec.text_of parts.now axis window (chart_shown chart.now)) }
{
    let mut out = Vec::new(alloc);
    put_title(&mut out, parts, axis, window, chart.length)?;
    put(&mut out, b"\n")?;
    put_panels(
        alloc,
        &mut out,
        parts,
        axis,
        label_width(parts),
        &chart.panels,
    )?;
    put_foot(&mut out, parts.sems.as_slice())?;
    Ok(out)
}
