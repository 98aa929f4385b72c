//! The text of a picture.
ghost use Rattle.std.specs.Prelude.{◌≡◌, ◌+◌, ◌-◌, ◌<◌, ◌≤◌, ◌^◌, ◌++◌, codes, decimal, length, map, IfOk, OnOk};
ghost use Rattle.rt_base.specs.declared.TheConstants.{MOST_CLUSTERS};
ghost use Rattle.chart_cells.specs.Charts.{chart_shown, panel_shown};
ghost use Rattle.chart_texts.specs.ChartText as titles;
ghost use Rattle.svg_texts.specs.Style.{style};
ghost use Rattle.svg_texts.specs.SvgText as spec;

use crate::elements::{number_text, short_name};
use crate::grid::{Grid, put_grid, step_of};
use crate::legend::put_legend;
use crate::put::{Pixels, put, put_number, put_pixels};
use crate::rows::{Field, put_cpu_rows, put_resv_rows, put_task_rows};
use crate::shapes::{put_rect, put_words};
use chart_cells::{Chart, Panel};
use chart_lines::put_title;
use chart_texts::{Axis, Window};
use rt_base::NoMemory;
use rt_task::{Parts, Resv, Sem, Task};
use set_canonical::protocol_word;
use std::alloc::{AllocError, Global};

const STYLE: &[u8] = b"<style>
text{font:11px \"DejaVu Sans Mono\",Menlo,Consolas,monospace;fill:#222}
.h{font-weight:bold;font-size:13px}.n{font-size:9px}.e{text-anchor:end}.m{text-anchor:middle}.i{fill:#fff}
.g{stroke:#e0e0e0}.G{stroke:#aaa}.b{stroke:#222}
.o{fill:#fff}.y{fill:#888}.z{fill:url(#dots)}.w{fill:#f2f2f2;stroke:#777;stroke-dasharray:3 2}
.B{fill:#c8c8c8;stroke:#222}.s{fill:url(#hatch);stroke:#222;stroke-width:.6}.p{fill:#222}.k{fill:url(#teeth)}
.r,.d,.M,.c{fill:none;stroke:#222;stroke-width:1.4}.M{stroke:#d00000;stroke-width:3}.c{stroke-width:2.4}
.c0{fill:#77aadd}.c1{fill:#ee8866}.c2{fill:#44bb99}.c3{fill:#ffaabb}.c4{fill:#eedd88}.c5{fill:#bbcc33}.c6{fill:#99ddff}.c7{fill:#a0a000}.c8{fill:#332288}.c9{fill:#882255}.c10{fill:#117733}.c11{fill:#994400}.c12{fill:#005f73}.c13{fill:#7a3db8}.c14{fill:#111111}.c15{fill:#b3002d}
</style>
<defs><pattern id=\"hatch\" width=\"4\" height=\"4\" patternUnits=\"userSpaceOnUse\"><rect width=\"4\" height=\"4\" fill=\"#fff\"/><path d=\"M-1 1l2-2M0 4l4-4M3 5l2-2\" stroke=\"#222\"/></pattern><pattern id=\"dots\" width=\"5\" height=\"4\" patternUnits=\"userSpaceOnUse\"><rect width=\"2\" height=\"4\" fill=\"#555\"/></pattern><pattern id=\"teeth\" width=\"6\" height=\"4\" patternUnits=\"userSpaceOnUse\"><path d=\"M0 4l3-4l3 4z\" fill=\"#0050b0\"/></pattern></defs>
";

#[tactic(auto, unfolding(svg_texts::specs::Style::style))]
fn style_text() -> &'static [u8]
    ensures { result.now ≡ style }
{
    STYLE
}

/// The length of a task's number and name.
fn task_label_length(alloc: Global, task: &Task) -> Result<Pixels, AllocError>
    ensures length { IfOk result (λ n. n ≡ spec.task_label_length task.now) }
    ensures small { IfOk result (λ n. n < 2 ^ 80) }
{
    let digits = number_text(alloc, u64::from(task.number.0))?;
    Ok(digits.len() as u128 + 1 + task.name.as_slice().len() as u128)
}

/// The length of the longest label, or 12.
fn label_length(alloc: Global, tasks: &[Task], resvs: &[Resv]) -> Result<Pixels, AllocError>
    ensures length { IfOk result (λ n. n ≡ spec.label_length tasks.now resvs.now) }
    ensures small { IfOk result (λ n. n < 2 ^ 80) }
{
    let mut longest = 12;
    for task in tasks {
        longest = longest.max(task_label_length(alloc, task)?);
    }
    for resv in resvs {
        longest = longest.max(resv.name.as_slice().len() as u128);
    }
    Ok(longest)
}

/// Where the columns begin.
#[tactic(auto, unfolding(svg_texts::specs::SvgText::left_edge))]
fn left_edge(alloc: Global, set: &Parts) -> Result<Pixels, AllocError>
    ensures edge { IfOk result (λ n. n ≡ spec.left_edge set.now) }
    ensures small { IfOk result (λ n. n < 2 ^ 90) }
{
    let longest = label_length(alloc, set.tasks.as_slice(), set.resvs.as_slice())?;
    Ok(7 * longest + 24)
}

fn rows_height(panel: &Panel) -> Pixels
    ensures height { result ≡ spec.rows_height (panel_shown panel.now) }
    ensures small { result < 2 ^ 71 }
{
    let others = panel.cpus.len() as u128 + panel.resvs.len() as u128;
    52 * panel.tasks.len() as u128 + 36 * others + 8
}

/// Where what stands below the groups begins.
#[tactic(auto, unfolding(svg_texts::specs::SvgText::below))]
fn below(panels: &[Panel]) -> Pixels
    requires { length panels.now ≤ MOST_CLUSTERS }
    ensures position { result ≡ spec.below 40 (map panel_shown panels.now) }
    ensures small { result < 2 ^ 79 }
{
    let mut y = 40;
    for panel in panels {
        y += rows_height(panel) + 72;
    }
    y
}

fn sems_height(sems: usize) -> Pixels
    ensures height { result ≡ spec.sems_height sems }
    ensures small { result < 2 ^ 79 }
{
    16 * ((sems as u128 + 2) / 3)
}

#[tactic(auto, using(std::proofs::Common::append_assoc), unfolding(svg_texts::specs::SvgText::size))]
fn put_size(out: &mut Vec<u8>, w: Pixels, h: Pixels) -> Result<(), AllocError>
    ensures { OnOk result (out.new.items ≡ out.old.items ++ spec.size w h) }
{
    put(out, b"<svg xmlns=\"http://www.w3.org/2000/svg\"")?;
    put_pixels(out, b"width", w)?;
    put_pixels(out, b"height", h)
}

#[tactic(auto, using(std::proofs::Common::append_assoc), unfolding(svg_texts::specs::SvgText::view_box))]
fn put_view_box(out: &mut Vec<u8>, w: Pixels, h: Pixels) -> Result<(), AllocError>
    ensures { OnOk result (out.new.items ≡ out.old.items ++ spec.view_box w h) }
{
    put(out, b" viewBox=\"0 0 ")?;
    put_number(out, w)?;
    put(out, b" ")?;
    put_number(out, h)?;
    put(out, b"\">\n")?;
    Ok(())
}

/// The size, the style, and a white ground.
#[tactic(auto, using(std::proofs::Common::append_assoc), unfolding(svg_texts::specs::SvgText::head))]
fn put_head(out: &mut Vec<u8>, w: Pixels, h: Pixels) -> Result<(), AllocError>
    ensures { OnOk result (out.new.items ≡ out.old.items ++ spec.head w h) }
{
    put_size(out, w, h)?;
    put_view_box(out, w, h)?;
    put(out, style_text())?;
    put_rect(out, b"o", 0, 0, w, h)?;
    Ok(())
}

fn group_text(alloc: Global, group: u32) -> Result<Vec<u8>, AllocError>
    ensures { IfOk result (λ v. v.items ≡ codes "group " ++ decimal group) }
{
    let mut text = Vec::from_slice(alloc, b"group ")?;
    put_number(&mut text, u128::from(group))?;
    Ok(text)
}

#[tactic(auto, using(std::proofs::Common::append_assoc))]
fn put_axis_words(out: &mut Vec<u8>, axis: Axis, edge: Pixels, y: Pixels) -> Result<(), AllocError>
    requires { y < 2 ^ 90 }
    ensures { OnOk result (out.new.items ≡ out.old.items ++ spec.axis_words axis edge y) }
{
    let x = edge.saturating_sub(12);
    match axis {
        Axis::Ticks => put_words(out, b"n e", x, y + 50, b"tick"),
        Axis::Entries => {
            put_words(out, b"n e", x, y + 36, b"clock")?;
            put_words(out, b"n e", x, y + 50, b"entry")
        }
    }
}

#[tactic(auto, using(std::proofs::Common::append_assoc), unfolding(svg_texts::specs::SvgText::group_words))]
fn put_group_words(
    alloc: Global,
    out: &mut Vec<u8>,
    axis: Axis,
    edge: Pixels,
    y: Pixels,
    group: u32,
) -> Result<(), NoMemory>
    requires { y < 2 ^ 90 }
    ensures { OnOk result (out.new.items ≡ out.old.items ++ spec.group_words axis edge y group) }
{
    put_words(out, b"h", 20, y + 16, &group_text(alloc, group)?)?;
    put_axis_words(out, axis, edge, y)?;
    Ok(())
}

/// What is drawn of a window: the axis, the window, from one label to the next, and where the columns begin.
#[derive(Clone, Copy)]
struct View {
    axis: Axis,
    window: Window,
    step: u64,
    edge: Pixels,
}

/// The rows of a group, whose head is at y.
#[tactic(auto, using(std::proofs::Common::append_assoc), unfolding(svg_texts::specs::SvgText::rows_text))]
fn put_rows(
    alloc: Global,
    out: &mut Vec<u8>,
    set: &Parts,
    field: Field,
    y: Pixels,
    panel: &Panel,
) -> Result<(), NoMemory>
    requires edge { field.edge < 2 ^ 90 }
    requires y { y < 2 ^ 79 }
    ensures { OnOk result (out.new.items ≡ out.old.items
        ++ spec.rows_text set.now field.edge field.columns y (panel_shown panel.now)) }
{
    let tasks = y + 56;
    let cpus = tasks + 52 * panel.tasks.len() as u128 + 8;
    let resvs = cpus + 36 * panel.cpus.len() as u128;
    put_task_rows(alloc, out, set, field, tasks, &panel.tasks)?;
    put_cpu_rows(alloc, out, set, field, cpus, &panel.cpus)?;
    put_resv_rows(alloc, out, set, field, resvs, &panel.resvs)
}

/// A group, whose head is at y.
#[tactic(auto, using(std::proofs::Common::append_assoc), unfolding(svg_texts::specs::SvgText::panel_text))]
fn put_panel(
    alloc: Global,
    out: &mut Vec<u8>,
    set: &Parts,
    view: View,
    y: Pixels,
    panel: &Panel,
) -> Result<(), NoMemory>
    requires step { 0 < view.step }
    requires edge { view.edge < 2 ^ 90 }
    requires y { y < 2 ^ 79 }
    requires columns { view.window.to - view.window.from < 2 ^ 63 }
    ensures { OnOk result (out.new.items ≡ out.old.items
        ++ spec.panel_text set.now view.axis view.window view.step view.edge y
        (panel_shown panel.now)) }
{
    let columns = view.window.to.saturating_sub(view.window.from);
    put_group_words(alloc, out, view.axis, view.edge, y, panel.group.0)?;
    let grid = Grid {
        axis: view.axis,
        step: view.step,
        edge: view.edge,
        y,
        height: rows_height(panel),
    };
    put_grid(alloc, out, grid, panel, view.window.from, columns)?;
    let field = Field {
        edge: view.edge,
        columns,
    };
    put_rows(alloc, out, set, field, y, panel)
}

#[tactic(auto, using(std::proofs::Common::append_assoc), unfolding(svg_texts::specs::SvgText::panel_texts))]
fn put_panels(
    alloc: Global,
    out: &mut Vec<u8>,
    set: &Parts,
    view: View,
    panels: &[Panel],
) -> Result<(), NoMemory>
    requires step { 0 < view.step }
    requires edge { view.edge < 2 ^ 90 }
    requires columns { view.window.to - view.window.from < 2 ^ 63 }
    requires panels { length panels.now ≤ MOST_CLUSTERS }
    ensures { OnOk result (out.new.items ≡ out.old.items ++ spec.panel_texts set.now view.axis
        view.window view.step view.edge 40 (map panel_shown panels.now)) }
{
    let mut y = 40;
    for panel in panels {
        put_panel(alloc, out, set, view, y, panel)?;
        y += rows_height(panel) + 72;
    }
    Ok(())
}

#[tactic(auto, using(std::proofs::Common::append_assoc))]
fn sem_text(alloc: Global, number: u64, sem: &Sem) -> Result<Vec<u8>, AllocError>
    ensures { IfOk result (λ v. v.items ≡ spec.sem_says number sem.now) }
{
    let mut text = short_name(alloc, number)?;
    put(&mut text, b" is ")?;
    put(&mut text, sem.name.as_slice())?;
    put(&mut text, b", ")?;
    put(&mut text, protocol_word(sem.protocol))?;
    Ok(text)
}

/// Semaphore i, counted from 0; three stand in a row.
#[tactic(auto, unfolding(svg_texts::specs::SvgText::sem_words))]
fn put_sem(alloc: Global, out: &mut Vec<u8>, y: Pixels, i: u64, sem: &Sem) -> Result<(), NoMemory>
    requires y { y < 2 ^ 90 }
    requires i { i < 2 ^ 63 }
    ensures { OnOk result (out.new.items ≡ out.old.items ++ spec.sem_words y i sem.now) }
{
    let text = sem_text(alloc, i + 1, sem)?;
    let x = 20 + 330 * u128::from(i % 3);
    put_words(out, b"t", x, y + 12 + 16 * u128::from(i / 3), &text)?;
    Ok(())
}

#[tactic(auto, using(std::proofs::Common::append_assoc), unfolding(svg_texts::specs::SvgText::sems_from))]
fn put_sems(alloc: Global, out: &mut Vec<u8>, y: Pixels, sems: &[Sem]) -> Result<(), NoMemory>
    requires { y < 2 ^ 90 }
    ensures { OnOk result (out.new.items ≡ out.old.items ++ spec.sems_from y 0 sems.now) }
{
    for i in 0..sems.len() {
        put_sem(alloc, out, y, i as u64, &sems[i])?;
    }
    Ok(())
}

/// The semaphores and the legend, from y on.
#[tactic(auto, using(std::proofs::Common::append_assoc), unfolding(svg_texts::specs::SvgText::foot))]
fn put_foot(alloc: Global, out: &mut Vec<u8>, y: Pixels, sems: &[Sem]) -> Result<(), NoMemory>
    requires { y < 2 ^ 80 }
    ensures { OnOk result (out.new.items ≡ out.old.items ++ spec.foot y sems.now) }
{
    put_sems(alloc, out, y, sems)?;
    put_legend(alloc, out, y + sems_height(sems.len()))?;
    put(out, b"</svg>\n")?;
    Ok(())
}

fn title(
    alloc: Global,
    set: &Parts,
    axis: Axis,
    window: Window,
    longest: u64,
) -> Result<Vec<u8>, AllocError>
    ensures { IfOk result (λ v. v.items ≡ titles.title set.now axis window longest) }
{
    let mut text = Vec::new(alloc);
    put_title(&mut text, set, axis, window, longest)?;
    Ok(text)
}

fn wide(edge: Pixels, columns: u64) -> Pixels
    requires { edge < 2 ^ 90 }
    ensures { result ≡ spec.wide edge columns }
{
    (edge + 20 * u128::from(columns) + 30).max(1010)
}

/// The text of a chart of a set, by an axis and in a window, as a picture (SVG). A set has at most as many groups as clusters.
#[tactic(auto, using(std::proofs::Common::append_assoc), unfolding(svg_texts::specs::SvgText::svg_of))]
pub fn svg_text(
    alloc: Global,
    set: &Parts,
    axis: Axis,
    window: Window,
    chart: &Chart,
) -> Result<Vec<u8>, NoMemory>
    requires columns { window.to - window.from < 2 ^ 63 }
    requires panels { length chart.now.panels.items ≤ MOST_CLUSTERS }
    ensures { IfOk result (λ v. v.items ≡ spec.svg_of set.now axis window (chart_shown chart.now)) }
{
    let mut out = Vec::new(alloc);
    let edge = left_edge(alloc, set)?;
    let step = step_of(axis, window, &chart.panels);
    let y = below(&chart.panels);
    let sems = set.sems.as_slice();
    let columns = window.to.saturating_sub(window.from);
    put_head(
        &mut out,
        wide(edge, columns),
        y + sems_height(sems.len()) + 252,
    )?;
    put_words(
        &mut out,
        b"h",
        20,
        26,
        &title(alloc, set, axis, window, chart.length)?,
    )?;
    let view = View {
        axis,
        window,
        step,
        edge,
    };
    put_panels(alloc, &mut out, set, view, &chart.panels)?;
    put_foot(alloc, &mut out, y, sems)?;
    Ok(out)
}
