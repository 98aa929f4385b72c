//! The grid over the columns of a group, with their labels and clocks.
ghost use Rattle.std.specs.Prelude.{◌≡◌, ◌+◌, ◌<◌, ◌≤◌, ◌^◌, ◌++◌, map, slice_index_or, OnOk};
ghost use Rattle.chart_cells.specs.Charts.{panel_shown};
ghost use Rattle.svg_texts.specs.Grids as spec;

use crate::elements::number_text;
use crate::lanes::column_x;
use crate::put::Pixels;
use crate::shapes::{put_line, put_words};
use chart_cells::Panel;
use chart_texts::{Axis, Window};
use rt_base::NoMemory;
use std::alloc::Global;

/// Whether no clock has more than three digits; by ticks it does not matter.
fn all_short(axis: Axis, panels: &[Panel]) -> bool
    ensures { result ≡ spec.all_short axis (map panel_shown panels.now) }
{
    match axis {
        Axis::Ticks => true,
        Axis::Entries => clocks_short(panels),
    }
}

fn clocks_short(panels: &[Panel]) -> bool
    ensures { result ≡ spec.clocks_short (map panel_shown panels.now) }
{
    for panel in panels {
        if panel.last.0 > 100 {
            return false;
        }
    }
    true
}

/// How many columns there are from one label to the next.
pub fn step_of(axis: Axis, window: Window, panels: &[Panel]) -> u64
    ensures step { result ≡ spec.step_of axis window (map panel_shown panels.now) }
    ensures some { 0 < result }
{
    if window.to <= 100 && all_short(axis, panels) {
        1
    } else {
        5
    }
}

/// The grid of a group: its head is at y, its columns begin at the edge, and its rows are so high.
#[derive(Clone, Copy)]
pub struct Grid {
    pub axis: Axis,
    pub step: u64,
    pub edge: Pixels,
    pub y: Pixels,
    pub height: Pixels,
}

fn value_at(values: &[u64], i: u64) -> u64
    ensures { result ≡ slice_index_or values.now i 0 }
{
    if i < values.len() as u64 {
        values[i as usize]
    } else {
        0
    }
}

fn label_position(axis: Axis, x: Pixels) -> Pixels
    requires { x < 2 ^ 100 }
    ensures { result ≡ spec.label_position axis x }
{
    match axis {
        Axis::Ticks => x,
        Axis::Entries => x + 10,
    }
}

fn clock_is_new(step: u64, clocks: &[u64], i: u64) -> bool
    ensures { result ≡ spec.clock_is_new step clocks.now i }
{
    i < step || value_at(clocks, i) != value_at(clocks, i.saturating_sub(step))
}

fn put_clock(
    alloc: Global,
    out: &mut Vec<u8>,
    grid: Grid,
    clocks: &[u64],
    i: u64,
    x: Pixels,
) -> Result<(), NoMemory>
    requires { grid.y < 2 ^ 100 }
    ensures { OnOk result (out.new.items ≡ out.old.items
        ++ spec.clock_words grid.axis grid.step clocks.now i x grid.y) }
{
    match grid.axis {
        Axis::Ticks => Ok(()),
        Axis::Entries => {
            if clock_is_new(grid.step, clocks, i) {
                let clock = number_text(alloc, value_at(clocks, i))?;
                put_words(out, b"n", x, grid.y + 36, &clock)?;
            }
            Ok(())
        }
    }
}

#[tactic(auto, using(std::proofs::Common::append_assoc), unfolding(svg_texts::specs::Grids::column_words))]
fn put_column_words(
    alloc: Global,
    out: &mut Vec<u8>,
    grid: Grid,
    panel: &Panel,
    i: u64,
    x: Pixels,
) -> Result<(), NoMemory>
    requires x { x < 2 ^ 100 }
    requires y { grid.y < 2 ^ 100 }
    ensures { OnOk result (out.new.items ≡ out.old.items
        ++ spec.column_words grid.axis grid.step (panel_shown panel.now) i x grid.y) }
{
    let label = number_text(alloc, value_at(&panel.labels, i))?;
    put_words(
        out,
        b"n m",
        label_position(grid.axis, x),
        grid.y + 50,
        &label,
    )?;
    put_clock(alloc, out, grid, &panel.clocks, i, x)
}

fn line_class(number: u128) -> &'static [u8]
    ensures { result.now ≡ spec.line_class number }
{
    if number % 5 == 0 { b"G" } else { b"g" }
}

/// The line at the left edge of column i of the window, with its words.
#[tactic(auto, using(std::proofs::Common::append_assoc), unfolding(svg_texts::specs::Grids::grid_line))]
fn put_grid_line(
    alloc: Global,
    out: &mut Vec<u8>,
    grid: Grid,
    panel: &Panel,
    number: u128,
    i: u64,
) -> Result<(), NoMemory>
    requires step { 0 < grid.step }
    requires edge { grid.edge < 2 ^ 90 }
    requires y { grid.y < 2 ^ 90 }
    ensures { OnOk result (out.new.items ≡ out.old.items ++ spec.grid_line grid.axis grid.step
        grid.edge grid.y (panel_shown panel.now) grid.height number i) }
{
    let x = column_x(grid.edge, i as usize);
    put_line(
        alloc,
        out,
        line_class(number),
        x,
        grid.y + 56,
        0,
        grid.height,
    )?;
    if number % u128::from(grid.step) == 0 && i < panel.labels.len() as u64 {
        put_column_words(alloc, out, grid, panel, i, x)?;
    }
    Ok(())
}

/// The grid over so many columns of a window, numbered from a number on.
#[tactic(auto, using(std::proofs::Common::append_assoc), unfolding(svg_texts::specs::Grids::grid))]
pub fn put_grid(
    alloc: Global,
    out: &mut Vec<u8>,
    grid: Grid,
    panel: &Panel,
    from: u64,
    columns: u64,
) -> Result<(), NoMemory>
    requires step { 0 < grid.step }
    requires edge { grid.edge < 2 ^ 90 }
    requires y { grid.y < 2 ^ 90 }
    requires columns { columns < 2 ^ 63 }
    ensures { OnOk result (out.new.items ≡ out.old.items ++ spec.grid grid.axis grid.step
        grid.edge grid.y (panel_shown panel.now) grid.height from columns) }
{
    for i in 0..columns + 1 {
        put_grid_line(alloc, out, grid, panel, u128::from(from) + u128::from(i), i)?;
    }
    Ok(())
}
