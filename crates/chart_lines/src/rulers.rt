//! Numbers over the columns.
ghost use Rattle.std.specs.Prelude.{◌≡◌, ◌++◌, [], map, not, IfOk, OnOk, None};
ghost use Rattle.rt_rules.specs.Numbers.{is};
ghost use Rattle.chart_texts.specs.Rulers as spec;
ghost use Rattle.chart_cells.specs.Charts.{panel_shown};

use crate::rows::{fill, put_number, put_row};
use chart_cells::Panel;
use chart_texts::Axis;
use rt_base::NoMemory;
use std::alloc::{AllocError, Global};

/// A number from its position on; it is left out where the ruler is longer than that or ends right before it.
fn put_number_at(ruler: &mut Vec<u8>, position: usize, n: u64) -> Result<(), AllocError>
    ensures { OnOk result (ruler.new.items ≡ spec.with_number ruler.old.items position n) }
{
    if ruler.is_empty() || ruler.len() < position {
        fill(ruler, position)?;
        put_number(ruler, n)?;
    }
    Ok(())
}

/// The labels that 5 divides.
#[tactic(auto, unfolding(chart_texts::specs::Rulers::ruler_from))]
fn label_ruler(alloc: Global, labels: &[u64]) -> Result<Vec<u8>, AllocError>
    ensures { IfOk result (λ v. v.items ≡ spec.ruler_from [] 0 (map spec.fifth labels.now)) }
{
    let mut ruler = Vec::new(alloc);
    for i in 0..labels.len() {
        if labels[i] % 5 == 0 {
            put_number_at(&mut ruler, 2 * i, labels[i])?;
        }
    }
    Ok(ruler)
}

/// Whether a clock is not that of the column before.
fn is_new(before: Option<u64>, clock: u64) -> bool
    ensures { result ≡ not (is clock before) }
{
    match before {
        Some(other) => clock != other,
        None => true,
    }
}

/// The clocks that are not those of the columns before them.
#[tactic(auto, unfolding(chart_texts::specs::Rulers::ruler_from))]
fn clock_ruler(alloc: Global, clocks: &[u64]) -> Result<Vec<u8>, AllocError>
    ensures { IfOk result (λ v. v.items
        ≡ spec.ruler_from [] 0 (spec.new_clocks None clocks.now)) }
{
    let mut ruler = Vec::new(alloc);
    let mut before = None;
    for i in 0..clocks.len() {
        if is_new(before, clocks[i]) {
            put_number_at(&mut ruler, 2 * i, clocks[i])?;
        }
        before = Some(clocks[i]);
    }
    Ok(ruler)
}

/// The rulers of a group: by ticks one; by entries the clocks after them, and their numbers.
#[tactic(auto, using(std::proofs::Common::append_assoc), unfolding(chart_texts::specs::Rulers::rulers))]
pub fn put_rulers(
    alloc: Global,
    out: &mut Vec<u8>,
    axis: Axis,
    width: usize,
    panel: &Panel,
) -> Result<(), NoMemory>
    ensures { OnOk result (out.new.items
        ≡ out.old.items ++ spec.rulers axis width (panel_shown panel.now)) }
{
    match axis {
        Axis::Ticks => put_row(
            alloc,
            out,
            width,
            b"tick",
            &label_ruler(alloc, &panel.labels)?,
        ),
        Axis::Entries => {
            put_row(
                alloc,
                out,
                width,
                b"clock",
                &clock_ruler(alloc, &panel.clocks)?,
            )?;
            put_row(
                alloc,
                out,
                width,
                b"entry",
                &label_ruler(alloc, &panel.labels)?,
            )
        }
    }
}
