//! The columns of a window, once they are over.
ghost use Rattle.std.specs.Prelude.{◌≡◌, ◌+◌, ◌<◌, ◌≤◌, IfOk};
ghost use Rattle.rt_base.specs.declared.TheConstants.{TICK_END};
ghost use Rattle.rt_model.specs.Past.{Past};
ghost use Rattle.rt_model.specs.Past as pasts;
ghost use Rattle.chart_texts.specs.Windows.{columns_in};
ghost use Rattle.chart_feed.specs.EntryClocks.{clocks_in, entry_clocks};
ghost use Rattle.chart_feed.specs.inside.Panels.{AreColumns};

use crate::entry_clocks::{EntryClocks, numbers_in};
use crate::marking::edges_of;
use crate::times::Edges;
use chart_texts::{Axis, Window};
use rt_base::NoMemory;
use std::alloc::Global;

/// The columns of a window: of each its label and the last of its clocks, and its edges.
#[derive(Drop)]
pub(crate) struct Columns {
    pub(crate) labels: Vec<u64>,
    pub(crate) clocks: Vec<u64>,
    pub(crate) edges: Vec<Edges>,
}

/// By ticks, up to the clock.
fn tick_columns(alloc: Global, window: Window, now: u64) -> Result<Columns, NoMemory>
    requires now { now < TICK_END }
    requires window { window.from < TICK_END + 1 }
    ensures { IfOk result (λ c. (past : Past) → now ≡ pasts.now past
        → AreColumns (columns_in Axis.Ticks window past) c) }
{
    let labels = numbers_in(alloc, window, now + 1)?;
    let clocks = numbers_in(alloc, window, now + 1)?;
    let edges = edges_of(alloc, window.from, clocks.as_slice(), None)?;
    Ok(Columns {
        labels,
        clocks,
        edges,
    })
}

/// By entries.
fn entry_columns(alloc: Global, window: Window, entries: EntryClocks) -> Result<Columns, NoMemory>
    requires window { window.from ≤ window.to }
    requires clocks { (past : Past) × (pasts.now past < TICK_END)
        × (entries ≡ clocks_in window (entry_clocks past)) }
    ensures { IfOk result (λ c. (past : Past) → pasts.now past < TICK_END
        → entries ≡ clocks_in window (entry_clocks past)
        → AreColumns (columns_in Axis.Entries window past) c) }
{
    let EntryClocks {
        count,
        first,
        clocks,
        after,
    } = entries;
    let labels = numbers_in(alloc, window, count)?;
    let edges = edges_of(alloc, first, clocks.as_slice(), after)?;
    Ok(Columns {
        labels,
        clocks,
        edges,
    })
}

/// The columns of a window, at the clock.
pub(crate) fn columns_of(
    alloc: Global,
    axis: Axis,
    window: Window,
    now: u64,
    entries: EntryClocks,
) -> Result<Columns, NoMemory>
    requires low { now < TICK_END }
    requires from { window.from < TICK_END + 1 }
    requires window { window.from ≤ window.to }
    requires clocks { (past : Past) × (now ≡ pasts.now past)
        × (entries ≡ clocks_in window (entry_clocks past)) }
    ensures { IfOk result (λ c. (past : Past) → now ≡ pasts.now past
        → entries ≡ clocks_in window (entry_clocks past)
        → AreColumns (columns_in axis window past) c) }
{
    match axis {
        Axis::Ticks => tick_columns(alloc, window, now),
        Axis::Entries => entry_columns(alloc, window, entries),
    }
}
