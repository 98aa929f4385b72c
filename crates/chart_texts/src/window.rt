//! What is asked of a chart.

/// What the columns of a chart stand for: ticks, or the entries of a group.
#[derive(Clone, Copy, Debug, PartialEq, Eq)]
pub enum Axis {
    Ticks,
    Entries,
}

/// The columns from `from` up to `to`, which is not shown itself. Columns are counted from 0.
#[derive(Clone, Copy, Debug, PartialEq, Eq)]
pub struct Window {
    pub from: u64,
    pub to: u64,
}
