//! The views of a trace.
use chart_texts::{Axis, Window};
use view_charts::Form;

/// What is shown of a trace.
#[derive(Clone, Copy)]
pub enum View {
    /// A table of its jobs or of its tasks.
    Table(view_tables::Table),
    /// Entry `.1` of group `.0`, explained. Both count from 0.
    Entry(u64, u64),
    /// A chart, drawn in a form, by an axis, and in a window; where none is asked for, of all columns, but at most the first 400.
    Chart(Form, Axis, Option<Window>),
    /// Its trace events, as JSON.
    Events,
}
