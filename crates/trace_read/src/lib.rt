//! Reads the text of a trace, in each of its formats: its set, and its lines up to the first that is none of the grammar.
#![tactic(auto)]

mod acts;
mod canonical_set;
mod entries;
mod fault;
mod fits;
mod head;
mod known;
mod lines;
mod links;
mod mover;
mod parse;
mod plain_steps;
mod put;
mod read;
mod replies;
mod tasks;
mod words;

pub use entries::{behind_line, entry_first};
pub use fault::TraceFault;
pub use head::{TraceHead, read_head};
pub use known::Known;
pub use lines::{Line, LineList, LinkList, Totals};
pub use mover::{Mover, mover_at};
pub use put::put_line;
pub use read::read_trace;
use rt_task::Setup;
use trace_lines::Version;

/// What was read of a trace.
#[derive(Drop)]
pub struct Trace {
    /// The format that the first line names.
    pub version: Version,
    pub setup: Setup,
    /// The lines after the second up to the first that is none of the grammar.
    pub lines: LineList,
    /// The number of that first one, from 1; `None` where there is none.
    pub stop: Option<u32>,
}
