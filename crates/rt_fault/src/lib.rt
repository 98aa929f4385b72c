//! Where the bytes of a run come from and where they go: sources and sinks that count their faults, over memory and
//! over std's readers and writers; reading a whole source, writing a whole text, and the status that a run ends with.
#![tactic(auto)]

mod input;
mod kept;
mod memory;
mod output;
mod plan;
mod reading;
mod rest;
mod status;
mod std_edge;
mod sure;
mod writing;

pub use input::{Failed, Source};
pub use memory::{MemSink, MemSource};
pub use output::Sink;
pub use reading::{ReadStop, read_all};
pub use status::Status;
pub use std_edge::{StdSink, StdSource, WRITTEN_AT_ONCE};
pub use sure::{SureSink, SureSource};
pub use writing::put_all;
