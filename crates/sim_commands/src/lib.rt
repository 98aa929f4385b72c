//! The commands of `rtsim`: playing the steps of modelled processors in a given order and printing the trace, checking a trace,
//! upgrading a trace to format 2, and summing up what a generated set comes to.
#![tactic(auto)]

mod check;
mod dispatch;
mod load;
mod play_set;
mod trace_input;
mod upgrade;
mod verdict_line;
mod words;

pub use dispatch::sim;
pub use trace_input::read_trace_input;

/// The words that are commands, as they are said.
pub const USAGE: &str = "usage: rtsim sim, rtsim check, rtsim load N, rtsim upgrade";
