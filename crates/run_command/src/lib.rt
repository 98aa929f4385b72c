//! The commands of `rtrun`: playing the steps or the turns of modelled processors, each processor by a thread of its own, and
//! printing the trace; and playing the partitions of a split set so, and printing what comes about.
#![tactic(auto)]

mod dispatch;
mod play_set;
mod play_split;
mod words;

pub use dispatch::run;

/// The words that are commands, as they are said.
pub const USAGE: &str = "usage: rtrun run, rtrun split";
