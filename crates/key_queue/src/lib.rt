//! Tasks that wait, in the order of asking, of which the one of the highest key leaves first.
#![tactic(auto)]

mod line;
mod queue;

pub use line::TaskLine;
pub use queue::KeyQueue;
