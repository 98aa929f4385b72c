//! Split runs: the processors of a set play their partitions beside each other, and share nothing but a turn for each
//! semaphore and an inbox for each processor.
#![tactic(auto)]

mod closing;
mod deal;
mod end;
mod opening;
mod senders;
mod split;

pub use end::{PartHistories, SemHistories, SplitEnd};
pub use split::Split;
