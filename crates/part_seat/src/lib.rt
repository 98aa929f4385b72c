//! The processors of a split run: each has its own partition, a seat at the turn of each semaphore, and its ends of the
//! inboxes, and plays its script by itself.
#![tactic(auto)]

mod moves;
mod partition;
mod passed;
mod posts;
mod seat;
mod sender;
mod turns;

pub use partition::Partition;
pub use passed::{Passed, Played2, PlayedStep};
pub use seat::PartSeat;
pub use sender::Sender;
