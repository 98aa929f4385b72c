//! The text of a split run, as bytes: the histories of its semaphores and of its partitions, with the links that are found by
//! playing these again.
#![tactic(auto)]

mod links;
mod partition;
mod parts;
mod replay;
mod sems;
mod text;

pub use text::split_text_of;
