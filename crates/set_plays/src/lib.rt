//! Playing a set on one thread: the steps of each of its groups, one after another, in the order of one thread.
//!
//! A group's steps are handed out one by one, so that whoever plays them can write a line for each as it is played.
#![tactic(auto)]

mod group_steps;
mod groups;
mod scripts;
mod steps_left;
mod turns_left;

pub use group_steps::GroupSteps;
pub use scripts::Scripts;
pub use steps_left::StepsLeft;
pub use turns_left::TurnsLeft;
