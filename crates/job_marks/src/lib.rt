//! When the jobs of a group arrived and ended, as its history goes on, and the marks of its jobs that follow.
#![tactic(auto)]

mod arrived;
mod job_times;
mod moves;
mod releases;
mod task_times;

pub use job_times::JobTimes;
