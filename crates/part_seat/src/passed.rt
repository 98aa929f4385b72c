//! What a step comes to.
use rt_base::{SemNo, TaskNo};
use split_rules::SplitEntry;

/// What a release passed on: entry `no` of the semaphore's history made the task its holder.
#[derive(Clone, Copy)]
pub struct Passed {
    pub sem: SemNo,
    pub no: u32,
    pub task: TaskNo,
}

/// A step of the script that was played, and what it passed on.
#[derive(Clone, Copy)]
pub struct PlayedStep {
    pub entry: SplitEntry,
    pub passed: Option<Passed>,
}

/// What came of a step.
#[derive(Clone, Copy)]
pub enum Played2 {
    /// The partition's history has this entry more.
    Did(SplitEntry),
    /// The script is played, and nothing was taken from the inbox.
    Ended,
}
