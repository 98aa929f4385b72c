//! The lines of the table of jobs.
use rt_base::TaskNo;

/// How a job came out.
#[derive(Clone, Copy, PartialEq, Eq)]
pub enum Outcome {
    /// It ended by its deadline.
    Kept,
    /// It ended after its deadline.
    Late,
    /// It has not ended, and its deadline is over.
    Missed,
    /// It has not ended, and its deadline is not over.
    Open,
}

/// A line: what a job has come to. Clocks are ticks, and what it has not come to is missing.
#[derive(Clone, Copy)]
pub struct JobRow {
    pub task: TaskNo,
    /// Its number, from 1.
    pub job: u32,
    pub release: u64,
    /// The last tick in time.
    pub deadline: u64,
    /// The clock of its first unit.
    pub start: Option<u64>,
    /// Where it has ended: one more than the clock of its last unit, and without a unit its end.
    pub finish: Option<u64>,
    /// The clock at which it ended.
    pub end: Option<u64>,
    pub outcome: Outcome,
    pub units: u32,
    /// From its release to its finish, below 0 for one that ended before.
    pub response: Option<i64>,
    /// From its deadline to its finish.
    pub lateness: Option<i64>,
    pub preemptions: u32,
    pub migrations: u32,
    pub moves: u32,
    pub requests: u32,
    pub queued: u32,
    /// The critical sections that its requests saw end while it was priority-blocked, and in all.
    pub ends: u64,
    pub ends_all: u64,
}
