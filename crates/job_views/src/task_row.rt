//! The lines of the table of tasks.
use rt_base::TaskNo;

/// A line: what the jobs of a task have come to. What no job has come to is missing.
#[derive(Clone, Copy)]
pub struct TaskRow {
    pub task: TaskNo,
    pub released: u64,
    pub ended: u32,
    pub late: u32,
    /// Jobs that have not ended and whose deadline is over.
    pub missed: u64,
    pub units: u64,
    pub response_max: Option<i64>,
    pub response_sum: Option<i128>,
    pub lateness_max: Option<i64>,
    pub preemptions: u64,
    pub migrations: u64,
    pub moves: u64,
    pub requests: u64,
    pub queued: u64,
    /// The most critical sections that one of its requests saw end while it was priority-blocked, and in all.
    pub ends_max: u32,
    pub ends_all_max: u32,
}
