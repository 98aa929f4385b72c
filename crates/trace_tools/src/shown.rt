//! Entries as tools are shown them.
use rt_base::{GroupNo, TaskNo};
use rt_rules::Entry;

/// An entry of a trace, as a tool is shown it.
#[derive(Clone, Copy, PartialEq, Eq)]
pub struct Shown {
    /// The group whose entry it is.
    pub group: GroupNo,
    /// The number of the entry in its group, from 0.
    pub no: u32,
    /// The entry.
    pub entry: Entry,
    /// The task whose job it ended, by End or by force.
    pub ended: Option<TaskNo>,
    /// Whether the clock was then past the job's deadline.
    pub late: bool,
}
