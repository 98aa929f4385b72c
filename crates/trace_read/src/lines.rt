//! The lines of a trace as values.
use rt_base::{GroupNo, SemNo, TaskNo};
use rt_rules::Entry;
use rt_task::Items;
use trace_lines::CpuLink;

/// Processors and the tasks that they are linked to.
pub type LinkList = Items<CpuLink>;

/// What a tool counted, in order.
pub type Totals = Items<u64>;

/// A line of a trace after its first two.
#[derive(Drop)]
pub enum Line {
    /// A group, and the links of its processors at opening.
    GroupLine {
        group: GroupNo,
        links: LinkList,
    },
    /// An entry by its number in its group, from 0, and the links that it changed.
    EntryLine {
        no: u32,
        entry: Entry,
        links: LinkList,
    },
    /// A request by the number of its entry: the critical sections that ended while its task was blocked, all that
    /// ended while it waited, and the bound on them.
    BlockLine {
        no: u32,
        task: TaskNo,
        sem: SemNo,
        ends: u32,
        ends_all: u32,
        bound: Option<u32>,
    },
    /// The end of the groups.
    EndLine,
    /// What a tool, which is named by a letter, counted.
    CountLine {
        name: u8,
        totals: Totals,
    },
}

/// The lines of a trace after its first two.
pub type LineList = Items<Line>;
