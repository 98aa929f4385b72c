//! What trace events tell of groups, as data: what tasks, processors and reservations do, span by span, and when the jobs of
//! tasks are released, due and over. Spans and clocks are in ticks.
use chart_cells::{Cell, CpuCell};
use rt_base::{CpuNo, GroupNo, ResvNo, TaskNo};

/// What a task does from one tick up to another, which is not of the span.
#[derive(Drop)]
pub struct TaskSpan {
    pub from: u64,
    pub to: u64,
    pub cell: Cell,
}

/// What a processor does from one tick up to another, which is not of the span.
#[derive(Clone, Copy, PartialEq, Eq)]
pub struct CpuSpan {
    pub from: u64,
    pub to: u64,
    pub cell: CpuCell,
}

/// What is left of a reservation's budget, in units, from one tick up to another, which is not of the span.
#[derive(Clone, Copy, PartialEq, Eq)]
pub struct BudgetSpan {
    pub from: u64,
    pub to: u64,
    pub left: u64,
}

/// A deadline, which is the last tick in time, and whether it was missed.
#[derive(Clone, Copy, PartialEq, Eq)]
pub struct Due {
    pub tick: u64,
    pub missed: bool,
}

/// A job of a task, by its number from 1.
#[derive(Clone, Copy, PartialEq, Eq)]
pub struct JobMarks {
    pub job: u32,
    /// Where it is at most the last clock.
    pub release: Option<u64>,
    /// Where it is at most the last clock.
    pub deadline: Option<Due>,
    /// The clock at which the job ended, where it did.
    pub end: Option<u64>,
}

/// A task of a group: its spans, and its jobs by number.
#[derive(Drop)]
pub struct TaskTrack {
    pub task: TaskNo,
    pub spans: Vec<TaskSpan>,
    pub jobs: Vec<JobMarks>,
}

/// A processor of a group.
#[derive(Drop)]
pub struct CpuTrack {
    pub cpu: CpuNo,
    pub spans: Vec<CpuSpan>,
}

/// A reservation of a group.
#[derive(Drop)]
pub struct ResvTrack {
    pub resv: ResvNo,
    pub spans: Vec<BudgetSpan>,
}

/// A group: its tasks, processors and reservations, each by rising number.
#[derive(Drop)]
pub struct GroupTracks {
    pub group: GroupNo,
    pub tasks: Vec<TaskTrack>,
    pub cpus: Vec<CpuTrack>,
    pub resvs: Vec<ResvTrack>,
}
