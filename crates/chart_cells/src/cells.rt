//! What is so in one column: of a task and of a processor.
use rt_base::{CpuNo, SemNo, TaskNo};

/// What a task does in a column.
#[derive(Drop)]
pub enum Doing {
    /// It works on these processors, in order.
    Works(Vec<CpuNo>),
    /// It waits for the semaphore, and is priority-blocked.
    Blocked(SemNo),
    /// It waits for the semaphore.
    Waits(SemNo),
    /// It sleeps.
    Sleeping,
    /// These processors run it, and it does no unit.
    Running(Vec<CpuNo>),
    /// Its job is there.
    Ready,
    /// Its job is not there.
    Away,
}

/// A task in a column.
#[derive(Drop)]
pub struct Cell {
    pub doing: Doing,
    /// The number of its job, from 1; 0 where there is none.
    pub job: u64,
    /// The semaphores that it holds, by number.
    pub held: Vec<SemNo>,
    pub non_preemptive: bool,
    /// Whether its key is raised by a semaphore.
    pub raised: bool,
}

/// The marks of a task in a column: a release at its start, and at its end a deadline, whether that is missed, and the end of a
/// job.
#[derive(Clone, Copy, PartialEq, Eq)]
pub struct Marks {
    pub release: bool,
    pub deadline: bool,
    pub missed: bool,
    pub end: bool,
}

/// Columns side by side in which a task does the same: its cell, and the marks of each column.
#[derive(Drop)]
pub struct Run {
    pub cell: Cell,
    pub marks: Vec<Marks>,
}

/// What a processor does in a column.
#[derive(Clone, Copy, PartialEq, Eq)]
pub enum Playing {
    /// It works for the task.
    WorksFor(TaskNo),
    /// It runs the task, and does no unit.
    RunsTask(TaskNo),
    /// It runs nothing.
    Idle,
}

/// A processor in a column.
#[derive(Clone, Copy, PartialEq, Eq)]
pub struct CpuCell {
    pub playing: Playing,
    pub link: Option<TaskNo>,
}
