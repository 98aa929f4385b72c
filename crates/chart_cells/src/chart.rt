//! A chart: the rows of each group.
use crate::cells::{CpuCell, Run};
use rt_base::{CpuNo, GroupNo, ResvNo, TaskNo, Tick};

/// What a task does in each column, run by run.
#[derive(Drop)]
pub struct TaskRow {
    pub task: TaskNo,
    pub runs: Vec<Run>,
}

/// What a processor does in each column.
#[derive(Drop)]
pub struct CpuRow {
    pub cpu: CpuNo,
    pub cells: Vec<CpuCell>,
}

/// What is left of a reservation's budget in each column.
#[derive(Drop)]
pub struct ResvRow {
    pub resv: ResvNo,
    pub left: Vec<u64>,
}

/// A group: of each column its label and the last of its clocks; the clock at the end; and the rows.
#[derive(Drop)]
pub struct Panel {
    pub group: GroupNo,
    pub labels: Vec<u64>,
    pub clocks: Vec<u64>,
    pub last: Tick,
    pub tasks: Vec<TaskRow>,
    pub cpus: Vec<CpuRow>,
    pub resvs: Vec<ResvRow>,
}

/// How many columns the longest group has, in the window and beyond, and the groups.
#[derive(Drop)]
pub struct Chart {
    pub length: u64,
    pub panels: Vec<Panel>,
}
