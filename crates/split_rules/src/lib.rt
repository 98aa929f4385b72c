//! Split runs: each processor plays its own partition, and each semaphore has a history of its own. The entries of both
//! histories, and the definitions of what they have to be.
#![tactic(auto)]

use rt_base::{Ask, CpuNo, SemNo, TaskNo, Tick};
use rt_rules::Reply;
use rt_task::Act;

/// One entry of a semaphore's history: what a task of a processor did at it, and what came of it.
#[derive(Clone, Copy, PartialEq, Eq)]
pub struct SemEntry {
    pub cpu: CpuNo,
    pub task: TaskNo,
    pub act: SemAct,
}

/// What a task does at a semaphore.
#[derive(Clone, Copy, PartialEq, Eq)]
pub enum SemAct {
    /// It asks for the semaphore, and is answered this.
    Ask(Ask),
    /// It frees the semaphore, which this task then holds; none where nobody waited.
    Release(Option<TaskNo>),
}

/// One entry of a partition's history.
#[derive(Clone, Copy, PartialEq, Eq)]
pub struct SplitEntry {
    pub tick: Tick,
    pub act: SplitAct,
    pub reply: Reply,
}

/// What a partition does.
#[derive(Clone, Copy, PartialEq, Eq)]
pub enum SplitAct {
    /// A step of its processor's script.
    Plain(Act),
    /// It takes a grant: entry `no` of the history of the semaphore, a release, granted it to the task.
    Take { sem: SemNo, no: u32, task: TaskNo },
}
