//! Acts as views are shown them.
use rt_base::{CpuNo, TaskNo};
use rt_rules::Reply;
use rt_task::Act;

/// An act of a processor: the task that the processor ran, the reply, and the task whose job the act ended, by End or by force.
#[derive(Clone, Copy)]
pub struct ShownAct {
    pub cpu: CpuNo,
    pub act: Act,
    pub task: Option<TaskNo>,
    pub reply: Reply,
    pub ended: Option<TaskNo>,
}
