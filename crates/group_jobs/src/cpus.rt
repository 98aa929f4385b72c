//! A processor: what it runs, and when it worked last.
ghost use Rattle.std.specs.Prelude.{◌≡◌, true};
ghost use Rattle.rt_model.specs.Runs.{leaves};
ghost use Rattle.group_jobs.specs.GroupJobs.{cpu_left, is_op_reply};
ghost use Rattle.group_jobs.specs.States.{cpu_seen};

use rt_base::TaskNo;
use rt_rules::Reply;
use rt_task::{Act, Op};

/// The task that the processor runs, and the clock of its last Work.
#[derive(Clone, Copy, PartialEq, Eq)]
pub(crate) struct CpuState {
    pub(crate) runs: Option<TaskNo>,
    pub(crate) worked: Option<u64>,
}

impl CpuState {
    /// A processor that runs nothing and has never worked.
    pub(crate) const IDLE: CpuState = CpuState {
        runs: None,
        worked: None,
    };

    /// After an operation at this clock that leaves it or not.
    pub(crate) fn after(self, clock: u64, op: Op, is_left: bool) -> CpuState
        ensures { cpu_seen result ≡ cpu_left clock op is_left (cpu_seen self) }
    {
        CpuState {
            runs: if is_left { None } else { self.runs },
            worked: if op == Op::Work {
                Some(clock)
            } else {
                self.worked
            },
        }
    }
}

/// Whether an accepted operation leaves nothing running, but for the end of a job: a Sleep, and a Lock that is queued.
pub(crate) fn leaves_nothing(op: Op, reply: Reply) -> bool
    requires { is_op_reply reply ≡ true }
    ensures { result ≡ leaves (Act.Do op) reply }
{
    matches!(op, Op::Sleep(_)) || reply == Reply::Queued
}
