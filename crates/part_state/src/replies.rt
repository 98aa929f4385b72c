//! What an act of a partition's processor comes to.
ghost use Rattle.std.specs.Prelude.{◌≡◌, ◌<◌, ◌≤◌, false, length};
ghost use Rattle.rt_base.specs.TaskNos.{number_of_task};
ghost use Rattle.group_jobs.specs.Replies as told;
ghost use Rattle.group_jobs.specs.Kept.{cpu_of};
ghost use Rattle.group_jobs.specs.GroupJobs.{RunsTask};
ghost use Rattle.part_state.specs.Uses.{is_declared};
ghost use Rattle.part_state.specs.Replies as words;

use crate::state::PartState;
use rt_base::{CpuNo, SemNo, TaskNo};
use rt_rules::Reply;
use rt_task::{Act, Op, Parts};

/// What an act comes to, as far as the partition says it alone.
#[derive(Clone, Copy)]
pub enum PartReply {
    /// It is answered so.
    Is(Reply),
    /// The task asks for the semaphore, and the act is answered as its request there is.
    Asks(TaskNo, SemNo),
    /// The task, which holds the semaphore, frees it, and the act is done.
    Frees(TaskNo, SemNo),
}

fn declares(uses: &[SemNo], sem: SemNo) -> bool
    ensures { result ≡ is_declared sem uses.now }
{
    for used in uses {
        if sem.0 == used.0 {
            return true;
        }
    }
    false
}

/// The reply to an interrupt of a processor with this link that runs this.
fn irq_reply(link: Option<TaskNo>, runs: Option<TaskNo>) -> Reply
    ensures { result ≡ told.irq_reply (number_of_task link) (number_of_task runs) false }
{
    if link == runs {
        return Reply::Quiet;
    }
    match link {
        None => Reply::Idles,
        Some(task) => Reply::Runs(task),
    }
}

impl PartState {
    /// What the act of the processor, with this link, comes to.
    pub fn reply(&self, parts: &Parts, cpu: CpuNo, link: Option<TaskNo>, act: Act) -> PartReply
        requires cpu { cpu.0 < length self.now.kept.cpus }
        requires tasks { length parts.now.tasks ≡ length self.now.kept.jobs }
        requires runs { RunsTask self.now.kept cpu.0 }
        ensures { result
            ≡ words.part_reply parts.now self.now cpu.0 act (number_of_task link) }
    {
        let runs = self.jobs.runs(cpu);
        match act {
            Act::Tick => PartReply::Is(Reply::Done),
            Act::Irq => PartReply::Is(irq_reply(link, runs)),
            Act::Arrive(_) => PartReply::Is(Reply::NotSporadic),
            Act::Do(op) => match runs {
                None => PartReply::Is(Reply::Idle),
                Some(task) => self.op_reply(parts, cpu, task, op),
            },
        }
    }

    /// What an operation of the task that the processor runs comes to.
    fn op_reply(&self, parts: &Parts, cpu: CpuNo, task: TaskNo, op: Op) -> PartReply
        requires cpu { cpu.0 < length self.now.kept.cpus }
        requires low { 1 ≤ task.0 }
        requires high { task.0 ≤ length self.now.kept.jobs }
        requires tasks { length parts.now.tasks ≡ length self.now.kept.jobs }
        ensures { result ≡ words.op_reply parts.now self.now cpu.0 op task.0 }
    {
        let tasks = parts.tasks.as_slice();
        let holds = self.lock(task).holds;
        match op {
            Op::Work => PartReply::Is(self.work_reply(cpu)),
            Op::Lock(sem) => {
                if !declares(tasks[task.0 as usize - 1].uses.as_slice(), sem) {
                    PartReply::Is(Reply::NotDeclared)
                } else if holds.is_some() {
                    PartReply::Is(Reply::Nested)
                } else {
                    PartReply::Asks(task, sem)
                }
            }
            Op::Unlock(sem) => {
                if holds == Some(sem) {
                    PartReply::Frees(task, sem)
                } else {
                    PartReply::Is(Reply::NotHeld)
                }
            }
            Op::End => {
                if holds.is_some() {
                    PartReply::Is(Reply::Holding)
                } else {
                    PartReply::Is(Reply::Done)
                }
            }
            _ => PartReply::Is(Reply::Idle),
        }
    }

    fn work_reply(&self, cpu: CpuNo) -> Reply
        requires { cpu.0 < length self.now.kept.cpus }
        ensures { result
            ≡ told.work_reply self.now.kept.clock (cpu_of self.now.kept cpu.0).worked false }
    {
        if self.jobs.has_worked(cpu) {
            Reply::Spent
        } else {
            Reply::Done
        }
    }
}
