//! What an act that was answered makes of the state.
ghost use Rattle.std.specs.Prelude.{◌≡◌, ℕ, ◌<◌, true, length, Some};
ghost use Rattle.split_set.specs.SplitSets.{is_split_act};
ghost use Rattle.group_jobs.specs.Kept.{cpu_of};
ghost use Rattle.group_jobs.specs.GroupJobs.{IsTaskOf, is_op_reply};
ghost use Rattle.group_jobs.specs.States.{SleepIsShort};
ghost use Rattle.rt_task.specs.declared.Act.TheVariants as acts;
ghost use Rattle.part_state.specs.States.{after_act};
ghost use Rattle.part_player.specs.inside.Replies.{can_come};

use part_state::PartState;
use rt_base::CpuNo;
use rt_rules::Reply;
use rt_task::{Act, Op, Task};

/// The processor did the act, which was answered so.
pub(crate) fn act(state: &mut PartState, tasks: &[Task], cpu: CpuNo, act: Act, reply: Reply)
    requires cpu { cpu.0 < length state.old.kept.cpus }
    requires split { is_split_act act ≡ true }
    requires comes { can_come act reply ≡ true }
    requires runs { (t : ℕ) → (cpu_of state.old.kept cpu.0).runs ≡ Some t
        → IsTaskOf state.old.kept tasks.now t }
    ensures { state.new ≡ after_act tasks.now cpu.0 act reply state.old }
{
    match (act, reply) {
        (Act::Irq, Reply::Runs(task)) => state.interrupt(cpu, Some(task)),
        (Act::Irq, Reply::Idles) => state.interrupt(cpu, None),
        (Act::Do(op), Reply::Done | Reply::Granted | Reply::Queued) => {
            operate(state, tasks, cpu, op, reply);
        }
        _ => {}
    }
}

/// The job that the processor runs, if it runs one, did the operation, which was accepted with this reply.
fn operate(state: &mut PartState, tasks: &[Task], cpu: CpuNo, op: Op, reply: Reply)
    requires cpu { cpu.0 < length state.old.kept.cpus }
    requires sleep { SleepIsShort op }
    requires reply { is_op_reply reply ≡ true }
    requires runs { (t : ℕ) → (cpu_of state.old.kept cpu.0).runs ≡ Some t
        → IsTaskOf state.old.kept tasks.now t }
    ensures { state.new ≡ after_act tasks.now cpu.0 (acts.Do op) reply state.old }
{
    if let Some(task) = state.runs(cpu) {
        state.operate(tasks, cpu, task, op, reply);
    }
}
