//! Entries of a partition's history, played again.
ghost use Rattle.std.specs.Prelude.{◌≡◌, ◌<◌, true, length, Some};
ghost use Rattle.rt_task.specs.declared.Act.TheVariants as acts;
ghost use Rattle.group_jobs.specs.Kept.{cpu_of};
ghost use Rattle.group_jobs.specs.GroupJobs.{IsTaskOf, is_op_reply};
ghost use Rattle.part_state.specs.Entries.{after_entry};
ghost use Rattle.part_state.specs.States.{after_act};
ghost use Rattle.split_writer.specs.inside.Replays.{CanAct, CanPlay, IsOpReply, is_irq_reply};

use part_state::PartState;
use rt_base::CpuNo;
use rt_rules::Reply;
use rt_task::{Act, Op, Task};
use split_rules::{SplitAct, SplitEntry};

/// An interrupt that was answered so.
fn play_irq(state: &mut PartState, cpu: CpuNo, reply: Reply)
    requires cpu { cpu.0 < length state.old.kept.cpus }
    requires reply { is_irq_reply reply ≡ true }
    ensures { (all : _) → state.new ≡ after_act all cpu.0 acts.Irq reply state.old }
{
    match reply {
        Reply::Runs(task) => state.interrupt(cpu, Some(task)),
        Reply::Idles => state.interrupt(cpu, None),
        _ => {}
    }
}

fn is_done(reply: Reply) -> bool
    ensures { result ≡ is_op_reply reply }
{
    matches!(reply, Reply::Done | Reply::Granted | Reply::Queued)
}

/// An operation of what the processor runs that was answered so.
fn play_op(state: &mut PartState, tasks: &[Task], cpu: CpuNo, op: Op, reply: Reply)
    requires cpu { cpu.0 < length state.old.kept.cpus }
    requires runs { (t : _) → (cpu_of state.old.kept cpu.0).runs ≡ Some t
        → IsTaskOf state.old.kept tasks.now t }
    requires reply { IsOpReply op reply }
    ensures { state.new ≡ after_act tasks.now cpu.0 (acts.Do op) reply state.old }
{
    if !is_done(reply) {
        return;
    }
    if let Some(task) = state.runs(cpu) {
        state.operate(tasks, cpu, task, op, reply);
    }
}

/// An act that was answered so.
fn play_act(state: &mut PartState, tasks: &[Task], cpu: CpuNo, act: Act, reply: Reply)
    requires { CanAct tasks.now cpu.0 act reply state.old }
    ensures { state.new ≡ after_act tasks.now cpu.0 act reply state.old }
{
    match act {
        Act::Tick | Act::Arrive(_) => {}
        Act::Irq => play_irq(state, cpu, reply),
        Act::Do(op) => play_op(state, tasks, cpu, op, reply),
    }
}

/// Plays an entry of the processor's partition again.
pub(crate) fn play(state: &mut PartState, tasks: &[Task], cpu: CpuNo, entry: &SplitEntry)
    requires { CanPlay tasks.now cpu.0 entry.now state.old }
    ensures { state.new ≡ after_entry tasks.now cpu.0 entry.now state.old }
{
    match entry.act {
        SplitAct::Plain(act) => {
            state.move_clock(entry.tick);
            play_act(state, tasks, cpu, act, entry.reply);
        }
        SplitAct::Take { sem, task, .. } => state.take(task, sem),
    }
}
