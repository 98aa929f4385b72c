//! What an act does, read off its step and its reply.
ghost use Rattle.std.specs.Prelude.{◌≡◌, ◌&&◌, is_some};
ghost use Rattle.rt_base.specs.TaskNos.{number_of_task};
ghost use Rattle.rt_model.specs.Past.{accepted};
ghost use Rattle.trace_views.specs.JobCounts.{is_queued_reply, is_switch_reply, taken_up};
ghost use Rattle.job_facts.specs.Deeds as deeds;
ghost use Rattle.view_acts.specs.ShownActs.{act_shown};

use rt_base::TaskNo;
use rt_rules::Reply;
use rt_task::{Act, Op};
use view_acts::ShownAct;

fn is_accepted(reply: Reply) -> bool
    ensures { result ≡ accepted reply }
{
    matches!(
        reply,
        Reply::Done | Reply::Runs(_) | Reply::Idles | Reply::Granted | Reply::Queued
    )
}

/// A unit of work.
pub(crate) fn works(act: Act, reply: Reply) -> bool
    ensures { result ≡ deeds.works act reply }
{
    matches!(act, Act::Do(Op::Work)) && is_accepted(reply)
}

/// An accepted Lock.
pub(crate) fn locks(act: Act, reply: Reply) -> bool
    ensures { result ≡ deeds.locks act reply }
{
    matches!(act, Act::Do(Op::Lock(_))) && is_accepted(reply)
}

/// Whether an act is a request, of whatever task its processor ran.
pub(crate) fn asks(act: &ShownAct) -> bool
    ensures { let d = act_shown act.now in result ≡ is_some d.task && deeds.locks d.act d.reply }
{
    act.task.is_some() && locks(act.act, act.reply)
}

/// An interrupt after which the processor runs something else, or nothing.
pub(crate) fn is_switch(reply: Reply) -> bool
    ensures { result ≡ is_switch_reply reply }
{
    matches!(reply, Reply::Runs(_) | Reply::Idles)
}

/// A request that waits.
pub(crate) fn is_queued(reply: Reply) -> bool
    ensures { result ≡ is_queued_reply reply }
{
    matches!(reply, Reply::Queued)
}

/// The task that a processor takes up.
pub(crate) fn taken_up(reply: Reply) -> Option<TaskNo>
    ensures { number_of_task result ≡ taken_up reply }
{
    match reply {
        Reply::Runs(task) => Some(task),
        _ => None,
    }
}

/// The task of which a job arrives.
pub(crate) fn arrived(act: Act, reply: Reply) -> Option<TaskNo>
    ensures { number_of_task result ≡ deeds.arrived_task act reply }
{
    match act {
        Act::Arrive(task) if is_accepted(reply) => Some(task),
        _ => None,
    }
}

/// The task that has worked on a processor since that switched last.
pub(crate) fn worker_after(
    act: Act,
    reply: Reply,
    task: Option<TaskNo>,
    before: Option<TaskNo>,
) -> Option<TaskNo>
    ensures { number_of_task result
        ≡ deeds.worker_after act reply (number_of_task task) (number_of_task before) }
{
    if is_switch(reply) {
        return None;
    }
    if works(act, reply) {
        return task.or(before);
    }
    before
}
