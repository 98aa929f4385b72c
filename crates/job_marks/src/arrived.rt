//! The task of which a job arrives.
ghost use Rattle.std.specs.Prelude.{◌≡◌};
ghost use Rattle.rt_base.specs.TaskNos.{number_of_task};
ghost use Rattle.rt_model.specs.Past.{accepted};
ghost use Rattle.job_facts.specs.Deeds.{arrived_task};

use rt_base::TaskNo;
use rt_rules::Reply;
use rt_task::Act;

fn is_accepted(reply: Reply) -> bool
    ensures { result ≡ accepted reply }
{
    matches!(
        reply,
        Reply::Done | Reply::Runs(_) | Reply::Idles | Reply::Granted | Reply::Queued
    )
}

/// The task of which an act is an arrival, where the reply accepts that.
pub(crate) fn arrived(act: Act, reply: Reply) -> Option<TaskNo>
    ensures { number_of_task result ≡ arrived_task act reply }
{
    match act {
        Act::Arrive(task) if is_accepted(reply) => Some(task),
        _ => None,
    }
}
