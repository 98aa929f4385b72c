//! A unit of work, with what was so before it.
ghost use Rattle.std.specs.Prelude.{◌≡◌, ◌&&◌};
ghost use Rattle.rt_model.specs.Past.{accepted, is_work, operation};

use chart_cells::Cell;
use rt_base::{ResvNo, TaskNo};
use rt_rules::Reply;
use rt_task::{Act, Op};
use view_acts::ShownAct;

/// A unit of work: the task that does it, what the state before it shows of the task, the link of its processor, and the
/// reservation of the task with what is left of it.
#[derive(Drop)]
pub struct Unit {
    pub task: TaskNo,
    pub cell: Cell,
    pub link: Option<TaskNo>,
    pub resv: Option<ResvNo>,
    pub left: u64,
}

/// Whether an act with this reply was done.
pub fn is_accepted(reply: Reply) -> bool
    ensures { result ≡ accepted reply }
{
    matches!(
        reply,
        Reply::Done | Reply::Runs(_) | Reply::Idles | Reply::Granted | Reply::Queued
    )
}

/// Whether the act asks for a unit of work.
pub(crate) fn asks_work(act: Act) -> bool
    ensures { result ≡ is_work (operation act) }
{
    matches!(act, Act::Do(Op::Work))
}

/// Whether the act is a unit of work.
pub(crate) fn is_unit(act: &ShownAct) -> bool
    ensures { result ≡ accepted act.now.reply && is_work (operation act.now.act) }
{
    is_accepted(act.reply) && asks_work(act.act)
}
