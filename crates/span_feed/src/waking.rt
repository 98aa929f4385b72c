//! The tasks that an act touches rest no more.
ghost use Rattle.std.specs.Prelude.{◌≡◌, ℕ, List, Option, length, map};
ghost use Rattle.rt_base.specs.TaskNos.{number_of_task};
ghost use Rattle.rt_rules.specs.Distinct.{IsDistinct};
ghost use Rattle.view_acts.specs.ShownActs.{act_shown};
ghost use Rattle.chart_rows.specs.Listed.{tasks_listed};
ghost use Rattle.chart_rows.specs.ReadyJobs.{untouched};
ghost use Rattle.chart_rows.specs.declared.ready_jobs.ReadyJob.{ReadyJob};
ghost use Rattle.span_feed.specs.Feeds.{tracks_to};
ghost use Rattle.span_feed.specs.Lane.{track_to};
ghost use Rattle.span_feed.specs.Still.{AreRested};
ghost use Rattle.span_feed.specs.inside.Woken.{AreWoken};

use crate::lane::TaskLane;
use crate::lanes::GroupLanes;
use chart_rows::{Rows, TaskFeed, arriving, position_of};
use rt_base::TaskNo;
use view_acts::ShownAct;

/// The lane of this task, if there is one, in the position of the task's row.
fn wake_task(rows: &[TaskFeed], lanes: &mut [TaskLane], task: Option<TaskNo>)
    requires long { length lanes.old ≡ length rows.now }
    requires once { IsDistinct (tasks_listed rows.now) }
    ensures tracks { (n : ℕ) → map (track_to n) lanes.new ≡ map (track_to n) lanes.old }
    ensures woken { AreWoken (number_of_task task) rows.now lanes.old lanes.new }
{
    let Some(task) = task else {
        return;
    };
    if let Some(position) = position_of(rows, task) {
        lanes[position].wake();
    }
}

fn wake_tasks(rows: &[TaskFeed], lanes: &mut [TaskLane], act: &ShownAct)
    requires long { length lanes.old ≡ length rows.now }
    requires once { IsDistinct (tasks_listed rows.now) }
    ensures tracks { (n : ℕ) → map (track_to n) lanes.new ≡ map (track_to n) lanes.old }
    ensures rested { (js : List (Option ReadyJob)) → AreRested js lanes.old rows.now
        → AreRested (untouched (act_shown act.now) js) lanes.new rows.now }
{
    wake_task(rows, lanes, act.task);
    wake_task(rows, lanes, arriving(act.act));
}

/// The lanes of the tasks that an act touches. Spans stay as they are.
pub(crate) fn wake_touched(rows: &Rows, lanes: &mut GroupLanes, act: &ShownAct)
    requires long { length lanes.old.tasks.items ≡ length rows.now.tasks }
    requires once { IsDistinct (tasks_listed rows.now.tasks) }
    ensures tracks { (n : ℕ) → tracks_to n lanes.new ≡ tracks_to n lanes.old }
    ensures rested { (js : List (Option ReadyJob))
        → AreRested js lanes.old.tasks.items rows.now.tasks
        → AreRested (untouched (act_shown act.now) js) lanes.new.tasks.items rows.now.tasks }
{
    wake_tasks(rows.tasks.as_slice(), lanes.tasks.as_mut_slice(), act);
}
