//! The tables of a group.
ghost use Rattle.std.specs.Prelude.{◌≡◌, ◌++◌, ◌<◌, OnOk, length};
ghost use Rattle.rt_plays.specs.Plays.{group_with};
ghost use Rattle.rt_model.specs.Past.{Past};
ghost use Rattle.view_tables.specs.inside.Playing.{HasTask, IsPlayed, group_of};
ghost use Rattle.view_tables.specs.Texts.{group_text, is_of, task_text};

use crate::lines::{put_job, put_task};
use crate::played::Played;
use rt_base::{GroupNo, NoMemory};
use rt_task::{Parts, Setup, Task};

/// Which table.
#[derive(Clone, Copy, PartialEq, Eq)]
pub enum Table {
    /// A line for each job that ended, and for the current job of each task where it is there.
    Jobs,
    /// A line for each task.
    Tasks,
}

/// The lines of the jobs of a task.
fn put_jobs(text: &mut Vec<u8>, played: &Played, task: &Task) -> Result<(), NoMemory>
    requires { (past : Past) × IsPlayed past played.now × HasTask played.now task.now }
    ensures { OnOk result ((past : Past) → IsPlayed past played.now
        → HasTask played.now task.now → text.new.items
        ≡ text.old.items ++ task_text Table.Jobs (group_of played.now) past task.now.number.0) }
{
    let clock = played.replay.now();
    for i in 0..played.table.listed(task, clock) {
        let row = played
            .table
            .row(task, i + 1, clock, played.replay.requests());
        put_job(text, task.name.as_slice(), &row)?;
    }
    Ok(())
}

/// The lines of a task in a table.
fn put_lines(text: &mut Vec<u8>, table: Table, played: &Played, task: &Task) -> Result<(), NoMemory>
    requires { (past : Past) × IsPlayed past played.now × HasTask played.now task.now }
    ensures { OnOk result ((past : Past) → IsPlayed past played.now
        → HasTask played.now task.now → text.new.items
        ≡ text.old.items ++ task_text table (group_of played.now) past task.now.number.0) }
{
    match table {
        Table::Jobs => put_jobs(text, played, task),
        Table::Tasks => {
            let clock = played.replay.now();
            let row = played.table.task_row(task, clock, played.replay.requests());
            put_task(text, task.name.as_slice(), &row)
        }
    }
}

fn is_in_group(parts: &Parts, task: &Task, group: GroupNo) -> bool
    requires { task.now.cluster.0 < length parts.now.clusters }
    ensures { result ≡ is_of group.0 parts.now task.now }
{
    parts.clusters.as_slice()[task.cluster.0 as usize].group == group
}

/// The lines of the tasks of a group in a table.
pub(crate) fn put_group(
    text: &mut Vec<u8>,
    table: Table,
    setup: &Setup,
    group: GroupNo,
    played: &Played,
) -> Result<(), NoMemory>
    requires group { group_of played.now ≡ group_with setup.now group.0 }
    requires played { (past : Past) × IsPlayed past played.now }
    ensures { OnOk result ((past : Past) → IsPlayed past played.now → text.new.items
        ≡ text.old.items ++ group_text table (group_of played.now) past) }
{
    let parts = setup.parts();
    for task in parts.tasks.as_slice() {
        if is_in_group(parts, task, group) {
            put_lines(text, table, played, task)?;
        }
    }
    Ok(())
}
