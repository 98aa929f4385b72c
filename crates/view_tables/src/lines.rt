//! The lines of the tables.
ghost use Rattle.std.specs.Prelude.{◌≡◌, ◌++◌, OnOk};
ghost use Rattle.rt_model.specs.Group as groups;
ghost use Rattle.rt_model.specs.Group.{Group};
ghost use Rattle.table_texts.specs.Fields.{line_of};
ghost use Rattle.table_texts.specs.JobText.{job_fields, outcome_word};
ghost use Rattle.table_texts.specs.TaskText.{task_fields};
ghost use Rattle.job_views.specs.RowsShown.{outcome_shown, row_shown};
ghost use Rattle.job_views.specs.TaskRowsShown.{task_row_shown};

use crate::fields::{
    put_integer_or_none, put_number, put_number_or_none, put_sum_or_none, put_text,
};
use job_views::{JobRow, Outcome, TaskRow};
use rt_base::NoMemory;

fn word_of(outcome: Outcome) -> &'static [u8]
    ensures { result.now ≡ outcome_word (outcome_shown outcome) }
{
    match outcome {
        Outcome::Kept => b"kept",
        Outcome::Late => b"late",
        Outcome::Missed => b"missed",
        Outcome::Open => b"open",
    }
}

/// The line of a job of the task with this name.
pub(crate) fn put_job(text: &mut Vec<u8>, name: &[u8], row: &JobRow) -> Result<(), NoMemory>
    ensures { OnOk result ((g : Group) → (groups.task g row.now.task.0).name ≡ name.now
        → text.new.items ≡ text.old.items ++ line_of (job_fields g (row_shown row.now))) }
{
    put_text(text, name, b',')?;
    put_number(text, u64::from(row.job), b',')?;
    put_number(text, row.release, b',')?;
    put_number(text, row.deadline, b',')?;
    put_number_or_none(text, row.start)?;
    put_number_or_none(text, row.finish)?;
    put_number_or_none(text, row.end)?;
    put_text(text, word_of(row.outcome), b',')?;
    put_number(text, u64::from(row.units), b',')?;
    put_integer_or_none(text, row.response)?;
    put_integer_or_none(text, row.lateness)?;
    put_number(text, u64::from(row.preemptions), b',')?;
    put_number(text, u64::from(row.migrations), b',')?;
    put_number(text, u64::from(row.moves), b',')?;
    put_number(text, u64::from(row.requests), b',')?;
    put_number(text, u64::from(row.queued), b',')?;
    put_number(text, row.ends, b',')?;
    put_number(text, row.ends_all, b'\n')
}

/// The line of a task with this name.
pub(crate) fn put_task(text: &mut Vec<u8>, name: &[u8], row: &TaskRow) -> Result<(), NoMemory>
    ensures { OnOk result ((g : Group) → (groups.task g row.now.task.0).name ≡ name.now
        → text.new.items ≡ text.old.items ++ line_of (task_fields g (task_row_shown row.now))) }
{
    put_text(text, name, b',')?;
    put_number(text, row.released, b',')?;
    put_number(text, u64::from(row.ended), b',')?;
    put_number(text, u64::from(row.late), b',')?;
    put_number(text, row.missed, b',')?;
    put_number(text, row.units, b',')?;
    put_integer_or_none(text, row.response_max)?;
    put_sum_or_none(text, row.response_sum)?;
    put_integer_or_none(text, row.lateness_max)?;
    put_number(text, row.preemptions, b',')?;
    put_number(text, row.migrations, b',')?;
    put_number(text, row.moves, b',')?;
    put_number(text, row.requests, b',')?;
    put_number(text, row.queued, b',')?;
    put_number(text, u64::from(row.ends_max), b',')?;
    put_number(text, u64::from(row.ends_all_max), b'\n')
}
