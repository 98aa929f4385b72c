//! The text of a table.
ghost use Rattle.std.specs.Prelude.{◌≡◌, ◌++◌, IfOk, OnOk};
ghost use Rattle.rt_plays.specs.Groups.{IsGroupOf, group_of, past};
ghost use Rattle.trace_text.specs.Groups.{AreGroupsOf, histories};
ghost use Rattle.view_tables.specs.Texts as texts;
ghost use Rattle.view_tables.specs.Texts.{columns, group_text};

use crate::played::Played;
use crate::tables::{Table, put_group};
use rt_base::{GroupNo, NoMemory};
use rt_task::Setup;
use std::alloc::Global;
use trace_text::PlayedGroup;

const JOB_COLUMNS: &[u8] =
    b"task,job,release,deadline,start,finish,end,outcome,units,response,lateness,preemptions,migrations,moves,requests,queued,ends,ends_all\n";

const TASK_COLUMNS: &[u8] =
    b"task,released,ended,late,missed,units,response_max,response_sum,lateness_max,preemptions,migrations,moves,requests,queued,ends_max,ends_all_max\n";

/// The names of the columns, with a line feed.
fn columns_of(table: Table) -> &'static [u8]
    ensures { result.now ≡ columns table }
{
    match table {
        Table::Jobs => JOB_COLUMNS,
        Table::Tasks => TASK_COLUMNS,
    }
}

/// The lines of a group, whose history is played again.
fn put_played(
    alloc: Global,
    text: &mut Vec<u8>,
    table: Table,
    setup: &Setup,
    number: GroupNo,
    group: &PlayedGroup,
) -> Result<(), NoMemory>
    requires there { IsGroupOf setup.now number.0 }
    requires setup { group.now.setup ≡ setup.now }
    requires number { group.now.group ≡ number.0 }
    ensures { let h = group.now in OnOk result
        (text.new.items ≡ text.old.items ++ group_text table (group_of h) (past h)) }
{
    let played = Played::of(alloc, setup, number, group.entries())?;
    put_group(text, table, setup, number, &played)
}

/// The text of a table of a setup and the histories of its groups, one for each group by rising number. Each history is
/// played again; memory is taken for the text, and for the jobs and requests of one group at a time.
pub fn table_text(
    alloc: Global,
    table: Table,
    setup: &Setup,
    groups: &[PlayedGroup],
) -> Result<Vec<u8>, NoMemory>
    requires { AreGroupsOf setup.now groups.now }
    ensures { IfOk result
        (λ v. v.items ≡ texts.table_text table setup.now (histories groups.now)) }
{
    // A proof knows that a setup is valid once its parts are read.
    let _parts = setup.parts();
    let mut text = Vec::from_slice(alloc, columns_of(table))?;
    for (i, group) in groups.iter().enumerate() {
        put_played(alloc, &mut text, table, setup, GroupNo(i as u32), group)?;
    }
    Ok(text)
}
