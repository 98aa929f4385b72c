//! An entry as tools are shown it.
ghost use Rattle.std.specs.Prelude.{◌≡◌};
ghost use Rattle.trace_text.specs.CountLines.{ended_late, ended_task};

use rt_base::{GroupNo, TaskNo};
use rt_rules::Entry;
use trace_tools::Shown;

/// An entry with its number, as tools are shown it, by the task whose job it ended and whether that was late.
pub fn shown_by(group: GroupNo, no: u32, entry: Entry, ended: Option<(TaskNo, bool)>) -> Shown
    ensures { result ≡ record {
      group = group;
      no = no;
      entry = entry;
      ended = ended_task ended;
      late = ended_late ended;
    } }
{
    match ended {
        Some((task, late)) => Shown {
            group,
            no,
            entry,
            ended: Some(task),
            late,
        },
        None => Shown {
            group,
            no,
            entry,
            ended: None,
            late: false,
        },
    }
}
