//! The formats of a trace, and how its lines name the tasks of its set.
ghost use Rattle.std.specs.Option.{option_copied};
ghost use Rattle.std.specs.Prelude.{◌≡◌, ◌-◌, ◌==◌, None, slice_get, if◌then◌else◌};
ghost use Rattle.trace_lines.specs.FirstLine as lines;
ghost use Rattle.trace_lines.specs.Known.{name_at, task_names};

use rt_base::TaskNo;
use rt_task::{Parts, Task};

/// A format of a trace.
#[derive(Clone, Copy, Debug, PartialEq, Eq)]
pub enum Version {
    /// Format 1: a task stands as its number.
    One,
    /// Format 2: a task stands as an `@` and its name.
    Two,
}

/// The format of a trace, and the set whose tasks its lines name.
#[derive(Clone, Copy)]
pub struct Format<'a> {
    pub version: Version,
    pub parts: &'a Parts,
}

/// The first line of a trace of this format, with its line feed.
pub fn first_line(version: Version) -> &'static [u8]
    ensures { result.now ≡ lines.first_line version }
{
    match version {
        Version::One => b"rtsched trace 1\n",
        Version::Two => b"rtsched trace 2\n",
    }
}

/// The task of a number from 1, if there is one.
fn task_at(tasks: &[Task], number: u32) -> Option<&Task>
    ensures { option_copied result
        ≡ (if number == 0 then None else slice_get tasks.now (number - 1)) }
{
    tasks.get(number.checked_sub(1)? as usize)
}

/// The name of a task; a number that stands for none has the empty name.
pub(crate) fn name_of(tasks: &[Task], task: TaskNo) -> &[u8]
    ensures { result.now ≡ name_at (task_names tasks.now) task.0 }
{
    match task_at(tasks, task.0) {
        Some(task) => task.name.as_slice(),
        None => &[],
    }
}
