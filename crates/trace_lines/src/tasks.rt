//! Tasks, as a format writes them.
ghost use Rattle.std.specs.Prelude.{◌≡◌, ◌++◌, ◌∷◌, [], OnOk};
ghost use Rattle.rt_base.specs.TaskNos.{number_of_task};
ghost use Rattle.trace_lines.specs.Words.{further};
ghost use Rattle.trace_lines.specs.Known.{known_in};
ghost use Rattle.trace_lines.specs.Grammar.{task_word, target_word};

use crate::Format;
use crate::format::{Version, name_of};
use crate::put::{put, put_next_word, put_number};
use rt_base::TaskNo;
use std::alloc::AllocError;

/// A task: its number, or an `@` and its name.
#[tactic(auto, using(std::proofs::Common::append_assoc))]
#[inline(always)]
pub fn put_task(out: &mut Vec<u8>, format: &Format, task: TaskNo) -> Result<(), AllocError>
    ensures { OnOk result (out.new.items
        ≡ out.old.items ++ task_word (known_in format.now) task.0) }
{
    match format.version {
        Version::One => put_number(out, u64::from(task.0)),
        Version::Two => {
            out.push(b'@')?;
            put(out, name_of(format.parts.tasks.as_slice(), task))
        }
    }
}

/// A task, or a dash for none.
#[inline(always)]
pub fn put_target(
    out: &mut Vec<u8>,
    format: &Format,
    task: Option<TaskNo>,
) -> Result<(), AllocError>
    ensures { OnOk result (out.new.items
        ≡ out.old.items ++ target_word (known_in format.now) (number_of_task task)) }
{
    match task {
        Some(t) => put_task(out, format, t),
        None => put(out, b"-"),
    }
}

/// A space, and then a task.
#[tactic(auto, using(std::proofs::Common::append_assoc))]
#[inline(always)]
pub fn put_next_task(out: &mut Vec<u8>, format: &Format, task: TaskNo) -> Result<(), AllocError>
    ensures { OnOk result (out.new.items
        ≡ out.old.items ++ 32 ∷ task_word (known_in format.now) task.0) }
{
    out.push(b' ')?;
    put_task(out, format, task)
}

/// A word and a task, each after a space.
#[tactic(auto, using(std::proofs::Common::append_assoc))]
#[inline(always)]
pub fn put_word_and_task(
    out: &mut Vec<u8>,
    format: &Format,
    word: &[u8],
    task: TaskNo,
) -> Result<(), AllocError>
    ensures { OnOk result (out.new.items ≡ out.old.items
        ++ further 32 (word.now ∷ task_word (known_in format.now) task.0 ∷ [])) }
{
    put_next_word(out, word)?;
    put_next_task(out, format, task)
}
