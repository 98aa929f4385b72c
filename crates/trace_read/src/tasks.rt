//! Tasks by their numbers or names.
ghost use Rattle.std.specs.Prelude.{◌≡◌, option_map};
ghost use Rattle.rt_base.specs.TaskNos.{number_of_task};
ghost use Rattle.trace_read.specs.Reading as reading;

use crate::known::Known;
use crate::words::{cut, is_word, small_in, word_at};
use rt_base::TaskNo;
use trace_lines::Version;

/// The task that a word says: in format 1 its number, in format 2 what stands after an `@` is its name.
fn number_in(k: &Known, word: &[u8]) -> Option<u32>
    ensures { result ≡ reading.task_in k.now word.now }
{
    match k.version() {
        Version::One => small_in(word),
        Version::Two => {
            let (_, name) = cut(word, b'@');
            Some(k.number(name))
        }
    }
}

/// A task, and what stands after it.
pub(crate) fn task_at<'a>(k: &Known, text: &'a [u8]) -> Option<(TaskNo, &'a [u8])>
    ensures { option_map (λ p. (p.0.0, reading.front p.1.now)) result
        ≡ reading.task_at k.now (reading.front text.now) }
{
    let (word, rest) = word_at(text);
    let n = number_in(k, word)?;
    Some((TaskNo(n), rest))
}

/// A task, or a dash for none.
pub(crate) fn target_in(k: &Known, word: &[u8]) -> Option<Option<TaskNo>>
    ensures { option_map number_of_task result ≡ reading.target_in k.now word.now }
{
    if is_word(word, b"-") {
        return Some(None);
    }
    let n = number_in(k, word)?;
    Some(Some(TaskNo(n)))
}
