//! Acts by their words.
ghost use Rattle.std.specs.Prelude.{◌≡◌, option_map};
ghost use Rattle.set_read.specs.Forms.{word_in};
ghost use Rattle.trace_read.specs.Reading as reading;

use crate::known::Known;
use crate::tasks::task_at;
use crate::words::{is_word, number_at, word_at};
use rt_base::SemNo;
use rt_task::{Act, Op};

/// An act that is one word.
pub(crate) fn bare_act(word: &[u8]) -> Option<Act>
    ensures { result ≡ word_in reading.bare_acts word.now }
{
    match word {
        w if is_word(w, b"tick") => Some(Act::Tick),
        w if is_word(w, b"irq") => Some(Act::Irq),
        w if is_word(w, b"work") => Some(Act::Do(Op::Work)),
        w if is_word(w, b"npon") => Some(Act::Do(Op::NpOn)),
        w if is_word(w, b"npoff") => Some(Act::Do(Op::NpOff)),
        w if is_word(w, b"end") => Some(Act::Do(Op::End)),
        _ => None,
    }
}

fn sem_act(word: &[u8], n: u32) -> Option<Act>
    ensures { result ≡ reading.sem_act word.now n }
{
    match word {
        w if is_word(w, b"lock") => Some(Act::Do(Op::Lock(SemNo(n)))),
        w if is_word(w, b"unlock") => Some(Act::Do(Op::Unlock(SemNo(n)))),
        _ => None,
    }
}

/// An act that is a word and a number.
fn act_with(word: &[u8], n: u64) -> Option<Act>
    ensures { result ≡ reading.act_with word.now n }
{
    match word {
        w if is_word(w, b"sleep") => Some(Act::Do(Op::Sleep(n))),
        _ => {
            let small = u32::try_from(n).ok()?;
            sem_act(word, small)
        }
    }
}

/// An act of this word and a number, and what stands after it.
fn number_act_at<'a>(word: &[u8], text: &'a [u8]) -> Option<(Act, &'a [u8])>
    ensures { option_map (λ p. (p.0, reading.front p.1.now)) result
        ≡ reading.number_act_at word.now (reading.front text.now) }
{
    let (n, rest) = number_at(text)?;
    let act = act_with(word, n)?;
    Some((act, rest))
}

/// An arrival of the task that comes next, and what stands after it.
fn arrive_at<'a>(k: &Known, text: &'a [u8]) -> Option<(Act, &'a [u8])>
    ensures { option_map (λ p. (p.0, reading.front p.1.now)) result
        ≡ reading.arrive_at k.now (reading.front text.now) }
{
    let (task, rest) = task_at(k, text)?;
    Some((Act::Arrive(task), rest))
}

/// An act, and what stands after it.
pub(crate) fn act_at<'a>(k: &Known, text: &'a [u8]) -> Option<(Act, &'a [u8])>
    ensures { option_map (λ p. (p.0, reading.front p.1.now)) result
        ≡ reading.act_at k.now (reading.front text.now) }
{
    let (word, rest) = word_at(text);
    match bare_act(word) {
        Some(act) => Some((act, rest)),
        None => match word {
            w if is_word(w, b"arrive") => arrive_at(k, rest),
            _ => number_act_at(word, rest),
        },
    }
}
