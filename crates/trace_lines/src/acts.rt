//! The words of acts.
ghost use Rattle.std.specs.Prelude.{◌≡◌, ◌++◌, ◌∷◌, [], OnOk, decimal};
ghost use Rattle.trace_lines.specs.Words.{further};
ghost use Rattle.trace_lines.specs.Known.{known_in};
ghost use Rattle.trace_lines.specs.Grammar.{act_words};

use crate::Format;
use crate::put::{put, put_next_number, put_next_word};
use crate::tasks::put_word_and_task;
use rt_task::{Act, Op};
use std::alloc::AllocError;

/// A word and a number, each after a space.
#[tactic(auto, using(std::proofs::Common::append_assoc))]
pub fn put_word_and_number(out: &mut Vec<u8>, word: &[u8], n: u64) -> Result<(), AllocError>
    ensures { OnOk result (out.new.items
        ≡ out.old.items ++ further 32 (word.now ∷ decimal n ∷ [])) }
{
    put_next_word(out, word)?;
    put_next_number(out, n)
}

/// The words of an act, each after a space.
#[inline(always)]
pub fn put_act(out: &mut Vec<u8>, format: &Format, act: Act) -> Result<(), AllocError>
    ensures { OnOk result (out.new.items
        ≡ out.old.items ++ further 32 (act_words (known_in format.now) act)) }
{
    match act {
        Act::Tick => put(out, b" tick"),
        Act::Irq => put(out, b" irq"),
        Act::Arrive(t) => put_word_and_task(out, format, b"arrive", t),
        Act::Do(Op::Work) => put(out, b" work"),
        Act::Do(Op::Lock(s)) => put_word_and_number(out, b"lock", u64::from(s.0)),
        Act::Do(Op::Unlock(s)) => put_word_and_number(out, b"unlock", u64::from(s.0)),
        Act::Do(Op::Sleep(n)) => put_word_and_number(out, b"sleep", n),
        Act::Do(Op::NpOn) => put(out, b" npon"),
        Act::Do(Op::NpOff) => put(out, b" npoff"),
        Act::Do(Op::End) => put(out, b" end"),
    }
}
