//! Whose step an entry line says, read without the rest of the line.
ghost use Rattle.std.specs.Prelude.{◌≡◌, ◌++◌, ℕ, List, Some};
ghost use Rattle.rt_rules.specs.declared.history.Entry.{Entry};
ghost use Rattle.trace_lines.specs.Grammar.{line_text};
ghost use Rattle.trace_lines.specs.Known as known;
ghost use Rattle.trace_lines.specs.Lines.{Link, entry_line};
ghost use Rattle.trace_read.specs.Movers.{mover_in, mover_of, begins_with};
ghost use Rattle.trace_read.specs.Reading as reading;
ghost use Rattle.trace_read.specs.Seen.{Tells};

use crate::words::{small_at, word_at};
use rt_base::CpuNo;

/// The processor that takes a step, and whether the step's act is a Tick.
#[derive(Clone, Copy, PartialEq, Eq)]
pub struct Mover {
    pub cpu: CpuNo,
    pub is_tick: bool,
}

/// Whether what is left of a line begins with the letter that a Tick alone begins with.
fn begins_as_tick(text: &[u8]) -> bool
    ensures { result ≡ begins_with 116 (reading.front text.now) }
{
    match text {
        [first, ..] => *first == b't',
        [] => false,
    }
}

/// What the first words of a line say.
fn mover_said(text: &[u8]) -> Option<Mover>
    ensures { result ≡ mover_in (reading.front text.now) }
{
    let (_, rest) = word_at(text);
    let (_, rest) = word_at(rest);
    let (cpu, rest) = small_at(rest)?;
    Some(Mover {
        cpu: CpuNo(cpu),
        is_tick: begins_as_tick(rest),
    })
}

/// Who takes the step of the entry line that a text begins with. Of a text that begins with no line of an entry it may say
/// anything.
#[inline(always)]
pub fn mover_at(text: &[u8]) -> Option<Mover>
    ensures { (k : known.Known) (i : ℕ) (e : Entry) (links : List Link) (more : List ℕ) → Tells k
        → known.IsLine k (entry_line i e links)
        → text.now ≡ line_text k (entry_line i e links) ++ more
        → result ≡ Some (mover_of e.step) }
{
    mover_said(text)
}
