//! The one line that says what a trace is.
ghost use Rattle.std.specs.Prelude.{◌≡◌, ◌++◌, ◌∷◌, [], OnOk, decimal};
ghost use Rattle.sim_commands.specs.Check.{verdict_text};

use itoa::Buffer;
use std::alloc::AllocError;
use trace_check::Verdict;

/// A word, a number and a line feed.
#[tactic(auto, using(std::proofs::Common::append_assoc))]
fn put_word_and_number(out: &mut Vec<u8>, word: &[u8], number: u32) -> Result<(), AllocError>
    ensures { OnOk result
        (out.new.items ≡ out.old.items ++ (word.now ++ (decimal number ++ 10 ∷ []))) }
{
    let mut buffer = Buffer::new();
    out.extend_from_slice(word)?;
    out.extend_from_slice(buffer.format(number).as_bytes())?;
    out.extend_from_slice(b"\n")
}

/// The line of a verdict: `valid` with the number of entries, or `invalid` with the number of the first wrong line.
pub(crate) fn put_verdict(out: &mut Vec<u8>, verdict: Verdict) -> Result<(), AllocError>
    ensures { OnOk result (out.new.items ≡ out.old.items ++ verdict_text verdict) }
{
    match verdict {
        Verdict::Valid(entries) => put_word_and_number(out, b"valid ", entries),
        Verdict::Invalid(line) => put_word_and_number(out, b"invalid ", line),
    }
}
