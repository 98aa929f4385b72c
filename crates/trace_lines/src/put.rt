//! Bytes, words and numbers at the end of a text.
ghost use Rattle.std.specs.Prelude.{◌≡◌, ◌++◌, ◌∷◌, map, OnOk, decimal};
ghost use Rattle.trace_lines.specs.Words.{further};
ghost use Rattle.trace_lines.specs.Grammar.{number_word};

use decimals::put_decimal;
use std::alloc::AllocError;

/// Bytes at the end of a text.
#[inline(always)]
pub fn put(out: &mut Vec<u8>, bytes: &[u8]) -> Result<(), AllocError>
    ensures { OnOk result (out.new.items ≡ out.old.items ++ bytes.now) }
{
    out.extend_from_slice(bytes)
}

/// A number in decimal digits.
pub fn put_number(out: &mut Vec<u8>, n: u64) -> Result<(), AllocError>
    ensures { OnOk result (out.new.items ≡ out.old.items ++ decimal n) }
{
    put_decimal(out, n)
}

/// A space, and then a word.
#[tactic(auto, using(std::proofs::Common::append_assoc))]
#[inline(always)]
pub fn put_next_word(out: &mut Vec<u8>, word: &[u8]) -> Result<(), AllocError>
    ensures { OnOk result (out.new.items ≡ out.old.items ++ 32 ∷ word.now) }
{
    out.push(b' ')?;
    put(out, word)
}

/// A space, and then a number.
#[tactic(auto, using(std::proofs::Common::append_assoc, std::proofs::lemmas::Fmt::decimal_digit))]
#[inline(always)]
pub fn put_next_number(out: &mut Vec<u8>, n: u64) -> Result<(), AllocError>
    ensures { OnOk result (out.new.items ≡ out.old.items ++ 32 ∷ decimal n) }
{
    out.push(b' ')?;
    if n < 10 {
        out.push(b'0' + n as u8)?;
        return Ok(());
    }
    put_number(out, n)
}

/// A space, and then a number, or a dash for none.
pub fn put_next_number_or_dash(out: &mut Vec<u8>, n: Option<u32>) -> Result<(), AllocError>
    ensures { OnOk result (out.new.items ≡ out.old.items ++ 32 ∷ number_word n) }
{
    match n {
        Some(n) => put_next_number(out, u64::from(n)),
        None => put_next_word(out, b"-"),
    }
}

/// The numbers, each after a space.
#[tactic(auto, using(std::proofs::Common::append_assoc))]
pub fn put_next_numbers(out: &mut Vec<u8>, numbers: &[u64]) -> Result<(), AllocError>
    ensures { OnOk result (out.new.items ≡ out.old.items ++ further 32 (map decimal numbers.now)) }
{
    for n in numbers {
        put_next_number(out, *n)?;
    }
    Ok(())
}
