//! Numbers in decimal digits, at the end of a text.
#![tactic(auto)]

ghost use Rattle.std.specs.Prelude.{◌≡◌, ◌++◌, OnOk, decimal};

mod digits;

pub use digits::Digits;
use itoa::Buffer;
use std::alloc::AllocError;

/// A number in decimal digits, at the end of a text. Numbers of one and of two digits, which most are, are written at once.
///
/// Example: `put_decimal(&mut out, 42)` adds `42`.
#[tactic(auto, using(std::proofs::lemmas::Fmt::decimal_digit, crate::proofs::DigitLaws::two_digits, std::proofs::Common::append_assoc))]
#[inline(always)]
pub fn put_decimal(out: &mut Vec<u8>, n: u64) -> Result<(), AllocError>
    ensures { OnOk result (out.new.items ≡ out.old.items ++ decimal n) }
{
    if n < 10 {
        return Ok(out.push(b'0' + n as u8)?);
    }
    if n < 100 {
        out.push(b'0' + (n / 10) as u8)?;
        return Ok(out.push(b'0' + (n % 10) as u8)?);
    }
    let mut buffer = Buffer::new();
    out.extend_from_slice(buffer.format(n).as_bytes())
}
