//! Bytes and numbers at the end of a text.
ghost use Rattle.std.specs.Prelude.{◌≡◌, ◌+◌, ◌%◌, ◌<◌, ◌≤◌, ◌^◌, ◌++◌, OnOk, decimal};
ghost use Rattle.event_texts.specs.Records.{microseconds, quoted, truth};

use decimals::put_decimal;
use itoa::Buffer;
use std::alloc::AllocError;

#[inline(always)]
pub(crate) fn put(text: &mut Vec<u8>, bytes: &[u8]) -> Result<(), AllocError>
    ensures { OnOk result (text.new.items ≡ text.old.items ++ bytes.now) }
{
    text.extend_from_slice(bytes)
}

pub(crate) fn put_number(text: &mut Vec<u8>, n: u64) -> Result<(), AllocError>
    ensures { OnOk result (text.new.items ≡ text.old.items ++ decimal n) }
{
    put_decimal(text, n)
}

/// The most ticks whose microseconds are below 2^64.
const SMALL: u64 = u64::MAX / 1000;

/// The last digit of a number.
fn last_digit(n: u32) -> u8
    ensures { result ≡ 48 + n % 10 }
{
    b'0' + (n % 10) as u8
}

/// Some ticks in microseconds, where they have at most five digits.
#[tactic(auto, using(crate::proofs::Ticks::digits))]
fn put_short(text: &mut Vec<u8>, ticks: u32) -> Result<(), AllocError>
    requires { (0 < ticks) × (ticks < 10 ^ 5) }
    ensures { OnOk result (text.new.items ≡ text.old.items ++ microseconds ticks) }
{
    let tens = ticks / 10;
    let hundreds = tens / 10;
    let thousands = hundreds / 10;
    let e = last_digit(ticks);
    if tens == 0 {
        return put(text, &[e, b'0', b'0', b'0']);
    }
    let d = last_digit(tens);
    if hundreds == 0 {
        return put(text, &[d, e, b'0', b'0', b'0']);
    }
    let c = last_digit(hundreds);
    if thousands == 0 {
        return put(text, &[c, d, e, b'0', b'0', b'0']);
    }
    let b = last_digit(thousands);
    if thousands < 10 {
        put(text, &[b, c, d, e, b'0', b'0', b'0'])
    } else {
        put(
            text,
            &[last_digit(thousands / 10), b, c, d, e, b'0', b'0', b'0'],
        )
    }
}

/// Ticks in microseconds: most numbers of an event. No such number wraps.
pub(crate) fn put_microseconds(text: &mut Vec<u8>, ticks: u128) -> Result<(), AllocError>
    requires { ticks ≤ 2 ^ 64 }
    ensures { OnOk result (text.new.items ≡ text.old.items ++ microseconds ticks) }
{
    if ticks > 0 && ticks < 100_000 {
        return put_short(text, ticks as u32);
    }
    if ticks <= u128::from(SMALL) {
        return put_decimal(text, 1000 * ticks as u64);
    }
    let mut buffer = Buffer::new();
    put(text, buffer.format(1000 * ticks).as_bytes())
}

#[tactic(auto, using(crate::proofs::Joins::joins))]
pub(crate) fn put_quoted(text: &mut Vec<u8>, name: &[u8]) -> Result<(), AllocError>
    ensures { OnOk result (text.new.items ≡ text.old.items ++ quoted name.now) }
{
    put(text, b"\"")?;
    put(text, name)?;
    put(text, b"\"")
}

pub(crate) fn put_truth(text: &mut Vec<u8>, holds: bool) -> Result<(), AllocError>
    ensures { OnOk result (text.new.items ≡ text.old.items ++ truth holds) }
{
    put(text, if holds { b"true".as_slice() } else { b"false" })
}
