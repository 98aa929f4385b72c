//! Small texts, put after what is written.
ghost use Rattle.std.specs.Prelude.{◌≡◌, ◌<◌, ◌∷◌, ◌++◌, [], decimal, IsTrue, OnOk};
ghost use Rattle.std.specs.Char.{digit_char};
ghost use Rattle.json.specs.Print as print;
ghost use Rattle.serde_json.specs.Data.{boolean};
ghost use Rattle.serde_json.specs.Written.{compact_text, comma_if};

use decimals::put_decimal;
use std::alloc::AllocError;

/// The text as it is.
#[inline(always)]
pub fn put(out: &mut Vec<u8>, text: &[u8]) -> Result<(), AllocError>
    ensures { OnOk result (out.new.items ≡ out.old.items ++ text.now) }
{
    out.extend_from_slice(text)
}

/// A comma, where something stands before.
#[tactic(auto, using(crate::proofs::Texts::append_nothing))]
#[inline(always)]
pub fn put_comma(out: &mut Vec<u8>, later: bool) -> Result<(), AllocError>
    ensures { OnOk result (out.new.items ≡ out.old.items ++ comma_if later) }
{
    if later {
        out.push(b',')?;
    }
    Ok(())
}

/// The number in decimal, after the text before it.
#[tactic(auto, using(std::proofs::Common::append_assoc))]
pub fn put_number(out: &mut Vec<u8>, before: &[u8], n: u64) -> Result<(), AllocError>
    ensures { OnOk result (out.new.items ≡ out.old.items ++ (before.now ++ decimal n)) }
{
    put(out, before)?;
    put_decimal(out, n)
}

/// `true` or `false`, after the text before it.
#[tactic(auto, using(std::proofs::Common::append_assoc))]
pub fn put_flag(out: &mut Vec<u8>, before: &[u8], flag: bool) -> Result<(), AllocError>
    ensures { OnOk result (out.new.items
        ≡ out.old.items ++ (before.now ++ compact_text (boolean flag))) }
{
    put(out, before)?;
    if flag {
        put(out, b"true")?;
    } else {
        put(out, b"false")?;
    }
    Ok(())
}

/// The letter of a byte's short escape, or 0 where it has none.
fn escape_letter(byte: u8) -> u8
    ensures { result ≡ print.escape_letter byte }
{
    match byte {
        b'"' | b'\\' => byte,
        8 => b'b',
        12 => b'f',
        b'\n' => b'n',
        b'\r' => b'r',
        b'\t' => b't',
        _ => 0,
    }
}

/// The digit of a number below 16.
fn hex_digit(n: u8) -> u8
    requires { n < 16 }
    ensures { result ≡ digit_char n }
{
    if n < 10 { b'0' + n } else { b'a' - 10 + n }
}

/// A byte of a string, with its escape.
#[tactic(auto, unfolding(json::specs::Print::escape_byte))]
fn put_byte(out: &mut Vec<u8>, byte: u8) -> Result<(), AllocError>
    ensures { OnOk result (out.new.items ≡ out.old.items ++ print.escape_byte byte) }
{
    let letter = escape_letter(byte);
    if letter > 0 {
        return put(out, &[b'\\', letter]);
    }
    if byte < 32 {
        return put(
            out,
            &[
                b'\\',
                b'u',
                b'0',
                b'0',
                hex_digit(byte / 16),
                hex_digit(byte % 16),
            ],
        );
    }
    Ok(out.push(byte)?)
}

/// Whether the byte stands in a string as it is.
#[tactic(auto, unfolding(json::specs::Print::escape_byte))]
fn is_plain(byte: u8) -> bool
    ensures { IsTrue result → print.escape_byte byte ≡ byte ∷ [] }
{
    byte >= 32 && escape_letter(byte) == 0
}

/// Whether all bytes do.
#[tactic(auto, using(crate::proofs::Texts::plain_next, crate::proofs::Texts::plain_end))]
fn are_plain(text: &[u8]) -> bool
    ensures { IsTrue result → print.escape text.now ≡ text.now }
{
    for byte in text {
        if !is_plain(*byte) {
            return false;
        }
    }
    true
}

/// A string's bytes, each with its escape.
#[tactic(auto, using(std::proofs::Common::append_assoc))]
fn put_bytes(out: &mut Vec<u8>, text: &[u8]) -> Result<(), AllocError>
    ensures { OnOk result (out.new.items ≡ out.old.items ++ print.escape text.now) }
{
    for byte in text {
        put_byte(out, *byte)?;
    }
    Ok(())
}

/// A string's bytes, with their escapes. Most strings have none, and are put whole.
pub fn put_escaped(out: &mut Vec<u8>, text: &[u8]) -> Result<(), AllocError>
    ensures { OnOk result (out.new.items ≡ out.old.items ++ print.escape text.now) }
{
    if are_plain(text) {
        put(out, text)
    } else {
        put_bytes(out, text)
    }
}

/// A string in its quotes, after the text before it.
#[tactic(auto, using(std::proofs::Common::append_assoc))]
pub fn put_string(out: &mut Vec<u8>, before: &[u8], text: &[u8]) -> Result<(), AllocError>
    ensures { OnOk result (out.new.items ≡ out.old.items ++ (before.now ++ print.quoted text.now)) }
{
    put(out, before)?;
    out.push(b'"')?;
    put_escaped(out, text)?;
    out.push(b'"')?;
    Ok(())
}
