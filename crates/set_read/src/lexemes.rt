//! Numbers, words and marks at the front of a text, read from its bytes.
ghost use Rattle.std.specs.Prelude.{◌≡◌, ◌∷◌, ◌++◌, ◌^◌, ◌<◌, ◌≤◌, Some, true, List, ℕ, length, IfSome};
ghost use Rattle.std.specs.Str.Parse.{AllDigits, digits_value};
ghost use Rattle.json.specs.Lex.{between, class, lex, operator, operator_lexeme, token};
ghost use Rattle.json.specs.Token.{string};
ghost use Rattle.json.specs.Word.{ends_word, is_space};
ghost use Rattle.set_read.specs.inside.Texts.{BeginsWith, BeginsWithNumber};

// A number up to it has room for one more digit.
const MOST_BEFORE_DIGIT: u64 = (u64::MAX - 9) / 10;

#[inline(always)]
fn is_blank(byte: u8) -> bool
    ensures { result ≡ is_space byte }
{
    byte == b' ' || byte == b'\t' || byte == b'\n' || byte == b'\r'
}

/// What stands behind the blanks at the front.
#[inline(always)]
pub(crate) fn after_blanks(bytes: &[u8]) -> &[u8]
    ensures lexed { lex between result.now ≡ lex between bytes.now }
    ensures ends { ends_word result.now ≡ true → ends_word bytes.now ≡ true }
    ensures shorter { length result.now ≤ length bytes.now }
{
    let mut left = bytes;
    while let [first, rest @ ..] = left {
        if !is_blank(*first) {
            break;
        }
        left = rest;
    }
    left
}

/// What stands behind a mark.
#[inline(always)]
pub(crate) fn after(mark: u8, bytes: &[u8]) -> Option<&[u8]>
    requires { class mark ≡ operator }
    ensures lexed { IfSome result
        (λ rest. BeginsWith (operator_lexeme mark) bytes.now rest.now) }
    ensures ends { IfSome result (λ _. ends_word bytes.now ≡ true) }
    ensures shorter { IfSome result (λ rest. length rest.now < length bytes.now) }
{
    match after_blanks(bytes) {
        [first, rest @ ..] if *first == mark => Some(rest),
        _ => None,
    }
}

/// The number that the digits at the front write, and what stands behind them; None where it is
/// too large.
#[inline(always)]
fn digits(text: &[u8]) -> Option<(u64, &[u8])>
    ensures { IfSome result (λ x. (ds : List ℕ) × (text.now ≡ ds ++ x.1.now) × AllDigits 10 ds
        × (digits_value 10 ds ≡ x.0) × (x.0 < 2 ^ 64)) }
{
    let mut n: u64 = 0;
    let mut left = text;
    while let [digit, rest @ ..] = left {
        if !digit.is_ascii_digit() {
            break;
        }
        if n > MOST_BEFORE_DIGIT {
            return None;
        }
        n = n * 10 + u64::from(*digit - b'0');
        left = rest;
    }
    Some((n, left))
}

/// A number, and what stands behind it; None where it is not written by digits alone, or too large.
#[inline(always)]
pub(crate) fn number(bytes: &[u8]) -> Option<(u64, &[u8])>
    ensures lexed { IfSome result (λ x. ends_word x.1.now ≡ true
        → BeginsWithNumber x.0 bytes.now x.1.now) }
    ensures shorter { IfSome result (λ x. length x.1.now ≤ length bytes.now) }
{
    let text = after_blanks(bytes);
    match text {
        [b'0', rest @ ..] => Some((0, rest)),
        [b'1'..=b'9', ..] => digits(text),
        _ => None,
    }
}

/// What stands up to the quote that closes a string, and what stands behind it; None where it has
/// an escape, or a byte that wants one.
#[inline(always)]
pub(crate) fn unquoted(bytes: &[u8]) -> Option<(&[u8], &[u8])>
    ensures lexed { IfSome result
        (λ x. BeginsWith (token (string x.0.now)) (34 ∷ bytes.now) x.1.now) }
    ensures shorter { IfSome result (λ x. length x.1.now < length bytes.now) }
{
    for (i, byte) in bytes.iter().enumerate() {
        match *byte {
            b'"' => return Some((&bytes[..i], &bytes[i + 1..])),
            b'\\' => return None,
            low if low < b' ' => return None,
            _ => {}
        }
    }
    None
}
