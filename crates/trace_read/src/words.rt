//! Words and numbers at the beginning of a line. Each function is given all that stands from there on: a line feed ends the
//! line, so that its end need not be looked for first, and is left standing.
ghost use Rattle.std.specs.Prelude.{◌≡◌, ◌==◌, bytes_eq, length, option_map};
ghost use Rattle.trace_read.specs.Reading as reading;

/// Whether a word is this one.
#[inline(always)]
pub(crate) fn is_word(word: &[u8], known: &[u8]) -> bool
    ensures { result ≡ bytes_eq word.now known.now }
{
    if word.len() != known.len() {
        return false;
    }
    for (i, c) in word.iter().enumerate() {
        if *c != known[i] {
            return false;
        }
    }
    true
}

/// Where the first such byte stands, or the length of the text.
fn cut_length(text: &[u8], at: u8) -> usize
    ensures { result ≡ reading.cut_length at text.now }
{
    for (i, c) in text.iter().enumerate() {
        if *c == at {
            return i;
        }
    }
    text.len()
}

/// What stands before the first such byte, and what stands after it.
#[tactic(auto, using(crate::proofs::WordLaws::cut_within, crate::proofs::WordLaws::cut_at))]
pub(crate) fn cut(text: &[u8], at: u8) -> (&[u8], &[u8])
    ensures { (result.0.now, result.1.now) ≡ reading.cut at text.now }
{
    let (word, rest) = text.split_at(cut_length(text, at));
    match rest {
        [_, more @ ..] => (word, more),
        [] => (word, rest),
    }
}

/// Whether nothing is left of the line.
pub(crate) fn is_at_end(text: &[u8]) -> bool
    ensures { result ≡ (length (reading.front text.now) == 0) }
{
    match text {
        [] | [b'\n', ..] => true,
        _ => false,
    }
}

/// Where the first word of a line ends: at a space, at a line feed, or with the text.
fn word_end(text: &[u8]) -> usize
    ensures { result ≡ reading.word_length text.now }
{
    for (i, c) in text.iter().enumerate() {
        if *c == b' ' || *c == b'\n' {
            return i;
        }
    }
    text.len()
}

/// What stands after a word: a space is stepped over.
fn after_word(text: &[u8]) -> &[u8]
    ensures { result.now ≡ reading.after_word text.now }
{
    match text {
        [b' ', rest @ ..] => rest,
        _ => text,
    }
}

/// The first word of a line, and what stands after it.
#[tactic(auto, using(crate::proofs::WordLaws::word_within))]
pub(crate) fn word_at(text: &[u8]) -> (&[u8], &[u8])
    ensures { (result.0.now, reading.front result.1.now)
        ≡ reading.cut 32 (reading.front text.now) }
{
    let (word, rest) = text.split_at(word_end(text));
    (word, after_word(rest))
}

pub(crate) fn begins_with_digit(text: &[u8]) -> bool
    ensures { result ≡ reading.begins_with_digit text.now }
{
    match text {
        [first, ..] => first.is_ascii_digit(),
        [] => false,
    }
}

/// The number with one more digit.
fn next_digit(n: u64, digit: u8) -> Option<u64>
    ensures { result ≡ reading.next_digit n digit }
{
    if !digit.is_ascii_digit() {
        return None;
    }
    n.checked_mul(10)?.checked_add(u64::from(digit - b'0'))
}

/// The number that decimal digits say.
pub(crate) fn number_in(word: &[u8]) -> Option<u64>
    ensures { result ≡ reading.number_in word.now }
{
    let mut n = 0;
    for digit in word {
        n = next_digit(n, *digit)?;
    }
    Some(n)
}

pub(crate) fn small_in(word: &[u8]) -> Option<u32>
    ensures { result ≡ reading.small_in word.now }
{
    let n = number_in(word)?;
    u32::try_from(n).ok()
}

/// A number, or a dash for none.
pub(crate) fn small_or_dash(word: &[u8]) -> Option<Option<u32>>
    ensures { result ≡ reading.small_or_dash word.now }
{
    if is_word(word, b"-") {
        return Some(None);
    }
    let n = small_in(word)?;
    Some(Some(n))
}

/// The number that the digits at the beginning say, and what stands after them.
fn digits_at(text: &[u8]) -> Option<(u64, &[u8])>
    ensures { option_map (λ p. (p.0, p.1.now)) result ≡ reading.digits_after 0 text.now }
{
    let mut n = 0;
    let mut left = text;
    while let [digit, rest @ ..] = left {
        if !digit.is_ascii_digit() {
            break;
        }
        n = next_digit(n, *digit)?;
        left = rest;
    }
    Some((n, left))
}

/// A number, and what stands after it.
#[tactic(auto, using(crate::proofs::WordLaws::number_at_front))]
pub(crate) fn number_at(text: &[u8]) -> Option<(u64, &[u8])>
    ensures { option_map (λ p. (p.0, reading.front p.1.now)) result
        ≡ reading.number_at (reading.front text.now) }
{
    let (n, rest) = digits_at(text)?;
    match rest {
        [] | [b'\n' | b' ', ..] => Some((n, after_word(rest))),
        _ => None,
    }
}

pub(crate) fn small_at(text: &[u8]) -> Option<(u32, &[u8])>
    ensures { option_map (λ p. (p.0, reading.front p.1.now)) result
        ≡ reading.small_at (reading.front text.now) }
{
    let (n, rest) = number_at(text)?;
    let small = u32::try_from(n).ok()?;
    Some((small, rest))
}
