//! Reading an array of steps from the bytes of a document, with no token and no value made for each.
ghost use Rattle.std.specs.Prelude.{◌≡◌, ◌∷◌, ◌<◌, ◌≤◌, Some, List, ℕ, length, IfSome};
ghost use Rattle.json.specs.Lex.{after_comma, after_value, token, tokens};
ghost use Rattle.json.specs.Token.{string};
ghost use Rattle.set_read.specs.Document.{act_form, bare_acts, step_form};
ghost use Rattle.set_read.specs.Forms.{every, word_in};
ghost use Rattle.set_read.specs.Names.{names_seen};
ghost use Rattle.set_read.specs.inside.Texts.{BeginsWith, BeginsWithArgument, BeginsWithValue, EndsArray, tokens_at};
ghost use Rattle.set_read.specs.inside.Tokens.{SaysItems, argument_depth, item_depth};

use crate::acts::{NameLists, act_counted, act_named};
use crate::lexemes::{after, after_blanks, number, unquoted};
use rt_task::{Act, DraftStep, Op};
use std::alloc::Global;
use std::str;

/// An act that needs nothing, by its word up to the closing quote, and what stands behind it.
#[inline(always)]
fn bare(bytes: &[u8]) -> Option<(Act, &[u8])>
    ensures word { IfSome result (λ x. (word : List ℕ)
        × BeginsWith (token (string word)) (34 ∷ bytes.now) x.1.now
        × (word_in bare_acts word ≡ Some x.0)) }
    ensures shorter { IfSome result (λ x. length x.1.now < length bytes.now) }
{
    if let [b'w', b'o', b'r', b'k', b'"', rest @ ..] = bytes {
        return Some((Act::Do(Op::Work), rest));
    }
    if let [b'i', b'r', b'q', b'"', rest @ ..] = bytes {
        return Some((Act::Irq, rest));
    }
    if let [b'e', b'n', b'd', b'"', rest @ ..] = bytes {
        return Some((Act::Do(Op::End), rest));
    }
    if let [b't', b'i', b'c', b'k', b'"', rest @ ..] = bytes {
        return Some((Act::Tick, rest));
    }
    if let [b'n', b'p', b'o', b'n', b'"', rest @ ..] = bytes {
        return Some((Act::Do(Op::NpOn), rest));
    }
    if let [b'n', b'p', b'o', b'f', b'f', b'"', rest @ ..] = bytes {
        return Some((Act::Do(Op::NpOff), rest));
    }
    None
}

/// An act of this word and an argument, and what stands behind it.
fn act_with<'a>(names: &NameLists, word: &[u8], bytes: &'a [u8]) -> Option<(Act, &'a [u8])>
    ensures says { IfSome result (λ x. BeginsWithArgument argument_depth
        (act_form (names_seen names.now) word.now) x.0 bytes.now x.1.now) }
    ensures shorter { IfSome result (λ x. length x.1.now ≤ length bytes.now) }
{
    match after_blanks(bytes) {
        [b'"', quoted @ ..] => {
            let (name, rest) = unquoted(quoted)?;
            let act = act_named(names, word, str::from_utf8(name).ok()?)?;
            Some((act, rest))
        }
        plain => {
            let (n, rest) = number(plain)?;
            let act = act_counted(word, n)?;
            Some((act, rest))
        }
    }
}

/// What stands of a step from its word on, and what stands behind the step.
#[inline(always)]
fn act<'a>(names: &NameLists, bytes: &'a [u8]) -> Option<(Act, &'a [u8])>
    ensures says { IfSome result (λ x. EndsArray argument_depth
        (act_form (names_seen names.now)) after_comma x.0 bytes.now x.1.now) }
    ensures shorter { IfSome result (λ x. length x.1.now < length bytes.now) }
{
    let [b'"', quoted @ ..] = after_blanks(bytes) else {
        return None;
    };
    if let Some((act, rest)) = bare(quoted) {
        return Some((act, after(b']', rest)?));
    }
    let (word, rest) = unquoted(quoted)?;
    let (act, rest) = act_with(names, word, after(b',', rest)?)?;
    Some((act, after(b']', rest)?))
}

/// A step, and what stands behind it.
#[inline(always)]
fn step<'a>(names: &NameLists, bytes: &'a [u8]) -> Option<(DraftStep, &'a [u8])>
    ensures says { IfSome result (λ x. BeginsWithValue item_depth
        (step_form (names_seen names.now)) x.0 bytes.now x.1.now) }
    ensures shorter { IfSome result (λ x. length x.1.now < length bytes.now) }
{
    let (cpu, rest) = number(after(b'[', bytes)?)?;
    let (tick, rest) = number(after(b',', rest)?)?;
    let (act, rest) = act(names, after(b',', rest)?)?;
    Some((DraftStep { cpu, tick, act }, rest))
}

/// The bytes of the shortest step, with the comma behind it.
const SHORTEST_STEP: usize = br#"[0,0,"irq"],"#.len();

/// The steps up to the end of their array, and what stands behind it; None where one is not plain,
/// or for want of memory.
pub(crate) fn steps<'a>(
    alloc: Global,
    names: &NameLists,
    bytes: &'a [u8],
) -> Option<(Vec<DraftStep>, &'a [u8])>
    ensures { IfSome result (λ x. SaysItems item_depth (every (step_form (names_seen names.now)))
        (tokens bytes.now) x.0.items (tokens_at after_value x.1.now)) }
{
    let mut found = Vec::with_capacity(alloc, bytes.len() / SHORTEST_STEP).ok()?;
    let mut left = bytes;
    loop {
        let (step, rest) = step(names, left)?;
        found.push(step).ok()?;
        match after(b',', rest) {
            Some(more) => left = more,
            None => return Some((found, after(b']', rest)?)),
        }
    }
}
