//! Reading the pieces of a body from the bytes of a document, with no token and no value made for
//! each.
ghost use Rattle.std.specs.Prelude.{◌≡◌, ◌∷◌, ◌<◌, ◌≤◌, Some, List, ℕ, length, IfSome};
ghost use Rattle.json.specs.Lex.{after_value, fresh, token, tokens};
ghost use Rattle.json.specs.Token.{string as word_token};
ghost use Rattle.serde_json.specs.Data.{number, string, unsigned};
ghost use Rattle.set_read.specs.Document as document;
ghost use Rattle.set_read.specs.Forms.{every, word_in};
ghost use Rattle.set_read.specs.Names.{names_seen};
ghost use Rattle.set_read.specs.inside.Texts.{BeginsWith, BeginsWithArgument, BeginsWithValue, EndsArray, tokens_at};
ghost use Rattle.set_read.specs.inside.Tokens.{SaysItems, piece_after, piece_argument_depth, piece_depth};

use crate::acts::{NameLists, op_counted, op_named};
use crate::lexemes::{after, after_blanks, number, unquoted};
use rt_task::{Op, Piece};
use std::alloc::Global;
use std::str;

/// An operation that needs nothing, by its word up to the closing quote, and what stands behind it.
#[inline(always)]
fn bare(bytes: &[u8]) -> Option<(Op, &[u8])>
    ensures word { IfSome result (λ x. (word : List ℕ)
        × BeginsWith (token (word_token word)) (34 ∷ bytes.now) x.1.now
        × (word_in document.bare_ops word ≡ Some x.0)) }
    ensures shorter { IfSome result (λ x. length x.1.now < length bytes.now) }
{
    if let [b'n', b'p', b'o', b'n', b'"', rest @ ..] = bytes {
        return Some((Op::NpOn, rest));
    }
    if let [b'n', b'p', b'o', b'f', b'f', b'"', rest @ ..] = bytes {
        return Some((Op::NpOff, rest));
    }
    if let [b'e', b'n', b'd', b'"', rest @ ..] = bytes {
        return Some((Op::End, rest));
    }
    None
}

/// A piece with a name.
fn piece_named(names: &NameLists, word: &[u8], name: &str) -> Option<Piece>
    ensures { result ≡ document.piece_with (names_seen names.now) word.now (string name.now) }
{
    if word == b"work".as_slice() {
        return None;
    }
    let op = op_named(names, word, name)?;
    Some(Piece::Once(op))
}

/// A piece with a number.
fn piece_counted(word: &[u8], n: u64) -> Option<Piece>
    ensures { (names : document.Names)
        → result ≡ document.piece_with names word.now (number (unsigned n)) }
{
    if word == b"work".as_slice() {
        return Some(Piece::Works(n));
    }
    let op = op_counted(word, n)?;
    Some(Piece::Once(op))
}

/// A piece of this word and an argument, and what stands behind it.
fn piece_with<'a>(names: &NameLists, word: &[u8], bytes: &'a [u8]) -> Option<(Piece, &'a [u8])>
    ensures says { IfSome result (λ x. BeginsWithArgument piece_argument_depth
        (piece_after (names_seen names.now) word.now) x.0 bytes.now x.1.now) }
    ensures shorter { IfSome result (λ x. length x.1.now ≤ length bytes.now) }
{
    match after_blanks(bytes) {
        [b'"', quoted @ ..] => {
            let (name, rest) = unquoted(quoted)?;
            let piece = piece_named(names, word, str::from_utf8(name).ok()?)?;
            Some((piece, rest))
        }
        plain => {
            let (n, rest) = number(plain)?;
            let piece = piece_counted(word, n)?;
            Some((piece, rest))
        }
    }
}

/// What stands of a piece behind its bracket, and what stands behind the piece.
#[inline(always)]
fn piece_end<'a>(names: &NameLists, bytes: &'a [u8]) -> Option<(Piece, &'a [u8])>
    ensures says { IfSome result (λ x. EndsArray piece_argument_depth
        (piece_after (names_seen names.now)) fresh x.0 bytes.now x.1.now) }
    ensures shorter { IfSome result (λ x. length x.1.now < length bytes.now) }
{
    let [b'"', quoted @ ..] = after_blanks(bytes) else {
        return None;
    };
    if let Some((op, rest)) = bare(quoted) {
        return Some((Piece::Once(op), after(b']', rest)?));
    }
    let (word, rest) = unquoted(quoted)?;
    let (piece, rest) = piece_with(names, word, after(b',', rest)?)?;
    Some((piece, after(b']', rest)?))
}

/// A piece, and what stands behind it.
#[inline(always)]
fn piece<'a>(names: &NameLists, bytes: &'a [u8]) -> Option<(Piece, &'a [u8])>
    ensures says { IfSome result (λ x. BeginsWithValue piece_depth
        (document.piece_form (names_seen names.now)) x.0 bytes.now x.1.now) }
    ensures shorter { IfSome result (λ x. length x.1.now < length bytes.now) }
{
    piece_end(names, after(b'[', bytes)?)
}

/// The pieces up to the end of their array, and what stands behind it; None where one is not
/// plain, or for want of memory.
pub(crate) fn pieces<'a>(
    alloc: Global,
    names: &NameLists,
    bytes: &'a [u8],
) -> Option<(Vec<Piece>, &'a [u8])>
    ensures { IfSome result (λ x. SaysItems piece_depth
        (every (document.piece_form (names_seen names.now)))
        (tokens bytes.now) x.0.items (tokens_at after_value x.1.now)) }
{
    let mut found = Vec::new(alloc);
    let mut left = bytes;
    loop {
        let (piece, rest) = piece(names, left)?;
        found.push(piece).ok()?;
        match after(b',', rest) {
            Some(more) => left = more,
            None => return Some((found, after(b']', rest)?)),
        }
    }
}
