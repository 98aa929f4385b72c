//! Where the items of an object's last member begin, and what the text before them says.
ghost use Rattle.std.specs.Prelude.{◌≡◌, ◌<◌, ◌∷◌, ◌++◌, [], Some, IfSome, IsTrue};
ghost use Rattle.json.specs.Json.{Members, array, no_items, read_key, value};
ghost use Rattle.json.specs.Lex.{after_value, tokens};
ghost use Rattle.json.specs.Value.{value_view};
ghost use Rattle.serde_json.specs.View.{view};
ghost use Rattle.set_read.specs.inside.Texts.{OpensItems, closing, tokens_at};
ghost use Rattle.set_read.specs.inside.Tokens.{with_no_items};

use crate::lexemes::{after, after_blanks};
use json::{Reader, Scratch};
use serde_json::Value;
use std::alloc::Global;

/// How deep a document may nest.
pub(crate) const DOCUMENT_DEPTH: usize = 127;

/// How deep a task may nest, which stands in an array of the document.
pub(crate) const TASK_DEPTH: usize = DOCUMENT_DEPTH - 2;

/// Whether this text ends with the name of a member and its colon.
fn ends_with_name(text: &[u8], name: &str) -> bool {
    let Some(key) = text.trim_ascii_end().strip_suffix(b":") else {
        return false;
    };
    let Some(quoted) = key.trim_ascii_end().strip_suffix(b"\"") else {
        return false;
    };
    match quoted.strip_suffix(name.as_bytes()) {
        Some(front) => front.ends_with(b"\""),
        None => false,
    }
}

/// What stands before the bracket of the member's items, and what stands behind it. It may be
/// another bracket: the text before it is tried.
pub(crate) fn at_items<'a>(bytes: &'a [u8], name: &str) -> Option<(&'a [u8], &'a [u8])>
    ensures { IfSome result (λ parts. bytes.now ≡ parts.0.now ++ 91 ∷ parts.1.now) }
{
    for (i, byte) in bytes.iter().enumerate() {
        if *byte == b'[' && ends_with_name(&bytes[..i], name) {
            return Some((&bytes[..i], &bytes[i + 1..]));
        }
    }
    None
}

/// The text before the items, closed with none.
fn closed(alloc: Global, text: &[u8]) -> Option<Vec<u8>>
    ensures { IfSome result (λ whole. whole.items ≡ text.now ++ closing) }
{
    let mut whole = Vec::new(alloc);
    whole.extend_from_slice(text).ok()?;
    whole.extend_from_slice(b"[]}").ok()?;
    Some(whole)
}

fn is_empty_array(value: &json::Value<'_>) -> bool
    ensures { IsTrue result → value_view value.now ≡ array no_items }
{
    match value {
        json::Value::Array(items) => items.is_empty(),
        _ => false,
    }
}

/// Whether the last member of a value has this name, and no items.
fn has_no_items(value: &json::Value<'_>, name: &str) -> bool
    ensures { IsTrue result → (ms : Members) × (value_view value.now ≡ with_no_items name.now ms) }
{
    let json::Value::Object(members) = value else {
        return false;
    };
    match members.last() {
        Some((last, items)) => *last == name && is_empty_array(items),
        None => false,
    }
}

/// Whether a text is such a value, nested no deeper than this.
fn ends_with_no_items(alloc: Global, bytes: &[u8], name: &str, depth: usize) -> bool
    ensures { IsTrue result → (ms : Members)
        × (value depth (tokens bytes.now) ≡ Some (with_no_items name.now ms, [])) }
{
    let Ok(text) = simdutf8::basic::from_utf8(bytes) else {
        return false;
    };
    let mut scratch = Scratch::new(alloc);
    let Ok(mut reader) = Reader::new(text, &mut scratch) else {
        return false;
    };
    match json::Value::read(alloc, &mut reader, depth) {
        Ok(value) => reader.next().is_none() && has_no_items(&value, name),
        Err(_) => false,
    }
}

/// The value that an object is without the items of its last member, of the text before them.
pub(crate) fn before_items(alloc: Global, text: &[u8], name: &str, depth: usize) -> Option<Value>
    requires { 1 < depth }
    ensures { IfSome result (λ value. OpensItems name.now depth text.now (view value)) }
{
    let whole = closed(alloc, text)?;
    if !ends_with_no_items(alloc, whole.as_slice(), name, depth) {
        return None;
    }
    match Value::from_slice(alloc, whole.as_slice()) {
        Ok(value) => Some(value),
        Err(_) => None,
    }
}

/// Whether the object ends here, and the text with it.
pub(crate) fn is_at_end(bytes: &[u8]) -> bool
    ensures { IsTrue result → read_key (tokens_at after_value bytes.now) ≡ Some (None, []) }
{
    match after(b'}', bytes) {
        Some(rest) => after_blanks(rest).is_empty(),
        None => false,
    }
}
