//! The entries of a text that is known to be one of plays, read without the rest of their lines.
ghost use Rattle.std.specs.Prelude.{◌≡◌, ◌++◌, ◌<◌, ℕ, List, IfSome, Some, false, length, option_map};
ghost use Rattle.rt_rules.specs.declared.history.Entry.{Entry};
ghost use Rattle.trace_lines.specs.Grammar.{line_text};
ghost use Rattle.trace_lines.specs.Known as known;
ghost use Rattle.trace_lines.specs.Lines.{Link, entry_line};
ghost use Rattle.trace_read.specs.Reading as reading;
ghost use Rattle.trace_read.specs.Seen.{Tells};

use crate::head::split_line;
use crate::known::Known;
use crate::parse::entry_at;
use crate::words::{begins_with_digit, word_at};
use rt_rules::Entry;

/// What stands behind the line that a text begins with: behind its first line feed, and nothing where it has none.
pub fn behind_line(text: &[u8]) -> &[u8]
    ensures { result.now ≡ reading.behind text.now }
{
    match split_line(text) {
        Some((_, rest)) => rest,
        None => &[],
    }
}

/// The entry behind the first word of a line.
fn entry_said(k: &Known, text: &[u8]) -> Option<Entry>
    ensures { result ≡ reading.entry_said k.now (reading.front text.now) }
{
    let (_, rest) = word_at(text);
    let (entry, _) = entry_at(k, rest)?;
    Some(entry)
}

/// The entry whose line a text begins with, and what stands behind that line; none where the text begins with no digit. Of a
/// text that begins with a digit, and with no line of an entry, it may say anything.
pub fn entry_first<'a>(k: &Known, text: &'a [u8]) -> Option<(Entry, &'a [u8])>
    requires { Tells k.now }
    ensures entry { (i : ℕ) (e : Entry) (links : List Link) (more : List ℕ)
        → known.IsLine k.now (entry_line i e links)
        → text.now ≡ line_text k.now (entry_line i e links) ++ more
        → option_map {U = Entry × List ℕ} (λ p. (p.0, p.1.now)) result ≡ Some (e, more) }
    ensures none { reading.begins_with_digit text.now ≡ false → result ≡ None }
    ensures shorter { IfSome result (λ p. length p.1.now < length text.now) }
{
    if !begins_with_digit(text) {
        return None;
    }
    let entry = entry_said(k, text)?;
    Some((entry, behind_line(text)))
}
