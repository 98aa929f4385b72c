//! Replies by their words.
ghost use Rattle.std.specs.Prelude.{◌≡◌, option_map};
ghost use Rattle.set_read.specs.Forms.{word_in};
ghost use Rattle.trace_read.specs.Reading as reading;

use crate::known::Known;
use crate::tasks::task_at;
use crate::words::{is_word, word_at};
use rt_rules::Reply;

/// A reply that is one word.
fn bare_reply(word: &[u8]) -> Option<Reply>
    ensures { result ≡ word_in reading.bare_replies word.now }
{
    match word {
        w if is_word(w, b"done") => Some(Reply::Done),
        w if is_word(w, b"idles") => Some(Reply::Idles),
        w if is_word(w, b"granted") => Some(Reply::Granted),
        w if is_word(w, b"queued") => Some(Reply::Queued),
        w if is_word(w, b"quiet") => Some(Reply::Quiet),
        w if is_word(w, b"deferred") => Some(Reply::Deferred),
        w if is_word(w, b"idle") => Some(Reply::Idle),
        w if is_word(w, b"spent") => Some(Reply::Spent),
        w if is_word(w, b"nobudget") => Some(Reply::NoBudget),
        w if is_word(w, b"notdeclared") => Some(Reply::NotDeclared),
        w if is_word(w, b"nested") => Some(Reply::Nested),
        w if is_word(w, b"notheld") => Some(Reply::NotHeld),
        w if is_word(w, b"notlast") => Some(Reply::NotLast),
        w if is_word(w, b"holding") => Some(Reply::Holding),
        w if is_word(w, b"innp") => Some(Reply::InNp),
        w if is_word(w, b"notinnp") => Some(Reply::NotInNp),
        w if is_word(w, b"tooearly") => Some(Reply::TooEarly),
        w if is_word(w, b"notsporadic") => Some(Reply::NotSporadic),
        _ => None,
    }
}

/// The reply that the task which comes next runs, and what stands after it.
fn runs_at<'a>(k: &Known, text: &'a [u8]) -> Option<(Reply, &'a [u8])>
    ensures { option_map (λ p. (p.0, reading.front p.1.now)) result
        ≡ reading.runs_at k.now (reading.front text.now) }
{
    let (task, rest) = task_at(k, text)?;
    Some((Reply::Runs(task), rest))
}

/// A reply, and what stands after it.
pub(crate) fn reply_at<'a>(k: &Known, text: &'a [u8]) -> Option<(Reply, &'a [u8])>
    ensures { option_map (λ p. (p.0, reading.front p.1.now)) result
        ≡ reading.reply_at k.now (reading.front text.now) }
{
    let (word, rest) = word_at(text);
    match bare_reply(word) {
        Some(reply) => Some((reply, rest)),
        None => match word {
            w if is_word(w, b"runs") => runs_at(k, rest),
            _ => None,
        },
    }
}
