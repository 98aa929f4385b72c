//! The words of replies.
ghost use Rattle.std.specs.Prelude.{◌≡◌, ◌++◌, OnOk};
ghost use Rattle.trace_lines.specs.Words.{further};
ghost use Rattle.trace_lines.specs.Known.{known_in};
ghost use Rattle.trace_lines.specs.Grammar.{reply_words};

use crate::Format;
use crate::put::put;
use crate::tasks::put_word_and_task;
use rt_rules::Reply;
use std::alloc::AllocError;

/// The words of a reply, each after a space.
#[inline(always)]
pub fn put_reply(out: &mut Vec<u8>, format: &Format, reply: Reply) -> Result<(), AllocError>
    ensures { OnOk result (out.new.items
        ≡ out.old.items ++ further 32 (reply_words (known_in format.now) reply)) }
{
    match reply {
        Reply::Done => put(out, b" done"),
        Reply::Runs(t) => put_word_and_task(out, format, b"runs", t),
        Reply::Idles => put(out, b" idles"),
        Reply::Granted => put(out, b" granted"),
        Reply::Queued => put(out, b" queued"),
        Reply::Quiet => put(out, b" quiet"),
        Reply::Deferred => put(out, b" deferred"),
        Reply::Idle => put(out, b" idle"),
        Reply::Spent => put(out, b" spent"),
        Reply::NoBudget => put(out, b" nobudget"),
        Reply::NotDeclared => put(out, b" notdeclared"),
        Reply::Nested => put(out, b" nested"),
        Reply::NotHeld => put(out, b" notheld"),
        Reply::NotLast => put(out, b" notlast"),
        Reply::Holding => put(out, b" holding"),
        Reply::InNp => put(out, b" innp"),
        Reply::NotInNp => put(out, b" notinnp"),
        Reply::TooEarly => put(out, b" tooearly"),
        Reply::NotSporadic => put(out, b" notsporadic"),
    }
}
