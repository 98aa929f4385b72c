//! The members that events begin with.
ghost use Rattle.std.specs.Prelude.{◌≡◌, ◌++◌, OnOk, codes};
ghost use Rattle.event_texts.specs.Records.{begun, on_thread};
ghost use Rattle.event_lines.specs.inside.Openings.{letter, named_to, span_times, span_to};

use crate::put::{put, put_microseconds, put_number};
use crate::threads::Thread;
use std::alloc::AllocError;

/// What an event is.
#[derive(Clone, Copy)]
pub(crate) enum Phase {
    /// Something that lasts from one tick up to another.
    Span,
    /// Something at a tick.
    Instant,
    /// What a count comes to from a tick on.
    Count,
    /// The name of a process or of a thread.
    Name,
}

/// What ends an event with arguments, with the comma and the line feed behind it.
pub(crate) const END: &[u8] = b"}},\n";

/// How an event begins, up to its process.
fn opening(phase: Phase) -> &'static [u8]
    ensures { result.now ≡ codes "{\"ph\":\"" ++ (letter phase ++ codes "\",\"pid\":") }
{
    match phase {
        Phase::Span => b"{\"ph\":\"X\",\"pid\":",
        Phase::Instant => b"{\"ph\":\"i\",\"pid\":",
        Phase::Count => b"{\"ph\":\"C\",\"pid\":",
        Phase::Name => b"{\"ph\":\"M\",\"pid\":",
    }
}

/// What an event is, and its process.
#[tactic(auto, using(crate::proofs::Joins::joins))]
pub(crate) fn put_begun(text: &mut Vec<u8>, phase: Phase, process: u64) -> Result<(), AllocError>
    ensures { OnOk result (text.new.items ≡ text.old.items ++ begun (letter phase) process) }
{
    put(text, opening(phase))?;
    put_number(text, process)
}

/// These and its thread.
#[tactic(auto, using(crate::proofs::Joins::joins))]
pub(crate) fn put_on_thread(
    text: &mut Vec<u8>,
    phase: Phase,
    process: u64,
    thread: u64,
) -> Result<(), AllocError>
    ensures { OnOk result
        (text.new.items ≡ text.old.items ++ on_thread (letter phase) process thread) }
{
    put_begun(text, phase, process)?;
    put(text, b",\"tid\":")?;
    put_number(text, thread)
}

/// What an event names, up to the name.
pub(crate) fn open_named(text: &mut Vec<u8>, what: &[u8]) -> Result<(), AllocError>
    ensures { OnOk result (text.new.items ≡ text.old.items ++ named_to what.now) }
{
    put(text, b",\"name\":\"")?;
    put(text, what)?;
    put(text, b"\",\"args\":{\"name\":\"")
}

/// When a span begins, and how long it lasts.
#[tactic(auto, using(crate::proofs::Joins::joins))]
fn put_times(text: &mut Vec<u8>, from: u64, to: u64) -> Result<(), AllocError>
    ensures { OnOk result (text.new.items ≡ text.old.items ++ span_times from to) }
{
    put_microseconds(text, u128::from(from))?;
    put(text, b",\"dur\":")?;
    put_microseconds(text, u128::from(to.saturating_sub(from)))
}

/// A span, up to its category.
#[tactic(auto, using(crate::proofs::Joins::joins))]
pub(crate) fn open_span(
    text: &mut Vec<u8>,
    thread: &Thread,
    from: u64,
    to: u64,
) -> Result<(), AllocError>
    ensures { OnOk result (text.new.items ≡ text.old.items ++ span_to thread.now from to) }
{
    thread.open_span(text)?;
    put_times(text, from, to)
}
