//! The command `load`: from a number to what the histories of its set come to.
ghost use Rattle.std.specs.Prelude.{◌≡◌, ◌≢◌, ◌++◌, flat_map, map, OnOk};
ghost use Rattle.rt_fault.specs.Faults.{HasRisen};
ghost use Rattle.trace_lines.specs.Grammar.{line_text};
ghost use Rattle.trace_lines.specs.Known.{Known};
ghost use Rattle.trace_tools.specs.BusCounters.{counters};
ghost use Rattle.trace_tools.specs.Counters.{counter_line};
ghost use Rattle.trace_writer.specs.Writing.{Came};
ghost use Rattle.set_input.specs.Ends.{writing};
ghost use Rattle.set_input.specs.Answers.{IsUnwritten};
ghost use Rattle.sim_commands.specs.Load.{number_line, summary_text};
ghost use Rattle.sim_commands.specs.LoadAnswers.{LoadAnswers};

use itoa::Buffer;
use load_set::load_set;
use rt_fault::{Sink, Status};
use std::alloc::{AllocError, Global};
use trace_tools::{Bus, TraceTool};
use trace_writer::{Summary, WriteStop, summarize, write_bytes, write_counts};

/// A word, a number, what follows it, and a line feed.
#[tactic(auto, using(std::proofs::Common::append_assoc))]
fn put_number_line(
    text: &mut Vec<u8>,
    word: &[u8],
    number: u64,
    rest: &[u8],
) -> Result<(), AllocError>
    ensures { OnOk result
        (text.new.items ≡ text.old.items ++ number_line word.now number rest.now) }
{
    let mut buffer = Buffer::new();
    text.extend_from_slice(word)?;
    text.extend_from_slice(buffer.format(number).as_bytes())?;
    text.extend_from_slice(rest)?;
    text.extend_from_slice(b"\n")
}

/// Writes such a line, built in a text that is used again.
fn write_number_line<K: Sink>(
    out: &mut K,
    line: &mut Vec<u8>,
    word: &[u8],
    number: u64,
    rest: &[u8],
) -> Result<(), WriteStop>
    ensures { Came result (writing K.held K.faults out.old out.new)
        (number_line word.now number rest.now) }
{
    line.clear();
    put_number_line(line, word, number, rest)?;
    write_bytes(out, line.as_slice())
}

/// Writes what the histories of a load come to.
fn write_summary<K: Sink>(
    alloc: Global,
    n: u64,
    summary: Summary,
    out: &mut K,
) -> Result<(), WriteStop>
    ensures { Came result (writing K.held K.faults out.old out.new) (summary_text n summary) }
{
    let mut line = Vec::new(alloc);
    write_number_line(out, &mut line, b"load ", n, b"")?;
    write_number_line(out, &mut line, b"entries ", u64::from(summary.entries), b"")?;
    write_number_line(
        out,
        &mut line,
        b"requests ",
        u64::from(summary.requests),
        b"",
    )?;
    write_number_line(out, &mut line, b"most ", u64::from(summary.most), b" of 7")
}

/// Writes that, and the count lines of a bus.
fn write_load<T: TraceTool, K: Sink>(
    alloc: Global,
    n: u64,
    summary: Summary,
    bus: &Bus<T>,
    out: &mut K,
) -> Result<(), WriteStop>
    ensures { (k : Known)
        → Came result (writing K.held K.faults out.old out.new)
        (summary_text n summary ++ flat_map (line_text k) (map counter_line (counters T.tool bus.now))) }
{
    write_summary(alloc, n, summary, out)?;
    write_counts(alloc, bus, out)
}

/// Makes the set of a number, plays its turns, and writes what the histories that come about come to, with the count
/// lines of the tools.
pub(crate) fn load<T: TraceTool, K: Sink>(
    alloc: Global,
    n: u64,
    out: &mut K,
    tools: Vec<T>,
) -> Status
    ensures answers { LoadAnswers (map T.tool tools.items) n
        (writing K.held K.faults out.old out.new) result }
    ensures written { IsUnwritten result → ⊥ }
    ensures write_fault { result ≡ Status.WriteFault →
        HasRisen (K.faults out.old) (K.faults out.new) }
    ensures no_write_fault { result ≢ Status.WriteFault → K.faults out.new ≡ K.faults out.old }
{
    let Ok(setup) = load_set(alloc, n) else {
        return Status::NoMemory;
    };
    let Ok(mut bus) = Bus::open(alloc, tools) else {
        return Status::NoMemory;
    };
    let Ok(summary) = summarize(alloc, &setup, &mut bus) else {
        return Status::NoMemory;
    };
    match write_load(alloc, n, summary, &bus, out) {
        Ok(()) => Status::Ok,
        Err(WriteStop::Fault) => Status::WriteFault,
        Err(WriteStop::NoMemory) => Status::NoMemory,
    }
}
