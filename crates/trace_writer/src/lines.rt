//! Lines, built in a text that is used again, and then written: one by one, or some thousand bytes of them at once.
ghost use Rattle.std.specs.Prelude.{◌++◌, ◌∷◌, [], codes};
ghost use Rattle.trace_lines.specs.Known.{Known, known_in};
ghost use Rattle.trace_lines.specs.Grammar.{line_text};
ghost use Rattle.trace_lines.specs.Lines.{links_of, group_line, end_line};
ghost use Rattle.rt_fault.specs.Ends.{writing};
ghost use Rattle.trace_writer.specs.Writing.{Came, Sends};

use crate::WriteStop;
use rt_base::GroupNo;
use rt_fault::{Sink, put_all};
use trace_lines::{CpuLink, Format, put_end_line, put_group_line};

/// Writes bytes.
pub fn write_bytes<K: Sink>(out: &mut K, bytes: &[u8]) -> Result<(), WriteStop>
    ensures { Came result (writing K.held K.faults out.old out.new) bytes.now }
{
    put_all(out, bytes)?;
    Ok(())
}

/// Writes the line of a set with this text, which is not copied.
pub fn write_set_line<K: Sink>(out: &mut K, set: &[u8]) -> Result<(), WriteStop>
    ensures { Came result (writing K.held K.faults out.old out.new)
        (codes "set " ++ (set.now ++ 10 ∷ [])) }
{
    write_bytes(out, b"set ")?;
    write_bytes(out, set)?;
    write_bytes(out, b"\n")
}

/// Writes the line of a group.
pub fn write_group_line<K: Sink>(
    out: &mut K,
    line: &mut Vec<u8>,
    format: &Format,
    group: GroupNo,
    links: &[CpuLink],
) -> Result<(), WriteStop>
    ensures { Came result (writing K.held K.faults out.old out.new)
        (line_text (known_in format.now) (group_line group.0 (links_of links.now))) }
{
    line.clear();
    put_group_line(line, format, group, links)?;
    write_bytes(out, line.as_slice())
}

/// Gathered lines are written once they have so many bytes.
const WRITTEN_FROM: usize = 4_096;

/// Writes lines that were gathered, and empties their text, once they are long enough.
#[inline(always)]
pub fn write_when_long<K: Sink>(out: &mut K, lines: &mut Vec<u8>) -> Result<(), WriteStop>
    ensures { Sends result (writing K.held K.faults out.old out.new)
        lines.old.items lines.new.items }
{
    if lines.len() < WRITTEN_FROM {
        return Ok(());
    }
    write_bytes(out, lines.as_slice())?;
    lines.clear();
    Ok(())
}

/// Writes the line `end`.
pub fn write_end_line<K: Sink>(out: &mut K, line: &mut Vec<u8>) -> Result<(), WriteStop>
    ensures { (k : Known)
        → Came result (writing K.held K.faults out.old out.new) (line_text k end_line) }
{
    line.clear();
    put_end_line(line)?;
    write_bytes(out, line.as_slice())
}
