//! A line that was read, as text again.
ghost use Rattle.std.specs.Prelude.{◌≡◌, ◌++◌, OnOk};
ghost use Rattle.trace_lines.specs.Grammar.{line_text};
ghost use Rattle.trace_lines.specs.Known.{known_in};
ghost use Rattle.trace_read.specs.Lines.{line_of};

use crate::Line;
use rt_base::NoMemory;
use trace_lines::{
    Format, put_block_line, put_count_line, put_end_line, put_entry_line, put_group_line,
};

/// Puts the text of a line in this format behind what stands in `out`.
pub fn put_line(out: &mut Vec<u8>, format: &Format, line: &Line) -> Result<(), NoMemory>
    ensures { let text = line_text (known_in format.now) (line_of line.now) in
        OnOk result (out.new.items ≡ out.old.items ++ text) }
{
    match line {
        Line::GroupLine { group, links } => put_group_line(out, format, *group, links.as_slice()),
        Line::EntryLine { no, entry, links } => {
            put_entry_line(out, format, *no, entry, links.as_slice())
        }
        Line::BlockLine {
            no,
            task,
            sem,
            ends,
            ends_all,
            bound,
        } => put_block_line(out, format, *no, *task, *sem, *ends, *ends_all, *bound),
        Line::EndLine => put_end_line(out),
        Line::CountLine { name, totals } => put_count_line(out, *name, totals.as_slice()),
    }
}
