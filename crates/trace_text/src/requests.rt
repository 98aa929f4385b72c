//! The line of a request.
ghost use Rattle.std.specs.Prelude.{◌≡◌, ◌++◌, OnOk};
ghost use Rattle.block_counts.specs.SeenWords.{tally_of};
ghost use Rattle.trace_lines.specs.Grammar.{line_text};
ghost use Rattle.trace_lines.specs.Known.{known_in};
ghost use Rattle.trace_text.specs.Groups.{request_line};

use block_counts::Seen;
use rt_base::NoMemory;
use trace_lines::{Format, put_block_line};

/// Appends the line of a request.
pub fn put_request_line(out: &mut Vec<u8>, format: &Format, seen: &Seen) -> Result<(), NoMemory>
    ensures { let text = line_text (known_in format.now) in
        OnOk result (out.new.items ≡ out.old.items ++ text (request_line (tally_of seen.now))) }
{
    put_block_line(
        out,
        format,
        seen.no,
        seen.task,
        seen.sem,
        seen.ends,
        seen.ends_all,
        seen.bound,
    )
}
