//! The line that is right in a position, made anew, and compared with the text that stands there.
ghost use Rattle.std.specs.Prelude.{◌≡◌, ◌++◌, ℕ, List, OnOk, drop, length, true, false};
ghost use Rattle.block_counts.specs.SeenWords.{tally_of};
ghost use Rattle.trace_lines.specs.Grammar.{line_text};
ghost use Rattle.trace_lines.specs.Known.{known_of};
ghost use Rattle.trace_lines.specs.Lines.{entry_line, group_line, links_of};
ghost use Rattle.trace_text.specs.Groups.{request_line};

use block_counts::Seen;
use rt_base::{GroupNo, NoMemory};
use rt_rules::Entry;
use rt_task::Setup;
use trace_lines::{CpuLink, Format, LineNumbers, Version, put_group_line};
use trace_text::put_request_line;

/// Whether the text begins with the line.
pub(crate) fn begins_with(text: &[u8], line: &[u8]) -> bool
    ensures yes { result ≡ true → text.now ≡ line.now ++ drop (length line.now) text.now }
    ensures no { result ≡ false → (more : List ℕ) → text.now ≡ line.now ++ more → ⊥ }
{
    text.starts_with(line)
}

/// The line of a group with these links at opening, in the place of what stood in `line`.
pub(crate) fn make_group_line(
    line: &mut Vec<u8>,
    version: Version,
    setup: &Setup,
    group: GroupNo,
    links: &[CpuLink],
) -> Result<(), NoMemory>
    ensures { let text = line_text (known_of version setup.now) in
        OnOk result (line.new.items ≡ text (group_line group.0 (links_of links.now))) }
{
    let parts = setup.parts();
    line.clear();
    put_group_line(line, &Format { version, parts }, group, links)
}

/// The same of an entry.
pub(crate) fn make_entry_line(
    line: &mut Vec<u8>,
    numbers: &mut LineNumbers,
    version: Version,
    setup: &Setup,
    number: u32,
    entry: &Entry,
    links: &[CpuLink],
) -> Result<(), NoMemory>
    ensures { let text = line_text (known_of version setup.now) in
        OnOk result (line.new.items ≡ text (entry_line number entry.now (links_of links.now))) }
{
    let parts = setup.parts();
    line.clear();
    numbers.put_entry_line(line, &Format { version, parts }, number, entry, links)
}

/// The same of a request.
pub(crate) fn make_block_line(
    line: &mut Vec<u8>,
    version: Version,
    setup: &Setup,
    seen: &Seen,
) -> Result<(), NoMemory>
    ensures { let text = line_text (known_of version setup.now) in
        OnOk result (line.new.items ≡ text (request_line (tally_of seen.now))) }
{
    let parts = setup.parts();
    line.clear();
    put_request_line(line, &Format { version, parts }, seen)
}
