//! The lines of a text.
ghost use Rattle.std.specs.Prelude.{◌≡◌, ◌≢◌, ◌≤◌, ℕ, ◌++◌, List, length, MatchOption};
ghost use Rattle.trace_check.specs.LinesAlike as alike;
ghost use Rattle.trace_lines.specs.declared.format.Version.{Version};
ghost use Rattle.trace_read.specs.Reads.{HasHead};
ghost use Rattle.explain_command.specs.Lines as spec;

/// How many bytes stand before the first line feed, or in all where there is none.
pub(crate) fn line_length(bytes: &[u8]) -> usize
    ensures value { result ≡ spec.line_length bytes.now }
    ensures within { result ≤ length bytes.now }
{
    for (i, c) in bytes.iter().enumerate() {
        if *c == b'\n' {
            return i;
        }
    }
    bytes.len()
}

/// What stands behind the first line feed; nothing where there is none.
fn behind_line(bytes: &[u8]) -> &[u8]
    ensures { result.now ≡ alike.behind_line bytes.now }
{
    for (i, c) in bytes.iter().enumerate() {
        if *c == b'\n' {
            return &bytes[i + 1..];
        }
    }
    &bytes[bytes.len()..]
}

/// What stands behind the first `lines` line feeds.
pub(crate) fn behind_lines(bytes: &[u8], lines: u32) -> &[u8]
    ensures { result.now ≡ alike.behind_lines lines bytes.now }
{
    let mut rest = bytes;
    for _ in 0..lines {
        rest = behind_line(rest);
    }
    rest
}

/// What stands behind these first bytes.
fn after<'a>(first: &[u8], bytes: &'a [u8]) -> Option<&'a [u8]>
    ensures { MatchOption result ((rest : List ℕ)
        → bytes.now ≢ first.now ++ rest) (λ x. bytes.now ≡ first.now ++ x.now) }
{
    bytes.strip_prefix(first)
}

/// The text of the set that a trace says on its second line.
pub(crate) fn set_text(bytes: &[u8]) -> &[u8]
    ensures { (version : Version) (text rest : List ℕ)
        → HasHead version bytes.now text rest → result.now ≡ text }
{
    let second = behind_line(bytes);
    let line = &second[..line_length(second)];
    match after(b"set ", line) {
        Some(text) => text,
        None => line,
    }
}
