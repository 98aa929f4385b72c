//! Reading the first two lines of a trace.
ghost use Rattle.std.specs.Prelude.{◌≡◌, ◌≢◌, ◌++◌, ◌∷◌, ◌<◌, ℕ, List, All, MatchOption, MatchResult};
ghost use Rattle.trace_lines.specs.FirstLine as heads;
ghost use Rattle.trace_read.specs.Reads.{HasHead, HasReadHead, IsRefused, LacksFirstLine};
ghost use Rattle.trace_read.specs.Seen.{IsSplitAtFeed};

use crate::TraceFault;
use crate::canonical_set::read_line_set;
use memchr::memchr;
use rt_task::Setup;
use std::alloc::Global;
use trace_lines::{Version, first_line};

/// What was read of the first two lines of a trace.
#[derive(Drop)]
pub struct TraceHead {
    /// The format that the first line names.
    pub version: Version,
    pub setup: Setup,
    /// Whether the set's line was found to be the canonical text of the set. `false` says nothing.
    pub is_canonical: bool,
    /// How many bytes the two lines have, with their line feeds.
    pub length: usize,
}

/// What stands before the first line feed, and what stands after it.
pub(crate) fn split_line(bytes: &[u8]) -> Option<(&[u8], &[u8])>
    ensures { MatchOption result (All (λ
        (c : ℕ). c ≢ 10) bytes.now) (λ x. IsSplitAtFeed bytes.now x.0.now x.1.now) }
{
    match memchr(b'\n', bytes) {
        Some(i) => Some((&bytes[..i], &bytes[i + 1..])),
        None => None,
    }
}

/// What stands after these first bytes.
pub(crate) fn after<'a>(first: &[u8], bytes: &'a [u8]) -> Option<&'a [u8]>
    ensures { MatchOption result ((rest : List ℕ)
        → bytes.now ≢ first.now ++ rest) (λ x. bytes.now ≡ first.now ++ x.now) }
{
    bytes.strip_prefix(first)
}

/// The format that the first line names, and what stands after that line.
fn read_first(bytes: &[u8]) -> Option<(Version, &[u8])>
    ensures { MatchOption result (LacksFirstLine bytes.now)
        (λ x. bytes.now ≡ heads.first_line x.0 ++ x.1.now) }
{
    if let Some(rest) = after(first_line(Version::One), bytes) {
        return Some((Version::One, rest));
    }
    match after(first_line(Version::Two), bytes) {
        Some(rest) => Some((Version::Two, rest)),
        None => None,
    }
}

/// The format, the bytes of the set, and what stands after its line.
fn split_head(bytes: &[u8]) -> Result<(Version, &[u8], &[u8]), TraceFault>
    ensures { MatchResult result
        (λ x. HasHead x.0 bytes.now x.1.now x.2.now) (λ e. IsRefused bytes.now e) }
{
    let Some((version, second)) = read_first(bytes) else {
        return Err(TraceFault::NotTrace(1));
    };
    let Some(line) = after(b"set ", second) else {
        return Err(TraceFault::NotTrace(2));
    };
    match split_line(line) {
        None => Err(TraceFault::NotTrace(2)),
        Some((set, rest)) => Ok((version, set, rest)),
    }
}

/// Reads the first two lines of a trace: its format and its set. Refused are bytes that do not begin with the line of a
/// format, those whose second line does not begin as the set's or has no line feed, and a set that is refused.
pub fn read_head(alloc: Global, bytes: &[u8]) -> Result<TraceHead, TraceFault>
    ensures { HasReadHead bytes.now result }
{
    let (version, set, rest) = split_head(bytes)?;
    let (setup, is_canonical) = read_line_set(alloc, set)?;
    Ok(TraceHead {
        version,
        setup,
        is_canonical,
        length: bytes.len() - rest.len(),
    })
}
