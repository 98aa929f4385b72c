//! Reading a trace.
ghost use Rattle.std.specs.Prelude.{◌≡◌, IfErr, IfOk, MatchOption};
ghost use Rattle.trace_lines.specs.Known as known;
ghost use Rattle.trace_read.specs.Lines.{line_of, lines_of};
ghost use Rattle.trace_read.specs.declared.fault.TraceFault.TheVariants as faults;
ghost use Rattle.trace_read.specs.Reads.{AreLines, HasRead, IsHeadOf, IsTraceOf, stop_at};
ghost use Rattle.trace_read.specs.Seen.{BeginsNoLine, BeginsLine, Tells};

use crate::fits::line_fits;
use crate::head::{TraceHead, after, read_head};
use crate::known::Known;
use crate::parse::line_in;
use crate::put::put_line;
use crate::{Line, LineList, Trace, TraceFault};
use rt_task::Setup;
use std::alloc::{AllocError, Global};
use trace_lines::Version;

/// The line that bytes begin with, and what stands after it. What was parsed is checked against its own text, which is
/// written into `text`.
fn read_line<'a>(
    alloc: Global,
    k: &Known,
    bytes: &'a [u8],
    text: &mut Vec<u8>,
) -> Result<Option<(Line, &'a [u8])>, TraceFault>
    requires { Tells k.now }
    ensures line { IfOk result (λ o. MatchOption o
        (BeginsNoLine k.now bytes.now) (λ x. BeginsLine k.now bytes.now (line_of x.0) x.1.now)) }
    ensures memory { IfErr result (λ e. e ≡ faults.NoMemory) }
{
    let Some(line) = line_in(alloc, k, bytes)? else {
        return Ok(None);
    };
    if !line_fits(k, &line) {
        return Ok(None);
    }
    text.clear();
    put_line(text, k.format(), &line)?;
    match after(text.as_slice(), bytes) {
        None => Ok(None),
        Some(rest) => Ok(Some((line, rest))),
    }
}

/// The lines that bytes begin with, up to the first that is none of the grammar, and what is left from there on.
fn read_lines<'a>(
    alloc: Global,
    k: &Known,
    bytes: &'a [u8],
) -> Result<(LineList, &'a [u8]), TraceFault>
    requires { Tells k.now }
    ensures lines { IfOk result (λ x. AreLines k.now bytes.now (lines_of x.0) x.1.now) }
    ensures memory { IfErr result (λ e. e ≡ faults.NoMemory) }
{
    let mut lines = Vec::new(alloc);
    let mut text = Vec::new(alloc);
    let mut left = bytes;
    while let Some((line, rest)) = read_line(alloc, k, left, &mut text)? {
        match lines.push(line) {
            Ok(()) => left = rest,
            Err(_) => return Err(TraceFault::NoMemory),
        }
    }
    Ok((LineList::from_vec(lines), left))
}

/// The lines of a trace of this set, up to the first that is none of the grammar, and what is left from there on.
fn read_lines_of<'a>(
    alloc: Global,
    version: Version,
    setup: &Setup,
    bytes: &'a [u8],
) -> Result<(LineList, &'a [u8]), TraceFault>
    ensures lines { let k = known.known_of version setup.now in
        IfOk result (λ x. AreLines k bytes.now (lines_of x.0) x.1.now) }
    ensures memory { IfErr result (λ e. e ≡ faults.NoMemory) }
{
    let k = Known::of(alloc, version, setup)?;
    read_lines(alloc, &k, bytes)
}

/// The number of the line that follows the two of the head and these, from 1, where anything is left.
fn stop_after(lines: &[Line], left: &[u8]) -> Result<Option<u32>, TraceFault>
    ensures stop { IfOk result (λ o. o ≡ stop_at (lines_of lines.now) left.now) }
    ensures memory { IfErr result (λ e. e ≡ faults.NoMemory) }
{
    if left.is_empty() {
        return Ok(None);
    }
    match u32::try_from(lines.len()) {
        Ok(n) if n < u32::MAX - 3 => Ok(Some(n + 3)),
        _ => Err(TraceFault::NoMemory),
    }
}

impl TraceHead {
    /// The lines behind these two, up to the first that is none of the grammar. More lines than a `u32` numbers are answered as
    /// memory that ran out.
    pub fn read_lines(&self, alloc: Global, bytes: &[u8]) -> Result<Trace, TraceFault>
        requires { IsHeadOf bytes.now self.now }
        ensures trace { IfOk result (λ t. IsTraceOf bytes.now self.now.version self.now.setup
            (lines_of t.lines) t.stop) }
        ensures version { IfOk result (λ t. t.version ≡ self.now.version) }
        ensures setup { IfOk result (λ t. t.setup ≡ self.now.setup) }
        ensures memory { IfErr result (λ e. e ≡ faults.NoMemory) }
    {
        let setup = self.setup.share()?;
        let rest = &bytes[self.length..];
        let (lines, left) = read_lines_of(alloc, self.version, &setup, rest)?;
        let stop = stop_after(lines.as_slice(), left)?;
        Ok(Trace {
            version: self.version,
            setup,
            lines,
            stop,
        })
    }
}

/// Reads the bytes of a trace: its format, its set, and its lines up to the first that is none of the grammar. It refuses what
/// `read_head` refuses. More lines than a `u32` numbers are answered as memory that ran out.
pub fn read_trace(alloc: Global, bytes: &[u8]) -> Result<Trace, TraceFault>
    ensures { HasRead bytes.now result }
{
    let head = read_head(alloc, bytes)?;
    head.read_lines(alloc, bytes)
}
