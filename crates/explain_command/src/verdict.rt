//! The text that explains a verdict.
ghost use Rattle.std.specs.Prelude.{◌≡◌, ◌++◌, IfOk, OnOk};
ghost use Rattle.explain_command.specs.Texts as texts;

use crate::lines::{behind_lines, line_length};
use crate::put::{put, put_said};
use rt_base::NoMemory;
use rt_task::Setup;
use set_canonical::canonical;
use std::alloc::{AllocError, Global};
use trace_lines::put_number;

/// The line that bytes begin with, as it stands.
#[tactic(auto, unfolding(crate::specs::Texts::here))]
fn put_here(out: &mut Vec<u8>, rest: &[u8]) -> Result<(), AllocError>
    ensures { OnOk result (out.new.items ≡ out.old.items ++ texts.here rest.now) }
{
    let length = line_length(rest);
    if rest.is_empty() {
        return put(out, "missing: the text ends before it\n");
    }
    if length == rest.len() {
        return put_said(out, "here, without a line feed: ", rest);
    }
    put_said(out, "here: ", &rest[..length])
}

#[tactic(auto, unfolding(crate::specs::Texts::none_goes_on))]
fn put_none_goes_on(out: &mut Vec<u8>) -> Result<(), AllocError>
    ensures { OnOk result (out.new.items ≡ out.old.items ++ texts.none_goes_on) }
{
    put(
        out,
        ": a valid trace of this set has the lines before it, and none has this one behind them\n",
    )
}

#[tactic(auto, using(std::proofs::Common::append_assoc), unfolding(crate::specs::Texts::line_head))]
fn put_line_head(out: &mut Vec<u8>, line: u32) -> Result<(), AllocError>
    ensures { OnOk result (out.new.items ≡ out.old.items ++ texts.line_head line) }
{
    put(out, "line ")?;
    put_number(out, u64::from(line))?;
    put_none_goes_on(out)
}

/// What line 2 has to be, where that is the line.
fn put_wanted(alloc: Global, out: &mut Vec<u8>, setup: &Setup, line: u32) -> Result<(), NoMemory>
    ensures { OnOk result (out.new.items ≡ out.old.items ++ texts.wanted setup.now line) }
{
    if line == 2 {
        let set = canonical(alloc, setup)?;
        put_said(out, "wanted: set ", set.as_slice())?;
    }
    Ok(())
}

/// The text that explains that this line is the first that is wrong.
#[tactic(auto, using(std::proofs::Common::append_assoc), unfolding(crate::specs::Texts::wrong_line))]
pub(crate) fn wrong_line(
    alloc: Global,
    bytes: &[u8],
    setup: &Setup,
    line: u32,
) -> Result<Vec<u8>, NoMemory>
    ensures { IfOk result (λ v. v.items ≡ texts.wrong_line bytes.now setup.now line) }
{
    let mut out = Vec::new(alloc);
    put_line_head(&mut out, line)?;
    put_here(&mut out, behind_lines(bytes, line.saturating_sub(1)))?;
    put_wanted(alloc, &mut out, setup, line)?;
    Ok(out)
}
