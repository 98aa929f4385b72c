//! Why a trace is refused or invalid.
ghost use Rattle.std.specs.Prelude.{◌≡◌, ◌++◌, List, map, IfOk, OnOk};
ghost use Rattle.set_explain.specs.Shown.{rule_shown};
ghost use Rattle.trace_tools.specs.Tools.{Tool};
ghost use Rattle.trace_read.specs.Reads.{HasBadSet, IsHeadOf, IsRefused};
ghost use Rattle.trace_read.specs.declared.fault.TraceFault.TheVariants as faults;
ghost use Rattle.explain_command.specs.Explaining.{TraceIsExplained};
ghost use Rattle.explain_command.specs.Texts as texts;

use crate::lines::set_text;
use crate::outcome::{Explained, Outcome};
use crate::put::put;
use crate::set::fine;
use crate::verdict::wrong_line;
use rt_base::NoMemory;
use rt_task::{BadSet, Part, Place, SetKind, Setup};
use set_explain::{Cause, Rule, cause_of, explanation};
use std::alloc::{AllocError, Global};
use trace_check::{Verdict, check_trace};
use trace_read::{TraceFault, TraceHead, read_head};
use trace_tools::{Bus, TraceTool};

/// The rule of a line of the head.
fn head_rule(line: u32) -> Rule
    ensures { rule_shown result ≡ texts.head_rule line }
{
    if line == 1 {
        Rule {
            member: "first line",
            says: "rtsched trace 1 or rtsched trace 2",
        }
    } else {
        Rule {
            member: "second line",
            says: "set, a space and the text of a set",
        }
    }
}

/// The text that explains that this line of the head is none.
fn headless(alloc: Global, bytes: &[u8], line: u32) -> Result<Explained, NoMemory>
    requires { IsRefused bytes.now (faults.NotTrace line) }
    ensures { IfOk result (λ x. (tools : List Tool)
        → TraceIsExplained tools bytes.now x.outcome x.text.items) }
{
    let place = Place {
        part: Part::Line,
        index: line,
    };
    let bad = BadSet {
        kind: SetKind::NotTrace,
        place,
    };
    let text = explanation(alloc, bad, Cause::Broken(head_rule(line)))?;
    Ok(Explained {
        outcome: Outcome::Refused(bad),
        text,
    })
}

#[tactic(auto, unfolding(crate::specs::Texts::in_trace))]
fn put_in_trace(out: &mut Vec<u8>) -> Result<(), AllocError>
    ensures { OnOk result (out.new.items ≡ out.old.items ++ texts.in_trace) }
{
    put(
        out,
        "in: line 2 of the trace, where the text of the set begins at column 5\n",
    )
}

/// The text that explains why the set of a trace is refused.
fn bad_set(alloc: Global, bytes: &[u8], bad: BadSet) -> Result<Explained, NoMemory>
    requires { HasBadSet bytes.now bad }
    ensures { IfOk result (λ x. (tools : List Tool)
        → TraceIsExplained tools bytes.now x.outcome x.text.items) }
{
    let cause = cause_of(alloc, set_text(bytes), bad)?;
    let mut text = explanation(alloc, bad, cause)?;
    put_in_trace(&mut text)?;
    Ok(Explained {
        outcome: Outcome::Refused(bad),
        text,
    })
}

/// What is said where this line is the first that is wrong.
fn wrong(alloc: Global, bytes: &[u8], setup: &Setup, line: u32) -> Result<Explained, NoMemory>
    ensures { IfOk result (λ x. (x.outcome ≡ Outcome.Wrong line)
        × (x.text.items ≡ texts.wrong_line bytes.now setup.now line)) }
{
    let text = wrong_line(alloc, bytes, setup, line)?;
    Ok(Explained {
        outcome: Outcome::Wrong(line),
        text,
    })
}

/// The verdict on a trace whose set is valid, with the text that explains it.
fn judged<T: TraceTool>(
    alloc: Global,
    bytes: &[u8],
    head: &TraceHead,
    tools: Vec<T>,
) -> Result<Explained, NoMemory>
    requires { IsHeadOf bytes.now head.now }
    ensures { IfOk result (λ x.
        TraceIsExplained (map T.tool tools.items) bytes.now x.outcome x.text.items) }
{
    let Ok(mut bus) = Bus::open(alloc, tools) else {
        return Err(NoMemory);
    };
    match check_trace(alloc, bytes, head, &mut bus) {
        Ok(Verdict::Valid(_)) => fine(alloc, "nothing is refused: a valid trace\n"),
        Ok(Verdict::Invalid(line)) => wrong(alloc, bytes, &head.setup, line),
        Err(_) => Err(NoMemory),
    }
}

/// What the bytes come to as a trace.
pub(crate) fn trace_explained<T: TraceTool>(
    alloc: Global,
    bytes: &[u8],
    tools: Vec<T>,
) -> Result<Explained, NoMemory>
    ensures { IfOk result (λ x. TraceIsExplained (map T.tool tools.items) bytes.now x.outcome x.text.items) }
{
    match read_head(alloc, bytes) {
        Ok(head) => judged(alloc, bytes, &head, tools),
        Err(TraceFault::NotTrace(line)) => headless(alloc, bytes, line),
        Err(TraceFault::BadSet(bad)) => bad_set(alloc, bytes, bad),
        Err(TraceFault::NoMemory) => Err(NoMemory),
    }
}
