//! The text that explains a refusal.
ghost use Rattle.std.specs.Prelude.{◌≡◌, ◌++◌, IfOk, OnOk};
ghost use Rattle.set_explain.specs.Shown.{cause_shown, rule_shown};
ghost use Rattle.set_explain.specs.Texts as texts;

use crate::cause::Cause;
use crate::rule::Rule;
use rt_base::NoMemory;
use rt_task::{BadSet, Part, Place};
use std::alloc::{AllocError, Global};
use trace_lines::put_number;

fn put(out: &mut Vec<u8>, text: &str) -> Result<(), AllocError>
    ensures { OnOk result (out.new.items ≡ out.old.items ++ text.now) }
{
    out.extend_from_slice(text.as_bytes())
}

#[tactic(auto, using(std::proofs::Common::append_assoc), unfolding(crate::specs::Texts::rule_line))]
fn put_rule(out: &mut Vec<u8>, rule: Rule) -> Result<(), AllocError>
    ensures { OnOk result (out.new.items ≡ out.old.items ++ texts.rule_line (rule_shown rule)) }
{
    put(out, rule.member)?;
    put(out, ": ")?;
    put(out, rule.says)?;
    put(out, "\n")
}

#[tactic(auto, using(std::proofs::Common::append_assoc), unfolding(crate::specs::Texts::json_line))]
fn put_json(out: &mut Vec<u8>, line: u64, column: u64) -> Result<(), AllocError>
    ensures { OnOk result (out.new.items ≡ out.old.items ++ texts.json_line line column) }
{
    put(out, "line ")?;
    put_number(out, line)?;
    put(out, ", column ")?;
    put_number(out, column)?;
    put(out, ": no JSON value goes on so\n")
}

fn put_cause(out: &mut Vec<u8>, cause: Cause) -> Result<(), AllocError>
    ensures { OnOk result (out.new.items ≡ out.old.items ++ texts.cause_line (cause_shown cause)) }
{
    match cause {
        Cause::Broken(rule) => put_rule(out, rule),
        Cause::NotJson { line, column } => put_json(out, line, column),
        Cause::Unnamed => put(out, "no rule is named\n"),
    }
}

#[tactic(auto, using(std::proofs::Common::append_assoc), unfolding(crate::specs::Texts::element))]
fn put_element(out: &mut Vec<u8>, array: &str, index: u32) -> Result<(), AllocError>
    ensures { OnOk result (out.new.items ≡ out.old.items ++ texts.element array.now index) }
{
    put(out, "where: ")?;
    put(out, array)?;
    put(out, "[")?;
    put_number(out, u64::from(index))?;
    put(out, "]\n")
}

#[tactic(auto, using(std::proofs::Common::append_assoc), unfolding(crate::specs::Texts::counted))]
fn put_counted(out: &mut Vec<u8>, before: &str, index: u32, between: &str) -> Result<(), AllocError>
    ensures { OnOk result (out.new.items
        ≡ out.old.items ++ texts.counted before.now index between.now) }
{
    put(out, before)?;
    put_number(out, u64::from(index))?;
    put(out, between)?;
    put_number(out, u64::from(index) + 1)
}

#[tactic(auto, using(std::proofs::Common::append_assoc))]
fn put_sem(out: &mut Vec<u8>, index: u32) -> Result<(), AllocError>
    ensures { OnOk result (out.new.items ≡ out.old.items ++ texts.sem_place index) }
{
    put_counted(out, "where: sems[", index, "], semaphore ")?;
    put(out, " of a trace\n")
}

#[tactic(auto, unfolding(crate::specs::Texts::where_numbered))]
fn put_where_numbered(out: &mut Vec<u8>) -> Result<(), AllocError>
    ensures { OnOk result (out.new.items ≡ out.old.items ++ texts.where_numbered) }
{
    put(out, " where a trace numbers tasks\n")
}

#[tactic(auto, unfolding(crate::specs::Texts::of_trace))]
fn put_of_trace(out: &mut Vec<u8>) -> Result<(), AllocError>
    ensures { OnOk result (out.new.items ≡ out.old.items ++ texts.of_trace) }
{
    put(out, " of the trace; the first is 1\n")
}

#[tactic(auto, using(std::proofs::Common::append_assoc))]
fn put_task(out: &mut Vec<u8>, index: u32) -> Result<(), AllocError>
    ensures { OnOk result (out.new.items ≡ out.old.items ++ texts.task_place index) }
{
    put_counted(out, "where: tasks[", index, "], task ")?;
    put_where_numbered(out)
}

#[tactic(auto, using(std::proofs::Common::append_assoc), unfolding(crate::specs::Texts::line_place))]
fn put_line(out: &mut Vec<u8>, number: u32) -> Result<(), AllocError>
    ensures { OnOk result (out.new.items ≡ out.old.items ++ texts.line_place number) }
{
    put(out, "where: line ")?;
    put_number(out, u64::from(number))?;
    put_of_trace(out)
}

fn put_place(out: &mut Vec<u8>, place: Place) -> Result<(), AllocError>
    ensures { OnOk result (out.new.items
        ≡ out.old.items ++ texts.place_line place.part place.index) }
{
    match place.part {
        Part::Whole => put(out, "where: the set as a whole\n"),
        Part::Cluster => put_element(out, "clusters", place.index),
        Part::Sem => put_sem(out, place.index),
        Part::Resv => put_element(out, "resvs", place.index),
        Part::Task => put_task(out, place.index),
        Part::Step => put_element(out, "steps", place.index),
        Part::Line => put_line(out, place.index),
    }
}

/// The text that explains a refusal: why, and where.
#[tactic(auto, using(std::proofs::Common::append_assoc))]
pub fn explanation(alloc: Global, bad: BadSet, cause: Cause) -> Result<Vec<u8>, NoMemory>
    ensures { IfOk result (λ v. v.items ≡ texts.explanation bad (cause_shown cause)) }
{
    let mut out = Vec::new(alloc);
    put_cause(&mut out, cause)?;
    put_place(&mut out, bad.place)?;
    Ok(out)
}
