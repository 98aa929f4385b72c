//! Why a set is refused.
ghost use Rattle.std.specs.Prelude.{◌≡◌, IfErr, IfOk, Some};
ghost use Rattle.serde_json.specs.View.{view};
ghost use Rattle.set_read.specs.Sets.{value_of};
ghost use Rattle.set_explain.specs.Broken as spec;
ghost use Rattle.set_explain.specs.Causes as causes;
ghost use Rattle.set_explain.specs.Causes.{IsCause};
ghost use Rattle.set_explain.specs.Shown.{cause_shown, shown};

use crate::draft_rule::draft_rule;
use crate::form_rule::form_rule;
use crate::rule::Rule;
use rt_base::NoMemory;
use rt_task::{BadSet, SetKind, SetStop};
use serde_json::Value;
use set_read::read_draft;
use std::alloc::Global;

/// Why a set is refused.
#[derive(Clone, Copy, PartialEq, Eq)]
pub enum Cause {
    /// It breaks this rule.
    Broken(Rule),
    /// Its bytes are no JSON value: the line and the column, from 1, up to which they could be one, as the reader tells.
    NotJson { line: u64, column: u64 },
    /// No rule is named for this refusal.
    Unnamed,
}

/// The rule that a value breaks where it is refused so.
#[tactic(auto, unfolding(crate::specs::Broken::broken_rule, set_read::specs::Sets::draft_in_bytes))]
fn rule_of(alloc: Global, bytes: &[u8], value: &Value, bad: BadSet) -> Result<Option<Rule>, SetStop>
    requires { value_of bytes.now ≡ Some (view value.now) }
    ensures rule { IfOk result (λ r. shown r ≡ spec.broken_rule bytes.now bad) }
    ensures memory { IfErr result (λ e. e ≡ SetStop.NoMemory) }
{
    if bad.kind == SetKind::Shape {
        return form_rule(alloc, value, bad.place);
    }
    match read_draft(alloc, bytes) {
        Ok(draft) => draft_rule(alloc, &draft, bad.kind, bad.place),
        Err(SetStop::NoMemory) => Err(SetStop::NoMemory),
        Err(SetStop::Bad(_)) => Ok(None),
    }
}

fn named(rule: Option<Rule>) -> Cause
    ensures { cause_shown result ≡ causes.named (shown rule) }
{
    match rule {
        Some(rule) => Cause::Broken(rule),
        None => Cause::Unnamed,
    }
}

/// Why the set in these bytes is refused so. Memory is taken in proportion to the bytes.
pub fn cause_of(alloc: Global, bytes: &[u8], bad: BadSet) -> Result<Cause, NoMemory>
    ensures { IfOk result (λ c. IsCause bytes.now bad (cause_shown c)) }
{
    match Value::from_slice(alloc, bytes) {
        Ok(value) => match rule_of(alloc, bytes, &value, bad) {
            Ok(rule) => Ok(named(rule)),
            Err(_) => Err(NoMemory),
        },
        Err(e) if e.is_memory() => Err(NoMemory),
        Err(e) => Ok(Cause::NotJson {
            line: e.line() as u64,
            column: e.column() as u64,
        }),
    }
}
