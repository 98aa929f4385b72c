//! Reading acts, operations and steps, whose names stand for positions.
ghost use Rattle.std.specs.Prelude.{◌≡◌, map, ◌^◌, ◌<◌, ◌+◌, ◌≤◌, length, option_map};
ghost use Rattle.serde_json.specs.Data.{number, string, unsigned};
ghost use Rattle.serde_json.specs.View.{view};
ghost use Rattle.set_read.specs.Document as document;
ghost use Rattle.set_read.specs.Forms as forms;
ghost use Rattle.set_read.specs.Names.{names_seen};

use crate::names::Names;
use rt_base::{SemNo, TaskNo};
use rt_task::{Act, DraftStep, Op};
use serde_json::Value;

/// The names of a document.
#[derive(Drop)]
pub struct NameLists<'a> {
    pub sems: Names<'a>,
    pub resvs: Names<'a>,
    pub tasks: Names<'a>,
}

/// An operation with a name.
pub(crate) fn op_named(names: &NameLists, word: &[u8], name: &str) -> Option<Op>
    ensures { result ≡ document.op_with (names_seen names.now) word.now (string name.now) }
{
    match word {
        b"lock" => Some(Op::Lock(SemNo(names.sems.number(name)))),
        b"unlock" => Some(Op::Unlock(SemNo(names.sems.number(name)))),
        _ => None,
    }
}

/// An operation with a number.
pub(crate) fn op_counted(word: &[u8], n: u64) -> Option<Op>
    ensures { (names : document.Names)
        → result ≡ document.op_with names word.now (number (unsigned n)) }
{
    match word {
        b"sleep" => Some(Op::Sleep(n)),
        _ => None,
    }
}

#[tactic(auto, using(crate::proofs::ActLaws::is_name))]
pub(crate) fn op_with(names: &NameLists, word: &str, x: &Value) -> Option<Op>
    ensures { result ≡ document.op_with (names_seen names.now) word.now (view x.now) }
{
    let word = word.as_bytes();
    if let Some(name) = x.as_str() {
        return op_named(names, word, name);
    }
    let n = x.as_u64()?;
    op_counted(word, n)
}

/// An act with a name.
pub(crate) fn act_named(names: &NameLists, word: &[u8], name: &str) -> Option<Act>
    ensures { result ≡ document.act_with (names_seen names.now) word.now (string name.now) }
{
    match word {
        b"arrive" => Some(Act::Arrive(TaskNo(names.tasks.number(name)))),
        _ => {
            let op = op_named(names, word, name)?;
            Some(Act::Do(op))
        }
    }
}

/// An act with a number.
pub(crate) fn act_counted(word: &[u8], n: u64) -> Option<Act>
    ensures { (names : document.Names)
        → result ≡ document.act_with names word.now (number (unsigned n)) }
{
    let op = op_counted(word, n)?;
    Some(Act::Do(op))
}

#[tactic(auto, using(crate::proofs::ActLaws::is_name))]
pub(crate) fn act_with(names: &NameLists, word: &str, x: &Value) -> Option<Act>
    ensures { result ≡ document.act_with (names_seen names.now) word.now (view x.now) }
{
    let word = word.as_bytes();
    if let Some(name) = x.as_str() {
        return act_named(names, word, name);
    }
    let n = x.as_u64()?;
    act_counted(word, n)
}

fn bare_act(word: &str) -> Option<Act>
    ensures { result ≡ forms.word_in document.bare_acts word.now }
{
    match word {
        "tick" => Some(Act::Tick),
        "irq" => Some(Act::Irq),
        "work" => Some(Act::Do(Op::Work)),
        "npon" => Some(Act::Do(Op::NpOn)),
        "npoff" => Some(Act::Do(Op::NpOff)),
        "end" => Some(Act::Do(Op::End)),
        _ => None,
    }
}

fn act_in(names: &NameLists, word: &str, args: &[Value]) -> Option<Act>
    ensures { result ≡ document.act_form (names_seen names.now) word.now (map view args.now) }
{
    match args {
        [] => bare_act(word),
        [x] => act_with(names, word, x),
        _ => None,
    }
}

fn step_in(names: &NameLists, items: &[Value]) -> Option<DraftStep>
    ensures { result ≡ document.step_items (names_seen names.now) (map view items.now) }
{
    match items {
        [q, t, w, args @ ..] => {
            let cpu = q.as_u64()?;
            let tick = t.as_u64()?;
            let word = w.as_str()?;
            let act = act_in(names, word, args)?;
            Some(DraftStep { cpu, tick, act })
        }
        _ => None,
    }
}

/// A step, if the value has its form.
#[tactic(auto, using(crate::proofs::FormLaws::listed_items), unfolding(crate::specs::Document::step_form))]
pub fn step_of(names: &NameLists, v: &Value) -> Option<DraftStep>
    ensures { result ≡ document.step_form (names_seen names.now) (view v.now) }
{
    let items = v.as_array()?;
    step_in(names, items.as_slice())
}
