//! Operations, acts and steps.
ghost use Rattle.std.specs.Prelude.{◌≡◌, ◌++◌, List, [], ◌∷◌, true, OnOk};
ghost use Rattle.json.specs.Print.{escape};
ghost use Rattle.serde_json.specs.Data.{string};
ghost use Rattle.serde_json.specs.View.{items_of};
ghost use Rattle.serde_json.specs.Written.{comma_if, compact_text, items_text};
ghost use Rattle.set_canonical.specs.Values.{natural_data, array_data, sem_names, task_names, op_items, act_items, step_data};

use crate::names::{sem_name, task_name};
use crate::put::{put, put_comma, put_escaped, put_number, put_string};
use decimals::{Digits, put_decimal};
use rt_task::{Act, Op, Sem, Step, Task};
use std::alloc::{AllocError, Global};

/// The rest of an array that has a word alone, which comes in its quotes and with the bracket behind.
#[tactic(auto, using(std::proofs::Common::append_assoc))]
#[inline(always)]
fn put_word(out: &mut Vec<u8>, later: bool, rest: &[u8]) -> Result<(), AllocError>
    ensures { OnOk result (out.new.items ≡ out.old.items ++ (comma_if later ++ rest.now)) }
{
    put_comma(out, later)?;
    put(out, rest)
}

/// The rest of an array that has a word and a name. The word comes in its quotes, with the comma and the quote behind it.
#[tactic(auto, using(std::proofs::Common::append_assoc))]
fn put_word_and_name(
    out: &mut Vec<u8>,
    later: bool,
    front: &[u8],
    name: &[u8],
) -> Result<(), AllocError>
    ensures { OnOk result (out.new.items ≡ out.old.items
        ++ (comma_if later ++ (front.now ++ (escape name.now ++ 34 ∷ 93 ∷ [])))) }
{
    put_comma(out, later)?;
    put(out, front)?;
    put_escaped(out, name)?;
    put(out, b"\"]")
}

/// The rest of an array that has a word and a number.
#[tactic(auto, using(std::proofs::Common::append_assoc))]
pub fn put_word_and_number(
    out: &mut Vec<u8>,
    later: bool,
    word: &[u8],
    n: u64,
) -> Result<(), AllocError>
    ensures { OnOk result (out.new.items
        ≡ out.old.items ++ items_text later (items_of (string word.now ∷ natural_data n ∷ []))) }
{
    put_comma(out, later)?;
    put_string(out, b"", word)?;
    put_number(out, b",", n)?;
    out.push(b']')?;
    Ok(())
}

/// The rest of an array that has an operation.
#[tactic(auto, using(std::proofs::Common::append_assoc), unfolding(json::specs::Print::escape_byte))]
#[inline(always)]
pub fn put_op(out: &mut Vec<u8>, later: bool, sems: &[Sem], op: Op) -> Result<(), AllocError>
    ensures { OnOk result (out.new.items
        ≡ out.old.items ++ items_text later (items_of (op_items (sem_names sems.now) op))) }
{
    match op {
        Op::Work => put_word(out, later, b"\"work\"]"),
        Op::Lock(s) => put_word_and_name(out, later, b"\"lock\",\"", sem_name(sems, s)),
        Op::Unlock(s) => put_word_and_name(out, later, b"\"unlock\",\"", sem_name(sems, s)),
        Op::Sleep(n) => put_word_and_number(out, later, b"sleep", n),
        Op::NpOn => put_word(out, later, b"\"npon\"]"),
        Op::NpOff => put_word(out, later, b"\"npoff\"]"),
        Op::End => put_word(out, later, b"\"end\"]"),
    }
}

/// The rest of an array that has an act.
#[tactic(auto, using(std::proofs::Common::append_assoc), unfolding(json::specs::Print::escape_byte))]
#[inline(always)]
fn put_act(out: &mut Vec<u8>, sems: &[Sem], tasks: &[Task], act: Act) -> Result<(), AllocError>
    ensures { OnOk result (out.new.items
        ≡ out.old.items ++ items_text true (items_of (act_items
        (sem_names sems.now) (task_names tasks.now) act))) }
{
    match act {
        Act::Tick => put(out, b",\"tick\"]"),
        Act::Irq => put(out, b",\"irq\"]"),
        Act::Arrive(t) => put_word_and_name(out, true, b"\"arrive\",\"", task_name(tasks, t)),
        Act::Do(op) => put_op(out, true, sems, op),
    }
}

#[tactic(auto, using(crate::proofs::Texts::step_text, std::proofs::Common::append_assoc))]
#[inline(always)]
fn put_step(
    out: &mut Vec<u8>,
    tick: &mut Digits,
    sems: &[Sem],
    tasks: &[Task],
    s: &Step,
) -> Result<(), AllocError>
    ensures { OnOk result (out.new.items
        ≡ out.old.items ++ compact_text (step_data
        (sem_names sems.now) (task_names tasks.now) s.now)) }
{
    out.push(b'[')?;
    put_decimal(out, u64::from(s.cpu.0))?;
    out.push(b',')?;
    tick.set(s.tick.0);
    tick.put(out)?;
    put_act(out, sems, tasks, s.act)?;
    Ok(())
}

#[tactic(auto, using(std::proofs::Common::append_assoc))]
pub fn put_steps(
    alloc: Global,
    out: &mut Vec<u8>,
    before: &[u8],
    sems: &[Sem],
    tasks: &[Task],
    steps: &[Step],
) -> Result<(), AllocError>
    ensures { OnOk result (out.new.items
        ≡ out.old.items ++ (before.now ++ compact_text (array_data (step_data
        (sem_names sems.now) (task_names tasks.now)) steps.now))) }
{
    put(out, before)?;
    out.push(b'[')?;
    // The tick of a step is mostly that of the step before it, or one more or less.
    let mut tick = Digits::zero(alloc)?;
    for (i, s) in steps.iter().enumerate() {
        put_comma(out, i > 0)?;
        put_step(out, &mut tick, sems, tasks, s)?;
    }
    out.push(b']')?;
    Ok(())
}
