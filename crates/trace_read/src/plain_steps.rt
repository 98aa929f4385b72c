//! The steps of a canonical text of a set, read from their bytes alone.
//!
//! Each reader may give up where a text is not as canonical ones are, and may read what is no step of a document: what is
//! found counts only where the canonical text of the set that it makes is the text that was read.
ghost use Rattle.std.specs.Prelude.{◌≡◌, ◌+◌, ◌<◌, ◌≤◌, ◌^◌, IfSome, length, map, vec_len};
ghost use Rattle.set_read.specs.Document as document;

use crate::acts::bare_act;
use rt_base::{SemNo, TaskNo};
use rt_task::{Act, Draft, DraftStep, DraftSteps, DraftTask, Op, Sem};
use set_read::Names;
use std::alloc::Global;
use std::str;

/// The names that the acts of a set may name.
#[derive(Drop)]
struct ActNames<'a> {
    sems: Names<'a>,
    tasks: Names<'a>,
}

impl<'a> ActNames<'a> {
    /// The names of a draft's semaphores and tasks; none where one is no text, or there are too many.
    fn of(alloc: Global, draft: &'a Draft) -> Option<ActNames<'a>> {
        let sems = sem_names(alloc, draft.sems.as_slice())?;
        let tasks = task_names(alloc, draft.tasks.as_slice())?;
        Some(ActNames { sems, tasks })
    }
}

fn sem_names<'a>(alloc: Global, sems: &'a [Sem]) -> Option<Names<'a>> {
    let mut names = Vec::new(alloc);
    for sem in sems {
        names.push(str::from_utf8(sem.name.as_slice()).ok()?).ok()?;
    }
    numbered(alloc, names)
}

fn task_names<'a>(alloc: Global, tasks: &'a [DraftTask]) -> Option<Names<'a>> {
    let mut names = Vec::new(alloc);
    for task in tasks {
        names.push(str::from_utf8(task.name.as_slice()).ok()?).ok()?;
    }
    numbered(alloc, names)
}

fn numbered<'a>(alloc: Global, names: Vec<&'a str>) -> Option<Names<'a>>
    ensures { IfSome result (λ n. n ≡ map (λ w. w.now) names.entry.items) }
{
    if names.len() >= 4_294_967_294 {
        return None;
    }
    Names::of(alloc, names).ok()
}

/// What stands after this byte.
fn after_byte(byte: u8, bytes: &[u8]) -> Option<&[u8]>
    ensures { IfSome result (λ rest. length rest.now < length bytes.now) }
{
    match bytes {
        [first, rest @ ..] if *first == byte => Some(rest),
        _ => None,
    }
}

/// The number that decimal digits say, and what stands after them.
fn number_at(bytes: &[u8]) -> Option<(u64, &[u8])>
    ensures { IfSome result (λ x. length x.1.now ≤ length bytes.now) }
{
    let mut n: u64 = 0;
    for (i, byte) in bytes.iter().enumerate() {
        if !byte.is_ascii_digit() {
            return Some((n, &bytes[i..]));
        }
        n = n.checked_mul(10)?.checked_add(u64::from(*byte - b'0'))?;
    }
    None
}

/// What stands before the first quotation mark, and what stands after it; none where a backslash comes first.
fn unquoted(bytes: &[u8]) -> Option<(&[u8], &[u8])>
    ensures { IfSome result (λ x. length x.1.now < length bytes.now) }
{
    for (i, byte) in bytes.iter().enumerate() {
        match *byte {
            b'"' => return Some((&bytes[..i], &bytes[i + 1..])),
            b'\\' => return None,
            _ => {}
        }
    }
    None
}

/// A string without escapes, and what stands after it.
fn string_at(bytes: &[u8]) -> Option<(&[u8], &[u8])>
    ensures { IfSome result (λ x. length x.1.now < length bytes.now) }
{
    unquoted(after_byte(b'"', bytes)?)
}

fn number_of(names: &Names, name: &[u8]) -> Option<u32>
    ensures { IfSome result (λ n. n ≡ document.position_from 1 names.now name.now) }
{
    let name = str::from_utf8(name).ok()?;
    Some(names.number(name))
}

/// An act that is a word and a name.
fn name_act(names: &ActNames, word: &[u8], name: &[u8]) -> Option<Act> {
    match word {
        b"arrive" => Some(Act::Arrive(TaskNo(number_of(&names.tasks, name)?))),
        b"lock" => Some(Act::Do(Op::Lock(SemNo(number_of(&names.sems, name)?)))),
        b"unlock" => Some(Act::Do(Op::Unlock(SemNo(number_of(&names.sems, name)?)))),
        _ => None,
    }
}

/// An act of this word and an argument, and what stands after it.
fn act_with<'a>(names: &ActNames, word: &[u8], bytes: &'a [u8]) -> Option<(Act, &'a [u8])>
    ensures { IfSome result (λ x. length x.1.now ≤ length bytes.now) }
{
    match word {
        b"sleep" => {
            let (n, rest) = number_at(bytes)?;
            Some((Act::Do(Op::Sleep(n)), rest))
        }
        _ => {
            let (name, rest) = string_at(bytes)?;
            let act = name_act(names, word, name)?;
            Some((act, rest))
        }
    }
}

/// An act, and what stands after it.
#[inline(always)]
fn act_at<'a>(names: &ActNames, bytes: &'a [u8]) -> Option<(Act, &'a [u8])>
    ensures { IfSome result (λ x. length x.1.now < length bytes.now) }
{
    let (word, rest) = string_at(bytes)?;
    match after_byte(b',', rest) {
        None => Some((bare_act(word)?, rest)),
        Some(rest) => act_with(names, word, rest),
    }
}

/// A step, and what stands after it.
fn step_at<'a>(names: &ActNames, bytes: &'a [u8]) -> Option<(DraftStep, &'a [u8])>
    ensures { IfSome result (λ x. length x.1.now < length bytes.now) }
{
    let (cpu, rest) = number_at(after_byte(b'[', bytes)?)?;
    let (tick, rest) = number_at(after_byte(b',', rest)?)?;
    let (act, rest) = act_at(names, after_byte(b',', rest)?)?;
    let rest = after_byte(b']', rest)?;
    Some((DraftStep { cpu, tick, act }, rest))
}

/// The steps that the bytes between the brackets of an array say, if each is plain.
fn steps_in(alloc: Global, names: &ActNames, bytes: &[u8]) -> Option<Vec<DraftStep>> {
    let mut steps = Vec::new(alloc);
    let mut left = bytes;
    while let Some((step, rest)) = step_at(names, left) {
        steps.push(step).ok()?;
        match after_byte(b',', rest) {
            Some(more) => left = more,
            None if rest.is_empty() => return Some(steps),
            None => return None,
        }
    }
    None
}

/// The steps that the bytes between the brackets of an array say, over the names of a draft, if each is plain.
pub(crate) fn plain_steps(alloc: Global, draft: &Draft, bytes: &[u8]) -> Option<DraftSteps> {
    let names = ActNames::of(alloc, draft)?;
    let steps = steps_in(alloc, &names, bytes)?;
    Some(DraftSteps::from_vec(steps))
}
