//! Names, and what they stand for.
ghost use Rattle.std.specs.Prelude.{◌≡◌, ◌+◌, ◌<◌, ◌≤◌, ◌^◌, ◌==◌, ◌&&◌, not, List, map, length, take, drop, bytes_eq, IfOk};
ghost use Rattle.std.specs.List.{list_all, list_any};
ghost use Rattle.rt_base.specs.declared.SemNo.{SemNo};
ghost use Rattle.rt_task.specs.declared.Sem.{Sem};
ghost use Rattle.rt_task.specs.declared.bad_set.Part.TheVariants as parts;
ghost use Rattle.rt_task.specs.declared.bad_set.SetKind.TheVariants as kinds;
ghost use Rattle.rt_task.specs.declared.draft.Draft.{Draft};
ghost use Rattle.rt_task.specs.declared.draft.DraftResv.{DraftResv};
ghost use Rattle.rt_task.specs.declared.draft.DraftStep.{DraftStep};
ghost use Rattle.rt_task.specs.declared.draft.DraftTask.{DraftTask};
ghost use Rattle.rt_task.specs.Answers.{Keeps};
ghost use Rattle.rt_task.specs.Draft.{steps_of};
ghost use Rattle.rt_task.specs.NameRules as rules;
ghost use Rattle.rt_task.specs.Refusals.{each, first};
ghost use Rattle.rt_task.specs.RuleWords as words;
ghost use Rattle.rt_task.specs.Validity.{name_rows};

use super::seen::{add_name, add_number};
use super::stop;
use rt_base::{MOST_NAME_BYTES, ResvNo, SemNo};
use rt_task::{
    Act, Draft, DraftDrive, DraftResv, DraftStep, DraftTask, Op, Part, Piece, Sem, SetKind, SetStop,
};
use std::alloc::{AllocError, Global};
use std::collections::HashSet;

fn is_name_byte(b: u8) -> bool
    ensures { result ≡ words.is_name_byte b }
{
    (b >= 48 && b <= 57) || (b >= 65 && b <= 90) || (b >= 97 && b <= 122) || b == 95 || b == 45
}

fn are_name_bytes(name: &[u8]) -> bool
    ensures { result ≡ list_all words.is_name_byte name.now }
{
    name.iter().all(|b| is_name_byte(*b))
}

/// A name has 1 to 32 bytes, each an ASCII letter, a digit, `_` or `-`.
pub fn is_name(name: &[u8]) -> bool
    ensures { result ≡ words.is_name name.now }
{
    name.len() >= 1 && name.len() <= MOST_NAME_BYTES as usize && are_name_bytes(name)
}

/// Whether a number from 1 is that of one of so many elements.
pub fn is_known(count: usize, n: u32) -> bool
    ensures { result ≡ (words.within 1 count n) }
{
    n >= 1 && n as usize <= count
}

fn op_is_known(d: &Draft, op: Op) -> bool
    ensures { result ≡ rules.op_is_known d.now op }
{
    match op {
        Op::Lock(s) | Op::Unlock(s) => is_known(d.sems.as_slice().len(), s.0),
        _ => true,
    }
}

fn piece_is_known(d: &Draft, piece: Piece) -> bool
    ensures { result ≡ rules.piece_is_known d.now piece }
{
    match piece {
        Piece::Works(_) => true,
        Piece::Once(op) => op_is_known(d, op),
    }
}

/// Whether each semaphore that a body names is declared.
pub fn pieces_are_known(d: &Draft, pieces: &[Piece]) -> bool
    ensures { result ≡ list_all (rules.piece_is_known d.now) pieces.now }
{
    pieces.iter().all(|piece| piece_is_known(d, *piece))
}

/// Whether each of these semaphores is declared.
pub fn uses_are_known(d: &Draft, uses: &[SemNo]) -> bool
    ensures { result ≡ list_all (words.is_known d.now.sems) (map (λ (s : SemNo). s.0) uses.now) }
{
    let count = d.sems.as_slice().len();
    for s in uses {
        if !is_known(count, s.0) {
            return false;
        }
    }
    true
}

/// Whether the reservation is declared, where there is one.
pub fn resv_is_known(d: &Draft, resv: Option<ResvNo>) -> bool
    ensures { result ≡ rules.resv_is_known d.now resv }
{
    match resv {
        None => true,
        Some(r) => is_known(d.resvs.as_slice().len(), r.0),
    }
}

/// Whether the task or the semaphore that an act names is declared.
pub fn act_is_known(d: &Draft, act: Act) -> bool
    ensures { result ≡ rules.act_is_known d.now act }
{
    match act {
        Act::Arrive(t) => is_known(d.tasks.as_slice().len(), t.0),
        Act::Do(op) => op_is_known(d, op),
        _ => true,
    }
}

#[tactic(auto, unfolding(rt_task::specs::NameRules::step_name))]
fn step_name(d: &Draft, s: DraftStep) -> bool
    ensures { (earlier : List DraftStep) → result ≡ rules.step_name d.now earlier s }
{
    act_is_known(d, s.act)
}

fn steps_named(d: &Draft) -> Result<(), SetStop>
    ensures { Keeps result (each kinds.Name parts.Step
        (rules.step_name d.now) (steps_of d.now.drive)) }
{
    let DraftDrive::Steps(steps) = &d.drive else {
        return Ok(());
    };
    for (i, s) in steps.as_slice().iter().enumerate() {
        if !step_name(d, *s) {
            return Err(stop(SetKind::Name, Part::Step, i));
        }
    }
    Ok(())
}

#[tactic(auto, unfolding(rt_task::specs::NameRules::sem_name))]
fn sem_name(is_new: bool, s: &Sem) -> bool
    ensures { (d : Draft) (earlier : List Sem)
        → is_new ≡ not (list_any (λ (x : Sem). bytes_eq x.name s.now.name) earlier)
        → result ≡ rules.sem_name d earlier s.now }
{
    is_name(s.name.as_slice()) && is_new
}

fn sems_named(alloc: Global, d: &Draft) -> Result<(), SetStop>
    ensures { Keeps result (each kinds.Name parts.Sem (rules.sem_name d.now) d.now.sems) }
{
    let sems = d.sems.as_slice();
    let mut names = HashSet::new(alloc);
    for (i, s) in sems.iter().enumerate() {
        let is_new = add_name(&mut names, &s.name)?;
        if !sem_name(is_new, s) {
            return Err(stop(SetKind::Name, Part::Sem, i));
        }
    }
    Ok(())
}

#[tactic(auto, unfolding(rt_task::specs::NameRules::resv_name))]
fn resv_name(is_new: bool, r: &DraftResv) -> bool
    ensures { (d : Draft) (earlier : List DraftResv)
        → is_new ≡ not (list_any (λ (x : DraftResv). bytes_eq x.name r.now.name) earlier)
        → result ≡ rules.resv_name d earlier r.now }
{
    is_name(r.name.as_slice()) && is_new
}

fn resvs_named(alloc: Global, d: &Draft) -> Result<(), SetStop>
    ensures { Keeps result (each kinds.Name parts.Resv (rules.resv_name d.now) d.now.resvs) }
{
    let resvs = d.resvs.as_slice();
    let mut names = HashSet::new(alloc);
    for (i, r) in resvs.iter().enumerate() {
        let is_new = add_name(&mut names, &r.name)?;
        if !resv_name(is_new, r) {
            return Err(stop(SetKind::Name, Part::Resv, i));
        }
    }
    Ok(())
}

/// Whether none of the semaphores stands twice.
pub fn are_without_repeat(alloc: Global, uses: &[SemNo]) -> Result<bool, AllocError>
    ensures { IfOk result (λ r. r ≡ words.no_repeat (map (λ (s : SemNo). s.0) uses.now)) }
{
    let mut numbers = HashSet::new(alloc);
    for s in uses {
        if !add_number(&mut numbers, s.0)? {
            return Ok(false);
        }
    }
    Ok(true)
}

#[tactic(auto, unfolding(rt_task::specs::NameRules::task_name))]
fn task_name(
    alloc: Global,
    d: &Draft,
    index: usize,
    is_new: bool,
    p: &DraftTask,
) -> Result<bool, AllocError>
    requires { index + 1 < 2 ^ 64 }
    ensures { IfOk result (λ r. (earlier : List DraftTask) → index ≡ length earlier
        → is_new ≡ not (list_any (λ (x : DraftTask). bytes_eq x.name p.now.name) earlier)
        → r ≡ rules.task_name d.now earlier p.now) }
{
    let uses = p.uses.as_slice();
    let no_repeat = are_without_repeat(alloc, uses)?;
    Ok(
        p.number.0 as usize == index + 1
            && is_name(p.name.as_slice())
            && is_new
            && uses_are_known(d, uses)
            && no_repeat
            && resv_is_known(d, p.resv)
            && pieces_are_known(d, p.pieces.as_slice()),
    )
}

fn tasks_named(alloc: Global, d: &Draft) -> Result<(), SetStop>
    ensures { Keeps result (each kinds.Name parts.Task (rules.task_name d.now) d.now.tasks) }
{
    let tasks = d.tasks.as_slice();
    let mut names = HashSet::new(alloc);
    for (i, p) in tasks.iter().enumerate() {
        let is_new = add_name(&mut names, &p.name)?;
        if !task_name(alloc, d, i, is_new, p)? {
            return Err(stop(SetKind::Name, Part::Task, i));
        }
    }
    Ok(())
}

/// The rules of the kind Name.
pub(super) fn check_names(alloc: Global, d: &Draft) -> Result<(), SetStop>
    ensures { Keeps result (first (name_rows d.now)) }
{
    sems_named(alloc, d)?;
    resvs_named(alloc, d)?;
    tasks_named(alloc, d)?;
    steps_named(d)
}
