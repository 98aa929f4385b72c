//! Well-formed bodies.
ghost use Rattle.std.specs.Prelude.{◌≡◌, ◌≢◌, true, ◌&&◌, ◌||◌, false, ◌==◌, not, ℕ, List, Some, None, [], map, position, IfOk, if◌then◌else◌};
ghost use Rattle.std.specs.List.{list_any};
ghost use Rattle.rt_base.specs.declared.SemNo.{SemNo};
ghost use Rattle.rt_task.specs.Bodies.{at_release, Holding, without, is_newest, nests, after_op, goes_on};
ghost use Rattle.rt_task.specs.Lookups.{is_stacked_sem};
ghost use Rattle.set_rules.specs.inside.NamesSeen.{has_number};
ghost use Rattle.rt_task.specs.RuleWords as words;

use super::seen::add_number;
use rt_base::{MOST_HELD, SemNo};
use rt_task::{Draft, Op, Piece, Protocol, SemNos};
use std::alloc::{AllocError, Global};
use std::collections::HashSet;
use std::marker::Model;

/// What a job holds while its body is gone through: numbers of semaphores, the newest first, which
/// are never more than `MOST_HELD`, and whether it is non-preemptive.
#[derive(Drop)]
struct Held {
    sems: Vec<u32>,
    np: bool,
}

impl Model for Held {
    ghost use Rattle.rt_task.specs.Bodies.{Holding};

    ghost Value = { Holding };

    ghost view = { λ a. record { held = a.sems.items; np = a.np } };
}

#[tactic(auto, unfolding(rt_task::specs::Lookups::is_stacked_sem))]
fn is_stacked(d: &Draft, s: u32) -> bool
    ensures { result ≡ is_stacked_sem d.now s }
{
    match d.sems.as_slice().get(s.saturating_sub(1) as usize) {
        None => false,
        Some(x) => matches!(x.protocol, Protocol::Pcp | Protocol::Srp),
    }
}

fn has_unstacked(d: &Draft, held: &[u32]) -> bool
    ensures { result ≡ list_any (λ r. not (is_stacked_sem d.now r)) held.now }
{
    held.iter().any(|r| !is_stacked(d, *r))
}

#[tactic(auto, unfolding(rt_task::specs::Bodies::nests))]
fn is_nested(d: &Draft, s: u32, held: &[u32]) -> bool
    ensures { (declared : List ℕ) → result ≡ nests declared (is_stacked_sem d.now) s held.now }
{
    if held.is_empty() {
        return false;
    }
    !is_stacked(d, s)
        || has_unstacked(d, held)
        || held.contains(&s)
        || held.len() >= MOST_HELD as usize
}

#[tactic(auto, unfolding(rt_task::specs::Bodies::after_op))]
fn lock(d: &Draft, declared: &HashSet<u32>, h: &mut Held, s: SemNo) -> Result<bool, AllocError>
    ensures { IfOk result (λ b. (ns : List ℕ)
        → ((n : ℕ) → has_number declared.now n ≡ words.has n ns)
        → after_op ns (is_stacked_sem d.now) (Op.Lock s) h.old ≡ (if b then Some h.new else None)) }
{
    if h.np || !declared.contains(&s.0) || is_nested(d, s.0, h.sems.as_slice()) {
        return Ok(false);
    }
    h.sems.insert(0, s.0)?;
    Ok(true)
}

fn is_newest_held(s: u32, held: &[u32]) -> bool
    ensures { result ≡ is_newest s held.now }
{
    match held.first() {
        None => false,
        Some(x) => *x == s,
    }
}

fn place_of(s: u32, held: &[u32]) -> Option<usize>
    ensures place { result ≡ position (λ m. m == s) held.now }
{
    held.iter().position(|m| *m == s)
}

/// Lets go of a semaphore, by its last lock.
fn let_go(held: &mut Vec<u32>, s: u32)
    ensures { held.new.items ≡ without s held.old.items }
{
    if let Some(place) = place_of(s, held.as_slice()) {
        held.remove(place);
    }
}

#[tactic(auto, unfolding(rt_task::specs::Bodies::after_op))]
fn unlock(d: &Draft, h: &mut Held, s: SemNo) -> bool
    ensures { (ns : List ℕ)
        → after_op ns (is_stacked_sem d.now) (Op.Unlock s) h.old ≡ (if result then Some h.new
        else None) }
{
    let held = h.sems.as_slice();
    if !held.contains(&s.0) || (is_stacked(d, s.0) && !is_newest_held(s.0, held)) {
        return false;
    }
    let_go(&mut h.sems, s.0);
    true
}

fn is_free(h: &Held) -> bool
    ensures { result ≡ (not h.now.np && words.is_empty h.now.held) }
{
    !h.np && h.sems.is_empty()
}

/// Goes on by one operation, each lock granted, and says whether it is not refused.
#[tactic(auto, unfolding(rt_task::specs::Bodies::after_op))]
fn goes_on_by(d: &Draft, declared: &HashSet<u32>, h: &mut Held, op: Op) -> Result<bool, AllocError>
    ensures { IfOk result (λ b. (ns : List ℕ)
        → ((n : ℕ) → has_number declared.now n ≡ words.has n ns)
        → after_op ns (is_stacked_sem d.now) op h.old ≡ (if b then Some h.new else None)) }
{
    match op {
        Op::Work => Ok(true),
        Op::Lock(s) => lock(d, declared, h, s),
        Op::Unlock(s) => Ok(unlock(d, h, s)),
        Op::Sleep(_) | Op::End => Ok(is_free(h)),
        Op::NpOn => {
            let was = h.np;
            h.np = true;
            Ok(!was)
        }
        Op::NpOff => {
            let was = h.np;
            h.np = false;
            Ok(was)
        }
    }
}

fn is_end(op: Op) -> bool
    ensures end { result ≡ true → op ≡ Op.End }
    ensures other { result ≡ false → op ≢ Op.End }
{
    matches!(op, Op::End)
}

/// The numbers of semaphores.
fn numbers_of(alloc: Global, uses: &[SemNo]) -> Result<HashSet<u32>, AllocError>
    ensures { IfOk result (λ r. (n : ℕ)
        → has_number r n ≡ words.has n (map (λ (s : SemNo). s.0) uses.now)) }
{
    let mut numbers = HashSet::new(alloc);
    for s in uses {
        let _is_new = add_number(&mut numbers, s.0)?;
    }
    Ok(numbers)
}

/// Whether end is the last operation and stands nowhere else, and none is refused to a job that starts with nothing.
pub fn is_well_formed(
    alloc: Global,
    d: &Draft,
    uses: &[SemNo],
    pieces: &[Piece],
) -> Result<bool, AllocError>
    ensures { let declared = map (λ (s : SemNo). s.0) uses.now in
        IfOk result (λ b. b ≡ goes_on declared (is_stacked_sem d.now) pieces.now (Some at_release)) }
{
    let declared = numbers_of(alloc, uses)?;
    let mut h = Held {
        sems: Vec::new(alloc),
        np: false,
    };
    for (i, piece) in pieces.iter().enumerate() {
        if let Piece::Once(op) = *piece {
            if is_end(op) {
                return Ok(i == pieces.len() - 1 && is_free(&h));
            }
            if !goes_on_by(d, &declared, &mut h, op)? {
                return Ok(false);
            }
        }
    }
    Ok(false)
}
