//! Reading semaphores, reservations and tasks.
ghost use Rattle.std.specs.Prelude.{◌≡◌, [], map, codes, ◌^◌, ◌<◌, ◌+◌, ◌≤◌, None, length, option_map, IfOk};
ghost use Rattle.serde_json.specs.View.{view};
ghost use Rattle.set_read.specs.Document as document;
ghost use Rattle.set_read.specs.Forms as forms;
ghost use Rattle.set_read.specs.Names.{names_seen};

use crate::acts::{NameLists, op_with};
use crate::forms::{has_only, natural_at, natural_or, protocol_in, text_at, truth_or};
use rt_base::{MOST_PRIO, ResvNo, SemNo, TaskNo};
use rt_task::{
    DraftResv, DraftTask, Kind, Name, Op, Piece, Pieces, ResvKind, Sem, SemNos, Slot, Slots,
};
use serde_json::Value;
use std::alloc::{AllocError, Global};

fn named(alloc: Global, text: &str) -> Result<Name, AllocError>
    ensures { IfOk result (λ n. n ≡ text.now) }
{
    let bytes = Vec::from_slice(alloc, text.as_bytes())?;
    Ok(Name::from_vec(bytes))
}

/// A semaphore, if the value has its form.
#[tactic(auto, unfolding(crate::specs::Document::semaphore_form))]
pub fn semaphore_of(alloc: Global, v: &Value) -> Result<Option<Sem>, AllocError>
    ensures { IfOk result (λ r. r ≡ document.semaphore_form (view v.now)) }
{
    if !has_only(v, &["name", "protocol"]) {
        return Ok(None);
    }
    let Some(name) = text_at(v, "name") else {
        return Ok(None);
    };
    let Some(word) = text_at(v, "protocol") else {
        return Ok(None);
    };
    let Some(protocol) = protocol_in(word) else {
        return Ok(None);
    };
    let name = named(alloc, name)?;
    Ok(Some(Sem { name, protocol }))
}

/// The kind of reservation of a word.
pub fn resv_kind_in(word: &str) -> Option<ResvKind>
    ensures { result ≡ forms.word_in document.reservation_kinds word.now }
{
    match word {
        "polling" => Some(ResvKind::Polling),
        "sporadic" => Some(ResvKind::Sporadic),
        "table" => Some(ResvKind::Table),
        _ => None,
    }
}

fn slot_in(items: &[Value]) -> Option<Slot>
    ensures { result ≡ document.slot_items (map view items.now) }
{
    match items {
        [a, b] => {
            let from = a.as_u64()?;
            let to = b.as_u64()?;
            Some(Slot { from, to })
        }
        _ => None,
    }
}

#[tactic(auto, using(crate::proofs::FormLaws::listed_items), unfolding(crate::specs::Document::slot_form))]
fn slot_of(v: &Value) -> Option<Slot>
    ensures { result ≡ document.slot_form (view v.now) }
{
    let items = v.as_array()?;
    slot_in(items.as_slice())
}

fn slots_in(alloc: Global, items: &[Value]) -> Result<Option<Vec<Slot>>, AllocError>
    ensures { IfOk result (λ r. option_map (λ v. v.items) r
        ≡ forms.every document.slot_form (map view items.now)) }
{
    let mut found = Vec::new(alloc);
    for item in items {
        let Some(slot) = slot_of(item) else {
            return Ok(None);
        };
        found.push(slot)?;
    }
    Ok(Some(found))
}

#[tactic(auto, using(crate::proofs::FormLaws::listed_items))]
fn table_of(alloc: Global, v: &Value) -> Result<Option<Slots>, AllocError>
    ensures { IfOk result (λ r. r
        ≡ forms.required (forms.list_of document.slot_form) (codes "slots") (view v.now)) }
{
    let Some(member) = v.get("slots") else {
        return Ok(None);
    };
    let Some(items) = member.as_array() else {
        return Ok(None);
    };
    let Some(found) = slots_in(alloc, items.as_slice())? else {
        return Ok(None);
    };
    Ok(Some(Slots::from_vec(found)))
}

// No slots, where the member is not there.
fn no_slots(alloc: Global, v: &Value) -> Option<Slots>
    ensures { result ≡ forms.optional document.no_form [] (codes "slots") (view v.now) }
{
    match v.get("slots") {
        None => Some(Slots::from_vec(Vec::new(alloc))),
        Some(_) => None,
    }
}

/// The slots of a reservation: a table has them, and no other kind.
pub fn slots_of(alloc: Global, kind: ResvKind, v: &Value) -> Result<Option<Slots>, AllocError>
    ensures { IfOk result (λ r. r ≡ document.slots_form kind (view v.now)) }
{
    match kind {
        ResvKind::Table => table_of(alloc, v),
        ResvKind::Polling | ResvKind::Sporadic => Ok(no_slots(alloc, v)),
    }
}

/// A reservation, if the value has its form.
#[tactic(auto, unfolding(crate::specs::Document::reservation_form))]
pub fn reservation_of(alloc: Global, v: &Value) -> Result<Option<DraftResv>, AllocError>
    ensures { IfOk result (λ r. r ≡ document.reservation_form (view v.now)) }
{
    if !has_only(
        v,
        &[
            "name", "cluster", "kind", "budget", "period", "prio", "slots",
        ],
    ) {
        return Ok(None);
    }
    let Some(name) = text_at(v, "name") else {
        return Ok(None);
    };
    let Some(cluster) = natural_or(v, 0, "cluster") else {
        return Ok(None);
    };
    let Some(word) = text_at(v, "kind") else {
        return Ok(None);
    };
    let Some(kind) = resv_kind_in(word) else {
        return Ok(None);
    };
    let Some(budget) = natural_at(v, "budget") else {
        return Ok(None);
    };
    let Some(period) = natural_at(v, "period") else {
        return Ok(None);
    };
    let Some(prio) = natural_or(v, u64::from(MOST_PRIO), "prio") else {
        return Ok(None);
    };
    let Some(slots) = slots_of(alloc, kind, v)? else {
        return Ok(None);
    };
    let name = named(alloc, name)?;
    Ok(Some(DraftResv {
        name,
        cluster,
        kind,
        budget,
        period,
        prio,
        slots,
    }))
}

fn uses_in(
    alloc: Global,
    names: &NameLists,
    items: &[Value],
) -> Result<Option<Vec<SemNo>>, AllocError>
    ensures { IfOk result (λ r. option_map (λ v. v.items) r
        ≡ forms.every (document.sem_form (names_seen names.now)) (map view items.now)) }
{
    let mut found = Vec::new(alloc);
    for item in items {
        let Some(word) = item.as_str() else {
            return Ok(None);
        };
        found.push(SemNo(names.sems.number(word)))?;
    }
    Ok(Some(found))
}

/// The semaphores that a task declares, if the member has its form; none where it is not there.
#[tactic(auto, using(crate::proofs::FormLaws::listed_items))]
pub fn uses_of(alloc: Global, names: &NameLists, v: &Value) -> Result<Option<SemNos>, AllocError>
    ensures { IfOk result (λ r. r
        ≡ forms.optional (forms.list_of (document.sem_form
        (names_seen names.now))) [] (codes "uses") (view v.now)) }
{
    let Some(member) = v.get("uses") else {
        return Ok(Some(SemNos::from_vec(Vec::new(alloc))));
    };
    let Some(items) = member.as_array() else {
        return Ok(None);
    };
    let Some(found) = uses_in(alloc, names, items.as_slice())? else {
        return Ok(None);
    };
    Ok(Some(SemNos::from_vec(found)))
}

fn bare_op(word: &str) -> Option<Op>
    ensures { result ≡ forms.word_in document.bare_ops word.now }
{
    match word {
        "npon" => Some(Op::NpOn),
        "npoff" => Some(Op::NpOff),
        "end" => Some(Op::End),
        _ => None,
    }
}

fn piece_with(names: &NameLists, word: &str, x: &Value) -> Option<Piece>
    ensures { result ≡ document.piece_with (names_seen names.now) word.now (view x.now) }
{
    if word == "work" {
        let n = x.as_u64()?;
        return Some(Piece::Works(n));
    }
    let op = op_with(names, word, x)?;
    Some(Piece::Once(op))
}

fn piece_in(names: &NameLists, items: &[Value]) -> Option<Piece>
    ensures { result ≡ document.piece_items (names_seen names.now) (map view items.now) }
{
    match items {
        [w] => {
            let word = w.as_str()?;
            let op = bare_op(word)?;
            Some(Piece::Once(op))
        }
        [w, x] => {
            let word = w.as_str()?;
            piece_with(names, word, x)
        }
        _ => None,
    }
}

#[tactic(auto, using(crate::proofs::FormLaws::listed_items), unfolding(crate::specs::Document::piece_form))]
fn piece_of(names: &NameLists, v: &Value) -> Option<Piece>
    ensures { result ≡ document.piece_form (names_seen names.now) (view v.now) }
{
    let items = v.as_array()?;
    piece_in(names, items.as_slice())
}

fn pieces_in(
    alloc: Global,
    names: &NameLists,
    items: &[Value],
) -> Result<Option<Vec<Piece>>, AllocError>
    ensures { IfOk result (λ r. option_map (λ v. v.items) r
        ≡ forms.every (document.piece_form (names_seen names.now)) (map view items.now)) }
{
    let mut found = Vec::new(alloc);
    for item in items {
        let Some(piece) = piece_of(names, item) else {
            return Ok(None);
        };
        found.push(piece)?;
    }
    Ok(Some(found))
}

/// The body of a task, if the member has its form; empty where it is not there.
#[tactic(auto, using(crate::proofs::FormLaws::listed_items))]
pub fn body_of(alloc: Global, names: &NameLists, v: &Value) -> Result<Option<Pieces>, AllocError>
    ensures { IfOk result (λ r. r
        ≡ forms.optional (forms.list_of (document.piece_form
        (names_seen names.now))) [] (codes "body") (view v.now)) }
{
    let Some(member) = v.get("body") else {
        return Ok(Some(Pieces::from_vec(Vec::new(alloc))));
    };
    let Some(items) = member.as_array() else {
        return Ok(None);
    };
    let Some(found) = pieces_in(alloc, names, items.as_slice())? else {
        return Ok(None);
    };
    Ok(Some(Pieces::from_vec(found)))
}

fn resv_or_null(names: &NameLists, v: &Value) -> Option<Option<ResvNo>>
    ensures { result ≡ forms.or_null (document.resv_form (names_seen names.now)) (view v.now) }
{
    match v {
        Value::Null => Some(None),
        other => {
            let word = other.as_str()?;
            Some(Some(ResvNo(names.resvs.number(word))))
        }
    }
}

/// The reservation that a task names, if the member has its form; none where it is not there or null.
pub fn resv_of(names: &NameLists, v: &Value) -> Option<Option<ResvNo>>
    ensures { result
        ≡ forms.optional (forms.or_null (document.resv_form
        (names_seen names.now))) None (codes "resv") (view v.now) }
{
    match v.get("resv") {
        None => Some(None),
        Some(member) => resv_or_null(names, member),
    }
}

fn kind_in(word: &str) -> Option<Kind>
    ensures { result ≡ forms.word_in document.release_kinds word.now }
{
    match word {
        "periodic" => Some(Kind::Periodic),
        "sporadic" => Some(Kind::Sporadic),
        _ => None,
    }
}

/// Whether the task is periodic or sporadic, if the member has its form; periodic where it is not there.
pub fn kind_of(v: &Value) -> Option<Kind>
    ensures { result
        ≡ forms.optional
        (forms.one_of document.release_kinds) Kind.Periodic (codes "kind") (view v.now) }
{
    match v.get("kind") {
        None => Some(Kind::Periodic),
        Some(member) => {
            let word = member.as_str()?;
            kind_in(word)
        }
    }
}

/// The task of this number, from 1, if the value has its form.
#[tactic(auto, unfolding(crate::specs::Document::task_form))]
pub fn task_of(
    alloc: Global,
    names: &NameLists,
    number: u32,
    v: &Value,
) -> Result<Option<DraftTask>, AllocError>
    ensures { IfOk result (λ r. r ≡ document.task_form (names_seen names.now) number (view v.now)) }
{
    if !has_only(
        v,
        &[
            "name", "cluster", "cost", "period", "deadline", "phase", "kind", "prio", "enforce",
            "uses", "resv", "body", "early",
        ],
    ) {
        return Ok(None);
    }
    let Some(name) = text_at(v, "name") else {
        return Ok(None);
    };
    let Some(cluster) = natural_or(v, 0, "cluster") else {
        return Ok(None);
    };
    let Some(cost) = natural_at(v, "cost") else {
        return Ok(None);
    };
    let Some(period) = natural_at(v, "period") else {
        return Ok(None);
    };
    let Some(rel_deadline) = natural_or(v, period, "deadline") else {
        return Ok(None);
    };
    let Some(phase) = natural_or(v, 0, "phase") else {
        return Ok(None);
    };
    let Some(kind) = kind_of(v) else {
        return Ok(None);
    };
    let Some(prio) = natural_or(v, u64::from(MOST_PRIO), "prio") else {
        return Ok(None);
    };
    let Some(enforce) = truth_or(v, false, "enforce") else {
        return Ok(None);
    };
    let Some(uses) = uses_of(alloc, names, v)? else {
        return Ok(None);
    };
    let Some(resv) = resv_of(names, v) else {
        return Ok(None);
    };
    let Some(pieces) = body_of(alloc, names, v)? else {
        return Ok(None);
    };
    let Some(early) = truth_or(v, false, "early") else {
        return Ok(None);
    };
    let name = named(alloc, name)?;
    Ok(Some(DraftTask {
        number: TaskNo(number),
        name,
        cluster,
        cost,
        period,
        rel_deadline,
        phase,
        kind,
        prio,
        enforce,
        uses,
        resv,
        pieces,
        early,
    }))
}
