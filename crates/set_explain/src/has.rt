//! Whether members have their forms.
ghost use Rattle.std.specs.Prelude.{◌≡◌, [], IfOk, None, codes, false, is_some, map};
ghost use Rattle.serde_json.specs.Find.{get};
ghost use Rattle.serde_json.specs.View.{view};
ghost use Rattle.set_explain.specs.ShapeRules as tests;
ghost use Rattle.set_read.specs.Document as document;
ghost use Rattle.set_read.specs.Document.{plugins, protocols, release_kinds, reservation_kinds};
ghost use Rattle.set_read.specs.Forms as forms;
ghost use Rattle.set_read.specs.Names.{names_seen};

use rt_task::{Kind, ResvKind};
use serde_json::Value;
use set_read::single::{
    NameLists, has_only, items_at, items_or_none, kind_of, natural_at, natural_or, play_of,
    plugin_in, protocol_in, resv_kind_in, resv_of, slots_of, step_of, text_at, truth_or, uses_of,
};
use std::alloc::{AllocError, Global};

pub(crate) fn has_members(v: &Value, words: &[&str]) -> bool
    ensures { result ≡ is_some (forms.object_of (map (λ w. w.now) words.now) (view v.now)) }
{
    has_only(v, words)
}

pub(crate) fn has_text(v: &Value, key: &str) -> bool
    ensures { result ≡ is_some (forms.required forms.text key.now (view v.now)) }
{
    text_at(v, key).is_some()
}

pub(crate) fn has_number(v: &Value, key: &str) -> bool
    ensures { result ≡ is_some (forms.required forms.natural key.now (view v.now)) }
{
    natural_at(v, key).is_some()
}

/// The member is not there, or a number.
pub(crate) fn may_have_number(v: &Value, key: &str) -> bool
    ensures { result ≡ is_some (forms.optional forms.natural 0 key.now (view v.now)) }
{
    natural_or(v, 0, key).is_some()
}

/// The member is not there, or a truth value.
pub(crate) fn may_have_truth(v: &Value, key: &str) -> bool
    ensures { result ≡ is_some (forms.optional forms.truth false key.now (view v.now)) }
{
    truth_or(v, false, key).is_some()
}

/// The member is not there, or one of the two kinds of task.
pub(crate) fn may_have_kind(v: &Value) -> bool
    ensures { result ≡ is_some (forms.optional
        (forms.one_of release_kinds) Kind.Periodic (codes "kind") (view v.now)) }
{
    kind_of(v).is_some()
}

pub(crate) fn has_array(v: &Value, key: &str) -> bool
    ensures { result ≡ is_some (forms.required forms.items key.now (view v.now)) }
{
    items_at(v, key).is_some()
}

/// The member is not there, or an array.
pub(crate) fn may_have_array(v: &Value, key: &str) -> bool
    ensures { result ≡ is_some (forms.optional forms.items [] key.now (view v.now)) }
{
    items_or_none(v, key).is_some()
}

pub(crate) fn has_plugin(v: &Value) -> bool
    ensures { result
        ≡ is_some (forms.required (forms.one_of plugins) (codes "plugin") (view v.now)) }
{
    match text_at(v, "plugin") {
        Some(word) => plugin_in(word).is_some(),
        None => false,
    }
}

pub(crate) fn has_protocol(v: &Value) -> bool
    ensures { result
        ≡ is_some (forms.required (forms.one_of protocols) (codes "protocol") (view v.now)) }
{
    match text_at(v, "protocol") {
        Some(word) => protocol_in(word).is_some(),
        None => false,
    }
}

/// What the document runs by is there and has its form.
pub(crate) fn has_play(v: &Value) -> bool
    ensures { let d = view v.now in result
        ≡ is_some (document.play_of (get (codes "steps") d) (get (codes "horizon") d)) }
{
    play_of(v.get("steps"), v.get("horizon")).is_some()
}

pub(crate) fn kind_at(v: &Value) -> Option<ResvKind>
    ensures { result
        ≡ forms.required (forms.one_of reservation_kinds) (codes "kind") (view v.now) }
{
    match text_at(v, "kind") {
        Some(word) => resv_kind_in(word),
        None => None,
    }
}

pub(crate) fn has_slots(
    alloc: Global,
    kind: Option<ResvKind>,
    v: &Value,
) -> Result<bool, AllocError>
    ensures { IfOk result (λ b. b ≡ tests.has_slots kind (view v.now)) }
{
    match kind {
        Some(kind) => Ok(slots_of(alloc, kind, v)?.is_some()),
        None => Ok(false),
    }
}

pub(crate) fn may_have_uses(alloc: Global, names: &NameLists, v: &Value) -> Result<bool, AllocError>
    ensures { IfOk result (λ b. b
        ≡ is_some (forms.optional (forms.list_of (document.sem_form
        (names_seen names.now))) [] (codes "uses") (view v.now))) }
{
    Ok(uses_of(alloc, names, v)?.is_some())
}

pub(crate) fn may_have_resv(names: &NameLists, v: &Value) -> bool
    ensures { result
        ≡ is_some (forms.optional (forms.or_null (document.resv_form
        (names_seen names.now))) None (codes "resv") (view v.now)) }
{
    resv_of(names, v).is_some()
}

pub(crate) fn is_step(names: &NameLists, v: &Value) -> bool
    ensures { result ≡ is_some (document.step_form (names_seen names.now) (view v.now)) }
{
    step_of(names, v).is_some()
}
