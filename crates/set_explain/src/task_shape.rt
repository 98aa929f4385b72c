//! The rules on the form of a task.
ghost use Rattle.std.specs.Prelude.{◌≡◌, ◌++◌, ◌&&◌, ◌||◌, not, IfOk, unwrap_or, []};
ghost use Rattle.rt_task.specs.RuleWords as words;
ghost use Rattle.serde_json.specs.View.{view};
ghost use Rattle.set_explain.specs.Rules.{broken};
ghost use Rattle.set_explain.specs.ShapeRules as tests;
ghost use Rattle.set_explain.specs.Shown.{shown};
ghost use Rattle.set_read.specs.Names.{names_seen};

use crate::has::{
    has_members, has_number, has_text, may_have_kind, may_have_number, may_have_resv,
    may_have_truth, may_have_uses,
};
use crate::rule::{Rule, first, unless};
use crate::words::{A_NUMBER, A_TEXT, TRUE_OR_FALSE};
use rt_task::{Kind, Pieces};
use serde_json::Value;
use set_read::single::{NameLists, body_of, kind_of};
use std::alloc::{AllocError, Global};

/// Whether a task of this kind and with this body, where they have their forms, can be played up to a horizon.
fn is_played(kind: Option<Kind>, body: &Option<Pieces>) -> bool
    ensures { result ≡ (words.is_periodic (unwrap_or kind Kind.Periodic)
        && not (words.is_empty (unwrap_or body.now []))) }
{
    match body {
        Some(pieces) => kind != Some(Kind::Sporadic) && !pieces.as_slice().is_empty(),
        None => false,
    }
}

/// Whether a task is as its set needs it: in a set with a horizon it can be played.
fn suits(needs: bool, kind: Option<Kind>, body: &Option<Pieces>) -> bool
    ensures { result ≡ (not needs || (words.is_periodic (unwrap_or kind Kind.Periodic)
        && not (words.is_empty (unwrap_or body.now [])))) }
{
    !needs || is_played(kind, body)
}

fn task_head(v: &Value) -> Option<Rule>
    ensures { shown result ≡ broken (tests.task_head (view v.now)) }
{
    let members = has_members(
        v,
        &[
            "name", "cluster", "cost", "period", "deadline", "phase", "kind", "prio", "enforce",
            "uses", "resv", "body", "early",
        ],
    );
    first(&[
        unless(
            members,
            "members",
            "an object with name, cluster, cost, period, deadline, phase, kind, prio, enforce, uses, resv, body and early alone",
        ),
        unless(has_text(v, "name"), "name", A_TEXT),
        unless(may_have_number(v, "cluster"), "cluster", A_NUMBER),
        unless(has_number(v, "cost"), "cost", A_NUMBER),
        unless(has_number(v, "period"), "period", A_NUMBER),
    ])
}

fn task_times(v: &Value) -> Option<Rule>
    ensures { shown result ≡ broken (tests.task_times (view v.now)) }
{
    first(&[
        unless(may_have_number(v, "deadline"), "deadline", A_NUMBER),
        unless(may_have_number(v, "phase"), "phase", A_NUMBER),
        unless(may_have_kind(v), "kind", "periodic or sporadic"),
        unless(may_have_number(v, "prio"), "prio", A_NUMBER),
        unless(may_have_truth(v, "enforce"), "enforce", TRUE_OR_FALSE),
    ])
}

fn task_parts(
    alloc: Global,
    names: &NameLists,
    needs: bool,
    v: &Value,
) -> Result<Option<Rule>, AllocError>
    ensures { IfOk result (λ r.
        shown r ≡ broken (tests.task_parts (names_seen names.now) needs (view v.now))) }
{
    let uses = may_have_uses(alloc, names, v)?;
    let body = body_of(alloc, names, v)?;
    Ok(first(&[
        unless(uses, "uses", "an array of names"),
        unless(may_have_resv(names, v), "resv", "a name, or null"),
        unless(
            body.is_some(),
            "body",
            "an array of [\"work\", n], [\"lock\", name], [\"unlock\", name], [\"sleep\", n], [\"npon\"], [\"npoff\"] and [\"end\"]",
        ),
        unless(may_have_truth(v, "early"), "early", TRUE_OR_FALSE),
        unless(
            suits(needs, kind_of(v), &body),
            "kind, body",
            "in a set with a horizon a task is periodic and has a body",
        ),
    ]))
}

fn task_rest(
    alloc: Global,
    names: &NameLists,
    needs: bool,
    v: &Value,
) -> Result<Option<Rule>, AllocError>
    ensures { let d = view v.now in IfOk result (λ r. shown r
        ≡ broken (tests.task_times d ++ tests.task_parts (names_seen names.now) needs d)) }
{
    let parts = task_parts(alloc, names, needs, v)?;
    Ok(first(&[task_times(v), parts]))
}

pub(crate) fn task_shape(
    alloc: Global,
    names: &NameLists,
    needs: bool,
    v: &Value,
) -> Result<Option<Rule>, AllocError>
    ensures { IfOk result (λ r.
        shown r ≡ broken (tests.task_shape (names_seen names.now) needs (view v.now))) }
{
    let rest = task_rest(alloc, names, needs, v)?;
    Ok(first(&[task_head(v), rest]))
}
