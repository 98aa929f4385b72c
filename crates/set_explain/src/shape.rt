//! The rules on forms.
ghost use Rattle.std.specs.Prelude.{◌≡◌, IfOk};
ghost use Rattle.serde_json.specs.View.{view};
ghost use Rattle.set_explain.specs.Rules.{broken};
ghost use Rattle.set_explain.specs.ShapeRules as tests;
ghost use Rattle.set_explain.specs.Shown.{shown};
ghost use Rattle.set_read.specs.Names.{names_seen};

use crate::has::{
    has_array, has_members, has_number, has_play, has_plugin, has_protocol, has_slots, has_text,
    is_step, kind_at, may_have_array, may_have_number,
};
use crate::rule::{Rule, first, unless};
use crate::words::{A_NUMBER, A_TEXT, AN_ARRAY};
use serde_json::Value;
use set_read::single::NameLists;
use std::alloc::{AllocError, Global};

pub(crate) fn whole_shape(v: &Value) -> Option<Rule>
    ensures { shown result ≡ broken (tests.whole_shape (view v.now)) }
{
    let members = has_members(
        v,
        &[
            "plugin", "clusters", "sems", "resvs", "tasks", "steps", "horizon",
        ],
    );
    first(&[
        unless(
            members,
            "members",
            "an object with plugin, clusters, sems, resvs, tasks, steps and horizon alone",
        ),
        unless(
            has_plugin(v),
            "plugin",
            "GSN-EDF, C-EDF, PSN-EDF, P-FP or P-RES",
        ),
        unless(has_array(v, "clusters"), "clusters", AN_ARRAY),
        unless(may_have_array(v, "sems"), "sems", AN_ARRAY),
        unless(may_have_array(v, "resvs"), "resvs", AN_ARRAY),
        unless(may_have_array(v, "tasks"), "tasks", AN_ARRAY),
        unless(
            has_play(v),
            "steps, horizon",
            "one of the two: an array of steps, or a whole number",
        ),
    ])
}

pub(crate) fn cluster_shape(v: &Value) -> Option<Rule>
    ensures { shown result ≡ broken (tests.cluster_shape (view v.now)) }
{
    first(&[
        unless(
            has_members(v, &["cpus", "group"]),
            "members",
            "an object with cpus and group alone",
        ),
        unless(has_number(v, "cpus"), "cpus", A_NUMBER),
        unless(may_have_number(v, "group"), "group", A_NUMBER),
    ])
}

pub(crate) fn sem_shape(v: &Value) -> Option<Rule>
    ensures { shown result ≡ broken (tests.sem_shape (view v.now)) }
{
    first(&[
        unless(
            has_members(v, &["name", "protocol"]),
            "members",
            "an object with name and protocol alone",
        ),
        unless(has_text(v, "name"), "name", A_TEXT),
        unless(has_protocol(v), "protocol", "FMLP, OMLP, PCP, MPCP or SRP"),
    ])
}

pub(crate) fn resv_shape(alloc: Global, v: &Value) -> Result<Option<Rule>, AllocError>
    ensures { IfOk result (λ r. shown r ≡ broken (tests.resv_shape (view v.now))) }
{
    let members = has_members(
        v,
        &[
            "name", "cluster", "kind", "budget", "period", "prio", "slots",
        ],
    );
    let kind = kind_at(v);
    let slots = has_slots(alloc, kind, v)?;
    Ok(first(&[
        unless(
            members,
            "members",
            "an object with name, cluster, kind, budget, period, prio and slots alone",
        ),
        unless(has_text(v, "name"), "name", A_TEXT),
        unless(may_have_number(v, "cluster"), "cluster", A_NUMBER),
        unless(kind.is_some(), "kind", "polling, sporadic or table"),
        unless(has_number(v, "budget"), "budget", A_NUMBER),
        unless(has_number(v, "period"), "period", A_NUMBER),
        unless(may_have_number(v, "prio"), "prio", A_NUMBER),
        unless(
            slots,
            "slots",
            "of a table an array of [from, to]; no other kind has slots",
        ),
    ]))
}

pub(crate) fn step_shape(names: &NameLists, v: &Value) -> Option<Rule>
    ensures { shown result ≡ broken (tests.step_shape (names_seen names.now) (view v.now)) }
{
    first(&[unless(
        is_step(names, v),
        "step",
        "an array of a processor, a tick, the word of an act, and what that needs",
    )])
}
