//! The rule that a document breaks some of whose values have not their forms.
ghost use Rattle.std.specs.Prelude.{◌≡◌, IfErr, IfOk, map};
ghost use Rattle.serde_json.specs.View.{view};
ghost use Rattle.set_explain.specs.Broken as spec;
ghost use Rattle.set_explain.specs.Rules.{broken};
ghost use Rattle.set_explain.specs.Shown.{shown};
ghost use Rattle.set_explain.specs.ShapeRules as shape;
ghost use Rattle.set_read.specs.Document as document;
ghost use Rattle.set_read.specs.Seen.{play_seen, values_seen, whole_seen};

use crate::rule::Rule;
use crate::shape::{cluster_shape, resv_shape, sem_shape, step_shape, whole_shape};
use crate::task_shape::task_shape;
use rt_task::{Part, Place, SetStop};
use serde_json::Value;
use set_read::single::{Play, Whole, names_of, whole_of};
use std::alloc::{AllocError, Global};

fn needs_bodies(play: Play) -> bool
    ensures { result ≡ document.has_horizon (play_seen play.entry) }
{
    matches!(play, Play::Horizon(_))
}

fn steps_in<'a>(play: Play<'a>) -> &'a [Value]
    ensures { values_seen result ≡ spec.steps_in (play_seen play.entry) }
{
    match play {
        Play::Steps(items) => items,
        Play::Horizon(_) => &[],
    }
}

fn task_rule(alloc: Global, whole: &Whole, v: &Value) -> Result<Option<Rule>, SetStop>
    ensures rule { IfOk result (λ r. shown r ≡ broken (shape.task_shape
        (document.names_of (whole_seen whole.now))
        (document.has_horizon (play_seen whole.now.play)) (view v.now))) }
    ensures memory { IfErr result (λ e. e ≡ SetStop.NoMemory) }
{
    let names = names_of(alloc, whole)?;
    Ok(task_shape(alloc, &names, needs_bodies(whole.play), v)?)
}

fn step_rule(alloc: Global, whole: &Whole, v: &Value) -> Result<Option<Rule>, SetStop>
    ensures rule { IfOk result (λ r. shown r ≡ broken (shape.step_shape
        (document.names_of (whole_seen whole.now)) (view v.now))) }
    ensures memory { IfErr result (λ e. e ≡ SetStop.NoMemory) }
{
    let names = names_of(alloc, whole)?;
    Ok(step_shape(&names, v))
}

fn cluster_at(items: &[Value], i: usize) -> Option<Rule>
    ensures { shown result
        ≡ broken (spec.tests_at (spec.alone shape.cluster_shape) (map view items.now) i) }
{
    match items.get(i) {
        Some(v) => cluster_shape(v),
        None => None,
    }
}

fn sem_at(items: &[Value], i: usize) -> Option<Rule>
    ensures { shown result
        ≡ broken (spec.tests_at (spec.alone shape.sem_shape) (map view items.now) i) }
{
    match items.get(i) {
        Some(v) => sem_shape(v),
        None => None,
    }
}

fn resv_at(alloc: Global, items: &[Value], i: usize) -> Result<Option<Rule>, AllocError>
    ensures { IfOk result (λ r. shown r
        ≡ broken (spec.tests_at (spec.alone shape.resv_shape) (map view items.now) i)) }
{
    match items.get(i) {
        Some(v) => resv_shape(alloc, v),
        None => Ok(None),
    }
}

fn task_at(alloc: Global, whole: &Whole, items: &[Value], i: usize) -> Result<Option<Rule>, SetStop>
    ensures rule { IfOk result (λ r. shown r ≡ broken (spec.tests_at (spec.alone
        (shape.task_shape (document.names_of (whole_seen whole.now))
        (document.has_horizon (play_seen whole.now.play)))) (map view items.now) i)) }
    ensures memory { IfErr result (λ e. e ≡ SetStop.NoMemory) }
{
    match items.get(i) {
        Some(v) => task_rule(alloc, whole, v),
        None => Ok(None),
    }
}

fn step_at(alloc: Global, whole: &Whole, items: &[Value], i: usize) -> Result<Option<Rule>, SetStop>
    ensures rule { IfOk result (λ r. shown r ≡ broken (spec.tests_at (spec.alone
        (shape.step_shape (document.names_of (whole_seen whole.now)))) (map view items.now) i)) }
    ensures memory { IfErr result (λ e. e ≡ SetStop.NoMemory) }
{
    match items.get(i) {
        Some(v) => step_rule(alloc, whole, v),
        None => Ok(None),
    }
}

fn element_rule(alloc: Global, whole: &Whole, place: Place) -> Result<Option<Rule>, SetStop>
    ensures rule { IfOk result (λ r.
        shown r ≡ broken (spec.element_tests (whole_seen whole.now) place.part place.index)) }
    ensures memory { IfErr result (λ e. e ≡ SetStop.NoMemory) }
{
    let i = place.index as usize;
    match place.part {
        Part::Cluster => Ok(cluster_at(whole.clusters, i)),
        Part::Sem => Ok(sem_at(whole.sems, i)),
        Part::Resv => Ok(resv_at(alloc, whole.resvs, i)?),
        Part::Task => task_at(alloc, whole, whole.tasks, i),
        Part::Step => step_at(alloc, whole, steps_in(whole.play), i),
        Part::Whole | Part::Line => Ok(None),
    }
}

/// The rule of form that a document breaks at a place.
pub(crate) fn form_rule(alloc: Global, v: &Value, place: Place) -> Result<Option<Rule>, SetStop>
    ensures rule { IfOk result (λ r.
        shown r ≡ broken (spec.form_tests (view v.now) place.part place.index)) }
    ensures memory { IfErr result (λ e. e ≡ SetStop.NoMemory) }
{
    if place.part == Part::Whole {
        return Ok(whole_shape(v));
    }
    match whole_of(v) {
        Some(whole) => element_rule(alloc, &whole, place),
        None => Ok(None),
    }
}
