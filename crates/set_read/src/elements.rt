//! Reading the elements of an array: all of them, or the first that has not its form.
ghost use Rattle.std.specs.Prelude.{◌≡◌, ◌+◌, ◌&&◌, not, map, ◌^◌, ◌<◌, length, option_map, IfOk};
ghost use Rattle.rt_task.specs.declared.bad_set.Part.TheVariants as parts;
ghost use Rattle.serde_json.specs.View.{view};
ghost use Rattle.set_read.specs.Document as document;
ghost use Rattle.rt_task.specs.Answers.{Gives};
ghost use Rattle.set_read.specs.inside.Elements.{elements_from};
ghost use Rattle.rt_task.specs.RuleWords.{is_empty, is_periodic};
ghost use Rattle.set_read.specs.Names.{names_seen};

use crate::acts::{NameLists, step_of};
use crate::forms::cluster_of;
use crate::tasks::{reservation_of, semaphore_of, task_of};
use rt_task::{
    BadSet, DraftCluster, DraftResv, DraftStep, DraftTask, Kind, Part, Place, Sem, SetKind, SetStop,
};
use serde_json::Value;
use std::alloc::{AllocError, Global};

fn misshapen(part: Part, index: usize) -> SetStop
    requires { index < 2 ^ 32 }
    ensures { result
        ≡ SetStop.Bad
        (record { kind = SetKind.Shape; place = record { part = part; index = index } }) }
{
    SetStop::Bad(BadSet {
        kind: SetKind::Shape,
        place: Place {
            part,
            index: index as u32,
        },
    })
}

pub(crate) fn clusters_of(alloc: Global, items: &[Value]) -> Result<Vec<DraftCluster>, SetStop>
    requires { length items.now < 2 ^ 32 }
    ensures { Gives (λ v. v.items) result (elements_from parts.Cluster 0 (map
        (λ x. document.cluster_form x) (map view items.now))) }
{
    let mut found = Vec::new(alloc);
    for (i, item) in items.iter().enumerate() {
        let Some(cluster) = cluster_of(item) else {
            return Err(misshapen(Part::Cluster, i));
        };
        found.push(cluster)?;
    }
    Ok(found)
}

pub(crate) fn semaphores_of(alloc: Global, items: &[Value]) -> Result<Vec<Sem>, SetStop>
    requires { length items.now < 2 ^ 32 }
    ensures { Gives (λ v. v.items) result (elements_from parts.Sem 0 (map
        (λ x. document.semaphore_form x) (map view items.now))) }
{
    let mut found = Vec::new(alloc);
    for (i, item) in items.iter().enumerate() {
        let Some(sem) = semaphore_of(alloc, item)? else {
            return Err(misshapen(Part::Sem, i));
        };
        found.push(sem)?;
    }
    Ok(found)
}

pub(crate) fn reservations_of(alloc: Global, items: &[Value]) -> Result<Vec<DraftResv>, SetStop>
    requires { length items.now < 2 ^ 32 }
    ensures { Gives (λ v. v.items) result (elements_from parts.Resv 0 (map
        (λ x. document.reservation_form x) (map view items.now))) }
{
    let mut found = Vec::new(alloc);
    for (i, item) in items.iter().enumerate() {
        let Some(resv) = reservation_of(alloc, item)? else {
            return Err(misshapen(Part::Resv, i));
        };
        found.push(resv)?;
    }
    Ok(found)
}

pub(crate) fn steps_of(
    alloc: Global,
    names: &NameLists,
    items: &[Value],
) -> Result<Vec<DraftStep>, SetStop>
    requires { length items.now < 2 ^ 32 }
    ensures { Gives (λ v. v.items) result (elements_from parts.Step 0 (map (λ x. document.step_form
        (names_seen names.now) x) (map view items.now))) }
{
    let mut found = Vec::new(alloc);
    for (i, item) in items.iter().enumerate() {
        let Some(step) = step_of(names, item) else {
            return Err(misshapen(Part::Step, i));
        };
        found.push(step)?;
    }
    Ok(found)
}

pub(crate) fn has_shape(p: &DraftTask) -> bool
    ensures { result ≡ (is_periodic p.now.kind && not (is_empty p.now.pieces)) }
{
    p.kind == Kind::Periodic && !p.pieces.as_slice().is_empty()
}

fn shaped_task_of(
    alloc: Global,
    names: &NameLists,
    has_horizon: bool,
    number: u32,
    v: &Value,
) -> Result<Option<DraftTask>, AllocError>
    ensures { IfOk result (λ r. r
        ≡ document.shaped has_horizon (document.task_form
        (names_seen names.now) number (view v.now))) }
{
    let Some(task) = task_of(alloc, names, number, v)? else {
        return Ok(None);
    };
    if has_horizon && !has_shape(&task) {
        return Ok(None);
    }
    Ok(Some(task))
}

pub(crate) fn tasks_of(
    alloc: Global,
    names: &NameLists,
    has_horizon: bool,
    items: &[Value],
) -> Result<Vec<DraftTask>, SetStop>
    requires { length items.now + 1 < 2 ^ 32 }
    ensures { Gives (λ v. v.items) result (elements_from parts.Task 0 (document.tasks_from
        (names_seen names.now) has_horizon 1 (map view items.now))) }
{
    let mut found = Vec::new(alloc);
    for (i, item) in items.iter().enumerate() {
        let Some(task) = shaped_task_of(alloc, names, has_horizon, i as u32 + 1, item)? else {
            return Err(misshapen(Part::Task, i));
        };
        found.push(task)?;
    }
    Ok(found)
}
