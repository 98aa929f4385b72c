//! The rule that a set breaks whose elements have their forms.
ghost use Rattle.std.specs.Prelude.{◌≡◌, IfErr, IfOk, slice_get};
ghost use Rattle.rt_task.specs.Draft.{steps_of};
ghost use Rattle.set_explain.specs.Broken as spec;
ghost use Rattle.set_explain.specs.Rules.{broken};
ghost use Rattle.set_explain.specs.Shown.{shown};

use crate::name::{resv_name, sem_name, step_name, task_name};
use crate::range::{cluster_range, resv_range, step_range, task_range, whole_range};
use crate::rule::Rule;
use crate::sharing::{resv_sharing, sem_sharing, step_sharing, task_sharing};
use crate::size::{task_size, whole_size};
use rt_task::{Draft, DraftDrive, DraftStep, Part, Place, SetKind, SetStop};
use std::alloc::Global;

/// The step at a place, if the set is given by steps.
fn step_at(d: &Draft, index: usize) -> Option<DraftStep>
    ensures { result ≡ slice_get (steps_of d.now.drive) index }
{
    match &d.drive {
        DraftDrive::Steps(steps) => steps.as_slice().get(index).copied(),
        DraftDrive::Horizon(_) => None,
    }
}

fn range_rule(d: &Draft, place: Place) -> Option<Rule>
    ensures { shown result ≡ broken (spec.range_tests d.now place.part place.index) }
{
    let i = place.index as usize;
    match place.part {
        Part::Whole => whole_range(d),
        Part::Cluster => {
            let c = d.clusters.as_slice().get(i)?;
            cluster_range(d, &d.clusters.as_slice()[..i], *c)
        }
        Part::Resv => resv_range(d, d.resvs.as_slice().get(i)?),
        Part::Task => task_range(d, d.tasks.as_slice().get(i)?),
        Part::Step => step_range(d, step_at(d, i)?),
        Part::Sem | Part::Line => None,
    }
}

fn name_rule(alloc: Global, d: &Draft, place: Place) -> Result<Option<Rule>, SetStop>
    ensures rule { IfOk result (λ r.
        shown r ≡ broken (spec.name_tests d.now place.part place.index)) }
    ensures memory { IfErr result (λ e. e ≡ SetStop.NoMemory) }
{
    let i = place.index as usize;
    Ok(match place.part {
        Part::Sem => match d.sems.as_slice().get(i) {
            Some(s) => sem_name(&d.sems.as_slice()[..i], s),
            None => None,
        },
        Part::Resv => match d.resvs.as_slice().get(i) {
            Some(r) => resv_name(&d.resvs.as_slice()[..i], r),
            None => None,
        },
        Part::Task => match d.tasks.as_slice().get(i) {
            Some(p) => task_name(alloc, d, &d.tasks.as_slice()[..i], p)?,
            None => None,
        },
        Part::Step => match step_at(d, i) {
            Some(s) => step_name(d, s),
            None => None,
        },
        Part::Whole | Part::Cluster | Part::Line => None,
    })
}

fn sharing_rule(alloc: Global, d: &Draft, place: Place) -> Result<Option<Rule>, SetStop>
    ensures rule { IfOk result (λ r.
        shown r ≡ broken (spec.sharing_tests d.now place.part place.index)) }
    ensures memory { IfErr result (λ e. e ≡ SetStop.NoMemory) }
{
    let i = place.index as usize;
    Ok(match place.part {
        Part::Sem => match d.sems.as_slice().get(i) {
            Some(s) => match place.index.checked_add(1) {
                Some(number) => sem_sharing(alloc, d, number, s)?,
                None => return Err(SetStop::NoMemory),
            },
            None => None,
        },
        Part::Resv => match d.resvs.as_slice().get(i) {
            Some(r) => resv_sharing(d, &d.resvs.as_slice()[..i], r),
            None => None,
        },
        Part::Task => match d.tasks.as_slice().get(i) {
            Some(p) => task_sharing(alloc, d, p)?,
            None => None,
        },
        Part::Step => match step_at(d, i) {
            Some(s) => step_sharing(alloc, d, s)?,
            None => None,
        },
        Part::Whole | Part::Cluster | Part::Line => None,
    })
}

fn size_rule(d: &Draft, place: Place) -> Option<Rule>
    ensures { shown result ≡ broken (spec.size_tests d.now place.part place.index) }
{
    match place.part {
        Part::Whole => whole_size(d),
        Part::Task => task_size(d.tasks.as_slice().get(place.index as usize)?),
        _ => None,
    }
}

/// The rule of this kind that a set breaks at a place.
pub(crate) fn draft_rule(
    alloc: Global,
    d: &Draft,
    kind: SetKind,
    place: Place,
) -> Result<Option<Rule>, SetStop>
    ensures rule { IfOk result (λ r.
        shown r ≡ broken (spec.draft_tests d.now kind place.part place.index)) }
    ensures memory { IfErr result (λ e. e ≡ SetStop.NoMemory) }
{
    match kind {
        SetKind::Range => Ok(range_rule(d, place)),
        SetKind::Name => name_rule(alloc, d, place),
        SetKind::Sharing => sharing_rule(alloc, d, place),
        SetKind::Size => Ok(size_rule(d, place)),
        _ => Ok(None),
    }
}
