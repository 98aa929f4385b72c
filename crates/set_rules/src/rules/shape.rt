//! Which reservations have slots, and what a set with a horizon asks of its tasks.
ghost use Rattle.std.specs.Prelude.{◌≡◌, ◌&&◌, ◌||◌, not, List};
ghost use Rattle.rt_task.specs.declared.bad_set.Part.TheVariants as parts;
ghost use Rattle.rt_task.specs.declared.bad_set.SetKind.TheVariants as kinds;
ghost use Rattle.rt_task.specs.declared.draft.Draft.{Draft};
ghost use Rattle.rt_task.specs.declared.draft.DraftResv.{DraftResv};
ghost use Rattle.rt_task.specs.declared.draft.DraftTask.{DraftTask};
ghost use Rattle.rt_task.specs.Answers.{Keeps};
ghost use Rattle.rt_task.specs.Refusals.{each, first};
ghost use Rattle.rt_task.specs.RuleWords as words;
ghost use Rattle.rt_task.specs.Validity as rules;
ghost use Rattle.rt_task.specs.Validity.{shape_rows};

use super::slots::may_have;
use super::stop;
use rt_task::{Draft, DraftDrive, DraftResv, DraftTask, Kind, Part, SetKind, SetStop};

/// Whether the set has a horizon, and not steps.
pub fn has_horizon(d: &Draft) -> bool
    ensures { result ≡ words.has_horizon d.now.drive }
{
    match &d.drive {
        DraftDrive::Steps(_) => false,
        DraftDrive::Horizon(_) => true,
    }
}

#[tactic(auto, unfolding(rt_task::specs::Validity::task_shape))]
fn task_shape(d: &Draft, p: &DraftTask) -> bool
    ensures { (earlier : List DraftTask) → result ≡ rules.task_shape d.now earlier p.now }
{
    !has_horizon(d) || (p.kind == Kind::Periodic && !p.pieces.as_slice().is_empty())
}

#[tactic(auto, unfolding(rt_task::specs::Validity::resv_shape))]
fn resv_shape(r: &DraftResv) -> bool
    ensures { (d : Draft) (earlier : List DraftResv) → result ≡ rules.resv_shape d earlier r.now }
{
    may_have(r.kind, r.slots.as_slice())
}

fn resvs_shaped(d: &Draft) -> Result<(), SetStop>
    ensures { Keeps result (each kinds.Shape parts.Resv (rules.resv_shape d.now) d.now.resvs) }
{
    let resvs = d.resvs.as_slice();
    for (i, r) in resvs.iter().enumerate() {
        if !resv_shape(r) {
            return Err(stop(SetKind::Shape, Part::Resv, i));
        }
    }
    Ok(())
}

fn tasks_shaped(d: &Draft) -> Result<(), SetStop>
    ensures { Keeps result (each kinds.Shape parts.Task (rules.task_shape d.now) d.now.tasks) }
{
    let tasks = d.tasks.as_slice();
    for (i, p) in tasks.iter().enumerate() {
        if !task_shape(d, p) {
            return Err(stop(SetKind::Shape, Part::Task, i));
        }
    }
    Ok(())
}

/// The rules of the kind Shape.
pub(super) fn check_shapes(d: &Draft) -> Result<(), SetStop>
    ensures { Keeps result (first (shape_rows d.now)) }
{
    resvs_shaped(d)?;
    tasks_shaped(d)
}
