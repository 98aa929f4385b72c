//! The limits of a set.
ghost use Rattle.std.specs.Prelude.{◌≡◌, ◌&&◌, ◌*◌, ◌≤◌, nat_le, List, length};
ghost use Rattle.rt_task.specs.declared.bad_set.Part.TheVariants as parts;
ghost use Rattle.rt_task.specs.declared.bad_set.SetKind.TheVariants as kinds;
ghost use Rattle.rt_task.specs.declared.draft.Draft.{Draft};
ghost use Rattle.rt_task.specs.declared.draft.DraftTask.{DraftTask};
ghost use Rattle.rt_task.specs.Answers.{Keeps};
ghost use Rattle.rt_task.specs.Lookups as lookups;
ghost use Rattle.rt_task.specs.Refusals.{each, first, whole};
ghost use Rattle.rt_task.specs.RuleWords as words;
ghost use Rattle.rt_task.specs.SizeRules as rules;
ghost use Rattle.rt_task.specs.Validity.{size_rows};

use super::range::cpus_of;
use super::stop;
use rt_base::{
    MOST_CLUSTERS, MOST_CPUS, MOST_OPERATIONS, MOST_RESVS, MOST_SEMS, MOST_STEPS, MOST_TASKS,
    MOST_TURN_STEPS,
};
use rt_task::{Draft, DraftDrive, DraftTask, Part, Piece, SetKind, SetStop};

/// Whether `horizon` turns of `cpus` processors, each with the most steps of a turn, are within the limit of steps.
fn product_fits(horizon: u64, cpus: u64) -> bool
    ensures { result ≡ nat_le (horizon * cpus * MOST_TURN_STEPS) MOST_STEPS }
{
    match horizon.checked_mul(cpus) {
        None => false,
        Some(n) => n <= u64::from(MOST_STEPS / MOST_TURN_STEPS),
    }
}

/// Whether the steps are at most 1,000,000: those that are given, or those that so many processors can take up to
/// the horizon.
pub fn horizon_fits(drive: &DraftDrive, cpus: u64) -> bool
    ensures { (d : Draft) → cpus ≡ lookups.cpus d → result ≡ rules.horizon_fits d drive.now }
{
    match drive {
        DraftDrive::Steps(steps) => steps.as_slice().len() <= MOST_STEPS as usize,
        DraftDrive::Horizon(h) => product_fits(*h, cpus),
    }
}

#[tactic(auto, unfolding(rt_task::specs::SizeRules::whole_size))]
fn whole_size(d: &Draft, cpus: u64) -> bool
    requires { cpus ≡ lookups.cpus d.now }
    ensures { result ≡ rules.whole_size d.now }
{
    d.clusters.as_slice().len() <= MOST_CLUSTERS as usize
        && cpus <= u64::from(MOST_CPUS)
        && d.tasks.as_slice().len() <= MOST_TASKS as usize
        && d.sems.as_slice().len() <= MOST_SEMS as usize
        && d.resvs.as_slice().len() <= MOST_RESVS as usize
        && horizon_fits(&d.drive, cpus)
}

fn whole_of_size(d: &Draft) -> Result<(), SetStop>
    ensures { Keeps result (whole kinds.Size (rules.whole_size d.now)) }
{
    let Some(cpus) = cpus_of(d) else {
        return Err(SetStop::NoMemory);
    };
    if whole_size(d, cpus) {
        return Ok(());
    }
    Err(stop(SetKind::Size, Part::Whole, 0))
}

fn piece_len(piece: Piece) -> u64
    ensures { result ≡ words.piece_len piece }
{
    match piece {
        Piece::Works(n) => n,
        Piece::Once(_) => 1,
    }
}

/// Whether a body has at most 1,000 operations, each unit of work counted.
pub fn body_fits(pieces: &[Piece]) -> bool
    ensures { result ≡ nat_le (words.body_len pieces.now) MOST_OPERATIONS }
{
    let mut left = u64::from(MOST_OPERATIONS);
    for piece in pieces {
        let n = piece_len(*piece);
        if n > left {
            return false;
        }
        left -= n;
    }
    true
}

#[tactic(auto, unfolding(rt_task::specs::SizeRules::task_size))]
fn task_size(p: &DraftTask) -> bool
    ensures { (d : Draft) (earlier : List DraftTask) → result ≡ rules.task_size d earlier p.now }
{
    body_fits(p.pieces.as_slice())
}

fn tasks_of_size(d: &Draft) -> Result<(), SetStop>
    ensures { Keeps result (each kinds.Size parts.Task (rules.task_size d.now) d.now.tasks) }
{
    let tasks = d.tasks.as_slice();
    for (i, p) in tasks.iter().enumerate() {
        if !task_size(p) {
            return Err(stop(SetKind::Size, Part::Task, i));
        }
    }
    Ok(())
}

/// The rules of the kind Size.
pub(super) fn check_sizes(d: &Draft) -> Result<(), SetStop>
    ensures { Keeps result (first (size_rows d.now)) }
{
    whole_of_size(d)?;
    tasks_of_size(d)
}
