//! The pieces of the line of a task.
ghost use Rattle.std.specs.Prelude.{◌≡◌, ◌++◌, ◌∷◌, [], OnOk, codes, decimal};
ghost use Rattle.std.specs.List.{concat};
ghost use Rattle.why_texts.specs.Pieces.{task_name};
ghost use Rattle.why_texts.specs.TaskLines.{absent_piece, holds_piece, where_so};
ghost use Rattle.why_lines.specs.GroupSets.{group_in};
ghost use Rattle.why_lines.specs.JobsShown.{keys_shown, times_shown, used_shown};
ghost use Rattle.why_lines.specs.SemNos.{sem_numbers};

use crate::pieces::{GroupSet, put, put_key, put_number, put_sems, put_task};
use crate::resvs::put_number_or_dash;
use rt_base::{NoMemory, SemNo, TaskNo};
use rt_rules::Key;

/// The keys and times of a job that is there, and what it has used of its cost.
#[derive(Clone, Copy)]
pub struct JobTimes {
    pub base: Key,
    pub key: Key,
    pub release: Option<u64>,
    pub deadline: u64,
    pub used: u64,
    pub cost: u64,
}

/// The name of a task and the number of its job, with how many jobs ended before.
#[tactic(auto, using(std::proofs::Common::append_assoc))]
pub fn put_job_start(
    out: &mut Vec<u8>,
    set: &GroupSet,
    task: TaskNo,
    job: u64,
) -> Result<(), NoMemory>
    ensures { OnOk result (out.new.items ≡ out.old.items ++ (codes "  task "
        ++ (task_name (group_in set.now) task.0 ++ (codes " job " ++ decimal job)))) }
{
    put(out, b"  task ")?;
    put_task(out, set, task)?;
    put(out, b" job ")?;
    put_number(out, job)
}

#[tactic(auto, using(std::proofs::Common::append_assoc))]
fn put_released_at(out: &mut Vec<u8>, release: u64) -> Result<(), NoMemory>
    ensures { OnOk result (out.new.items
        ≡ out.old.items ++ (codes " not there, released at " ++ decimal release)) }
{
    put(out, b" not there, released at ")?;
    put_number(out, release)
}

/// A job that is not there: its release, where that is known.
pub fn put_absent(out: &mut Vec<u8>, release: Option<u64>) -> Result<(), NoMemory>
    ensures { OnOk result (out.new.items ≡ out.old.items ++ absent_piece release) }
{
    match release {
        Some(release) => put_released_at(out, release),
        None => put(out, b" not there, no arrival"),
    }
}

fn put_where_so(out: &mut Vec<u8>, so: bool, piece: &[u8]) -> Result<(), NoMemory>
    ensures { OnOk result (out.new.items ≡ out.old.items ++ where_so so piece.now) }
{
    if so {
        put(out, piece)?;
    }
    Ok(())
}

#[tactic(auto, using(std::proofs::Common::append_assoc))]
fn put_held(out: &mut Vec<u8>, set: &GroupSet, held: &[SemNo]) -> Result<(), NoMemory>
    ensures { OnOk result (out.new.items
        ≡ out.old.items ++ holds_piece (group_in set.now) (sem_numbers held.now)) }
{
    if held.is_empty() {
        return Ok(());
    }
    put(out, b", holds")?;
    put_sems(out, set, held)
}

#[tactic(auto, using(std::proofs::Common::append_assoc, crate::proofs::Writing::nothing_behind), unfolding(crate::specs::JobsShown::keys_shown))]
fn put_keys(out: &mut Vec<u8>, job: &JobTimes) -> Result<(), NoMemory>
    ensures { OnOk result (out.new.items ≡ out.old.items ++ keys_shown job.now) }
{
    put(out, b", base ")?;
    put_key(out, job.base)?;
    put(out, b" key ")?;
    put_key(out, job.key)
}

#[tactic(auto, using(std::proofs::Common::append_assoc, crate::proofs::Writing::nothing_behind), unfolding(crate::specs::JobsShown::times_shown))]
fn put_times(out: &mut Vec<u8>, job: &JobTimes) -> Result<(), NoMemory>
    ensures { OnOk result (out.new.items ≡ out.old.items ++ times_shown job.now) }
{
    put(out, b", release ")?;
    put_number_or_dash(out, job.release)?;
    put(out, b" deadline ")?;
    put_number(out, job.deadline)
}

#[tactic(auto, using(std::proofs::Common::append_assoc, crate::proofs::Writing::nothing_behind), unfolding(crate::specs::JobsShown::used_shown))]
fn put_used(out: &mut Vec<u8>, job: &JobTimes) -> Result<(), NoMemory>
    ensures { OnOk result (out.new.items ≡ out.old.items ++ used_shown job.now) }
{
    put(out, b", used ")?;
    put_number(out, job.used)?;
    put(out, b" of ")?;
    put_number(out, job.cost)
}

/// What follows on how a job stands: its keys and times, whether it is there early, whether it is non-preemptive, and what it holds.
#[tactic(auto, using(std::proofs::Common::append_assoc, crate::proofs::Writing::nothing_behind))]
pub fn put_job_facts(
    out: &mut Vec<u8>,
    set: &GroupSet,
    job: &JobTimes,
    early: bool,
    non_preemptive: bool,
    held: &[SemNo],
) -> Result<(), NoMemory>
    ensures { OnOk result (out.new.items ≡ out.old.items ++ concat (
        keys_shown job.now ∷ times_shown job.now ∷ used_shown job.now
        ∷ where_so early (codes ", early")
        ∷ where_so non_preemptive (codes ", non-preemptive")
        ∷ holds_piece (group_in set.now) (sem_numbers held.now) ∷ [])) }
{
    put_keys(out, job)?;
    put_times(out, job)?;
    put_used(out, job)?;
    put_where_so(out, early, b", early")?;
    put_where_so(out, non_preemptive, b", non-preemptive")?;
    put_held(out, set, held)
}
