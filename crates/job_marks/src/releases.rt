//! Releases, and whether a job was not over by its deadline.
ghost use Rattle.std.specs.Prelude.{◌≡◌, ◌^◌, ◌<◌, ◌≤◌, IfSome};
ghost use Rattle.rt_base.specs.declared.TheConstants.{MOST_STEPS};
ghost use Rattle.rt_model.specs.Releases.{has_come};
ghost use Rattle.job_facts.specs.Rows as rows;
ghost use Rattle.job_marks.specs.inside.Marks.{IsEarly, is_missed_by};

use rt_task::{Kind, Task};

/// The release of the job behind so many others, of a task with these arrivals, where it is known.
pub(crate) fn release_at(task: &Task, arrivals: &[u64], before: u32) -> Option<u64>
    requires early { IsEarly task.now arrivals.now }
    requires few { before ≤ MOST_STEPS }
    ensures release { result ≡ rows.release_at task.now.kind task.now arrivals.now before }
    ensures low { IfSome result (λ n. n < 2 ^ 60) }
{
    match task.kind {
        Kind::Periodic => Some(task.phase + u64::from(before) * task.period),
        Kind::Sporadic => arrivals.get(before as usize).copied(),
    }
}

fn has_come(clock: u64, release: Option<u64>) -> bool
    ensures { result ≡ has_come clock release }
{
    match release {
        Some(release) => release <= clock,
        None => false,
    }
}

/// Whether the job behind so many that ended is there.
pub(crate) fn is_there(task: &Task, arrivals: &[u64], ended: u32, clock: u64) -> bool
    requires early { IsEarly task.now arrivals.now }
    requires few { ended ≤ MOST_STEPS }
    ensures { result ≡ rows.is_there task.now arrivals.now ended clock }
{
    let is_released = has_come(clock, release_at(task, arrivals, ended));
    is_released || (task.early && ended > 0)
}

/// Whether a job with this end was not over by its deadline, at a clock.
pub(crate) fn is_missed(end: Option<u64>, deadline: u64, clock: u64) -> bool
    ensures { result ≡ is_missed_by end deadline clock }
{
    match end {
        Some(end) => deadline < end,
        None => deadline < clock,
    }
}
