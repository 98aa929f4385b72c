//! Releases, and times between clocks.
ghost use Rattle.std.specs.Prelude.{◌≡◌, ◌^◌, ◌<◌, ◌≤◌, IfSome};
ghost use Rattle.rt_base.specs.declared.TheConstants.{MOST_STEPS};
ghost use Rattle.rt_model.specs.Releases.{has_come};
ghost use Rattle.trace_views.specs.JobTimes as times;
ghost use Rattle.job_facts.specs.Rows as rows;
ghost use Rattle.job_views.specs.RowsShown.{outcome_shown};
ghost use Rattle.job_views.specs.inside.Times.{IsEarly, IsLow};

use crate::row::Outcome;
use rt_task::{Kind, Task};

/// The release of the job behind so many others, of a task with these arrivals, where it is known.
pub(crate) fn release_at(task: &Task, arrivals: &[u64], before: u32) -> Option<u64>
    requires early { IsEarly task.now arrivals.now }
    requires few { before ≤ MOST_STEPS }
    ensures release { result ≡ rows.release_at task.now.kind task.now arrivals.now before }
    ensures low { IfSome result (λ n. n < 2 ^ 60) }
{
    match task.kind {
        Kind::Periodic => Some(task.phase + u64::from(before) * task.period),
        Kind::Sporadic => arrivals.get(before as usize).copied(),
    }
}

fn has_come(clock: u64, release: Option<u64>) -> bool
    ensures { result ≡ has_come clock release }
{
    match release {
        Some(release) => release <= clock,
        None => false,
    }
}

/// Whether the job behind so many that ended is there.
pub(crate) fn is_there(task: &Task, arrivals: &[u64], ended: u32, clock: u64) -> bool
    requires early { IsEarly task.now arrivals.now }
    requires few { ended ≤ MOST_STEPS }
    ensures { result ≡ rows.is_there task.now arrivals.now ended clock }
{
    let is_released = has_come(clock, release_at(task, arrivals, ended));
    is_released || (task.early && ended > 0)
}

/// How a job came out, at a clock.
pub(crate) fn outcome(end: Option<u64>, deadline: u64, clock: u64) -> Outcome
    ensures { outcome_shown result ≡ times.outcome_by end deadline clock }
{
    match end {
        Some(end) if deadline < end => Outcome::Late,
        Some(_) => Outcome::Kept,
        None if deadline < clock => Outcome::Missed,
        None => Outcome::Open,
    }
}

/// When a job is finished that has ended: behind its last unit, and without a unit at its end.
pub(crate) fn finish(unit: Option<u64>, end: Option<u64>) -> Option<u64>
    requires unit { IsLow unit }
    requires end { IsLow end }
    ensures finish { result ≡ times.finish_by unit end }
    ensures low { IfSome result (λ n. n < 2 ^ 60) }
{
    match (unit, end) {
        (Some(unit), Some(_)) => Some(unit + 1),
        (None, Some(end)) => Some(end),
        (_, None) => None,
    }
}

/// From one clock to another, below 0 where that is earlier.
pub(crate) fn time_to(from: u64, to: Option<u64>) -> Option<i64>
    requires from { from < 2 ^ 62 }
    requires to { IfSome to (λ n. n < 2 ^ 60) }
    ensures { result ≡ times.time_to from to }
{
    match to {
        Some(to) => Some(to as i64 - from as i64),
        None => None,
    }
}
