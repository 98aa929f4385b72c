//! How many jobs of a task are released, and how many are due.
ghost use Rattle.std.specs.Prelude.{◌≡◌, ◌<◌, count_by, nat_le};
ghost use Rattle.rt_base.specs.declared.TheConstants.{TICK_END};
ghost use Rattle.job_facts.specs.Sums as sums;

use rt_task::{Kind, Task};

/// How many of these arrivals there were by the clock.
fn arrived_by(arrivals: &[u64], clock: u64) -> u64
    ensures { result ≡ count_by (λ r. nat_le r clock) arrivals.now }
{
    let mut count = 0;
    for arrival in arrivals {
        if *arrival <= clock {
            count += 1;
        }
    }
    count
}

/// How many jobs of a task with these arrivals are released by the clock.
pub(crate) fn released_in(task: &Task, arrivals: &[u64], clock: u64) -> u64
    requires period { 0 < task.now.period }
    requires clock { clock < TICK_END }
    ensures { result ≡ sums.released_in task.now.kind task.now arrivals.now clock }
{
    match task.kind {
        Kind::Periodic if task.phase <= clock => (clock - task.phase) / task.period + 1,
        Kind::Periodic => 0,
        Kind::Sporadic => arrived_by(arrivals, clock),
    }
}

/// How many of these have their deadline before the clock.
pub(crate) fn due_in(task: &Task, arrivals: &[u64], clock: u64) -> u64
    requires period { 0 < task.now.period }
    requires clock { clock < TICK_END }
    ensures { result ≡ sums.due_in task.now arrivals.now clock }
{
    if task.rel_deadline < clock {
        released_in(task, arrivals, clock - (task.rel_deadline + 1))
    } else {
        0
    }
}
