//! The greatest counts of the requests of a task.
ghost use Rattle.std.specs.Prelude.{◌≡◌};
ghost use Rattle.block_counts.specs.SeenWords.{tallies_of};
ghost use Rattle.job_facts.specs.Sums as sums;

use block_counts::Seen;
use rt_base::TaskNo;

/// The most critical sections that one of them saw end while it was priority-blocked.
pub(crate) fn most_ends(task: TaskNo, requests: &[Seen]) -> u32
    ensures { result ≡ sums.most_ends task.0 (tallies_of requests.now) }
{
    let mut most = 0;
    for seen in requests {
        if seen.task == task {
            most = seen.ends.max(most);
        }
    }
    most
}

/// The most that one of them saw end in all.
pub(crate) fn most_ends_all(task: TaskNo, requests: &[Seen]) -> u32
    ensures { result ≡ sums.most_ends_all task.0 (tallies_of requests.now) }
{
    let mut most = 0;
    for seen in requests {
        if seen.task == task {
            most = seen.ends_all.max(most);
        }
    }
    most
}
