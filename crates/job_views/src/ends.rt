//! What the requests of a job saw end.
ghost use Rattle.std.specs.Prelude.{◌≡◌, ◌<◌, ◌≤◌, All, length};
ghost use Rattle.rt_base.specs.declared.TheConstants.{MOST_STEPS};
ghost use Rattle.block_counts.specs.SeenWords.{tallies_of};
ghost use Rattle.job_facts.specs.Rows as rows;

use block_counts::Seen;

/// How many critical sections the requests in these positions saw end while they were priority-blocked.
pub(crate) fn ends_in(requests: &[Seen], positions: &[u32]) -> u64
    requires few { length positions.now ≤ MOST_STEPS }
    requires placed { All (λ i. i < length requests.now) positions.now }
    ensures { result ≡ rows.ends_in (tallies_of requests.now) positions.now }
{
    let mut ends = 0;
    for position in positions {
        ends += u64::from(requests[*position as usize].ends);
    }
    ends
}

/// How many these saw end in all.
pub(crate) fn ends_all_in(requests: &[Seen], positions: &[u32]) -> u64
    requires few { length positions.now ≤ MOST_STEPS }
    requires placed { All (λ i. i < length requests.now) positions.now }
    ensures { result ≡ rows.ends_all_in (tallies_of requests.now) positions.now }
{
    let mut ends = 0;
    for position in positions {
        ends += u64::from(requests[*position as usize].ends_all);
    }
    ends
}
