//! Keys that plugins share.
ghost use Rattle.std.specs.Prelude.{◌≡◌, ◌+◌, ◌^◌, ◌<◌, ℕ};
ghost use Rattle.plugins.specs.GlobalBoosts as boosts;
ghost use Rattle.plugins.specs.DeadlineKeys as deadlines;

use rt_base::Tick;
use rt_rules::Key;
use rt_task::{Protocol, Task};

/// The band of base keys. Those of boosted holders are above it.
pub const BASE_BAND: u32 = 2;

/// The band of holders that are boosted to the ceiling of their semaphore.
const CEILING_BAND: u32 = 1;

/// The key under EDF of the task's job that is released at `release`: the earlier deadline first, ties to the lower task
/// number.
///
/// Example: the job of task 3 that is released at 20, with 5 ticks to its deadline, has the key (2, 25, 3).
pub fn deadline_key(t: &Task, release: Tick) -> Key
    requires { release.0 + t.now.rel_deadline < 2 ^ 64 }
    ensures { result ≡ deadlines.deadline_key t.now release.0 }
{
    Key {
        band: BASE_BAND,
        major: release.0 + t.rel_deadline,
        minor: t.number.0,
    }
}

/// The key of the task while it holds an MPCP semaphore of this ceiling, a priority number (Rajkumar, ICDCS 1990).
///
/// Example: task 3 has the key (1, 4, 3) under ceiling 4.
pub fn ceiling_key(t: &Task, ceiling: u32) -> Key
    ensures { result ≡ boosts.ceiling_key t.now ceiling }
{
    Key {
        band: CEILING_BAND,
        major: u64::from(ceiling),
        minor: t.number.0,
    }
}

/// The key of the task while it holds a semaphore of this protocol and ceiling: only MPCP boosts.
pub fn global_boost(t: &Task, p: Protocol, ceiling: u32) -> Option<Key>
    ensures { (granted : ℕ) → result ≡ boosts.global_boost t.now p granted ceiling }
{
    match p {
        Protocol::Mpcp => Some(ceiling_key(t, ceiling)),
        Protocol::Fmlp | Protocol::Omlp | Protocol::Pcp | Protocol::Srp => None,
    }
}
