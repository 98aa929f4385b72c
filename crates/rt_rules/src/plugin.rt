//! What a scheduling plugin makes of priorities.
ghost use Rattle.std.specs.Prelude.{◌≡◌, ◌+◌, ◌^◌, ◌<◌};

use crate::Key;
use rt_base::Tick;
use rt_task::{Protocol, Task};

/// A scheduling plugin's keys: of jobs, and of tasks whose priority a held semaphore boosts.
pub trait Plugin {
    ghost use Rattle.std.specs.Prelude.{ℕ, Option};
    ghost use Rattle.rt_rules.specs.declared.Key.{Key};
    ghost use Rattle.rt_task.specs.declared.Protocol.{Protocol};
    ghost use Rattle.rt_task.specs.declared.Task.{Task};

    /// The key of the task's job of this release, where its reservation has this priority.
    ghost base: { Task → ℕ → ℕ → Key };

    /// The key of a holder under this protocol, from the clock of the grant and the semaphore's ceiling, if it has one.
    ghost boost: { Task → Protocol → ℕ → ℕ → Option Key };

    /// The base key of a job of the task that is released at `release`; `resv_prio` is the priority of the task's
    /// reservation, and 0 where it has none.
    fn base_key(&self, t: &Task, release: Tick, resv_prio: u32) -> Key
        requires { release.0 + t.now.rel_deadline < 2 ^ 64 }
        ensures { result ≡ base t.now release.0 resv_prio };

    /// The key of the task while it holds a semaphore of this protocol that it was granted at `now`, and that has this
    /// ceiling as a priority number; none where the plugin does not boost holders under the protocol.
    fn boost_key(&self, t: &Task, p: Protocol, now: Tick, ceiling: u32) -> Option<Key>
        ensures { result ≡ boost t.now p now.0 ceiling };

    /// How many requests the first-in first-out part of an OMLP semaphore has room for, in a cluster of `m` processors.
    fn fifo_cap(&self, m: u32) -> u32
        ensures { result ≡ m };
}
