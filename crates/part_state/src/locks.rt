//! What a task holds and waits for.
ghost use Rattle.std.specs.Prelude.{◌≡◌, None, Some};

use rt_base::SemNo;

/// What a task of a partition holds and what it waits for.
#[derive(Clone, Copy)]
pub struct TaskLock {
    pub holds: Option<SemNo>,
    pub waits: Option<SemNo>,
    /// The clock at which it last began to hold one.
    pub since: u64,
}

impl TaskLock {
    /// A task that has asked for nothing.
    pub(crate) const NONE: TaskLock = TaskLock {
        holds: None,
        waits: None,
        since: 0,
    };

    /// It asked for the semaphore at this clock, and got it.
    pub(crate) fn began(self, sem: SemNo, clock: u64) -> TaskLock
        ensures { result ≡ record self { holds = Some sem; since = clock } }
    {
        TaskLock {
            holds: Some(sem),
            waits: self.waits,
            since: clock,
        }
    }

    /// It asked for the semaphore, and waits for it.
    pub(crate) fn queued(self, sem: SemNo) -> TaskLock
        ensures { result ≡ record self { waits = Some sem } }
    {
        TaskLock {
            waits: Some(sem),
            ..self
        }
    }

    /// It was granted the semaphore that it waited for, at this clock.
    pub(crate) fn granted(self, sem: SemNo, clock: u64) -> TaskLock
        ensures { result ≡ record { holds = Some sem; waits = None; since = clock } }
    {
        TaskLock {
            holds: Some(sem),
            waits: None,
            since: clock,
        }
    }

    /// It freed what it held.
    pub(crate) fn freed(self) -> TaskLock
        ensures { result ≡ record self { holds = None } }
    {
        TaskLock {
            holds: None,
            ..self
        }
    }
}
