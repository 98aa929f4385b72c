//! Where threads meet before they begin.
use std::sync::atomic::{AtomicU64, Ordering};
use std::thread;

/// How often a thread looks whether the others have come.
const MOST_LOOKS: u32 = 20_000;

/// More than the number of threads that can meet.
const CALLED_OFF: u64 = 1 << 32;

/// A point at which `all` threads meet. `there` counts those that have come; once the barrier is called off it is
/// `CALLED_OFF`, which is far more.
#[derive(Drop)]
pub(crate) struct StartBarrier {
    all: u64,
    there: AtomicU64,
}

impl StartBarrier {
    pub(crate) fn of(all: u32) -> StartBarrier {
        StartBarrier {
            all: u64::from(all),
            there: AtomicU64::new(0),
        }
    }

    /// Whether all threads come. The first one that has waited long calls it off for all, so that each hears the same:
    /// a thread that cannot be started never comes.
    pub(crate) fn is_met(&self) -> bool {
        self.there.fetch_add(1, Ordering::SeqCst);
        // Calling off fails only where another one has come or called off, so the second half is never used up.
        for look in 0..2 * MOST_LOOKS {
            let there = self.there.load(Ordering::SeqCst);
            if there >= self.all {
                return there < CALLED_OFF;
            }
            if look >= MOST_LOOKS && self.calls_off(there) {
                return false;
            }
            thread::yield_now();
        }
        false
    }

    /// Calls the barrier off, where exactly `there` threads have come.
    fn calls_off(&self, there: u64) -> bool {
        self.there
            .compare_exchange(there, CALLED_OFF, Ordering::SeqCst, Ordering::SeqCst)
            .is_ok()
    }
}
