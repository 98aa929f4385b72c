//! Why bytes are no trace.

use rt_base::NoMemory;
use rt_task::{BadSet, SetStop};
use std::alloc::AllocError;
use thiserror::Error;

/// Why no trace was read.
#[derive(Clone, Copy, Debug, PartialEq, Eq, Error)]
pub enum TraceFault {
    /// This line, 1 or 2, is none of a trace's head.
    #[error("not a trace at line {0}")]
    NotTrace(u32),
    /// The set of the second line is refused.
    #[error("{0}")]
    BadSet(BadSet),
    /// Memory ran out.
    #[error("no memory")]
    NoMemory,
}

impl From<SetStop> for TraceFault {
    ghost use Rattle.std.specs.Prelude.{◌≡◌};
    ghost use Rattle.trace_read.specs.Seen.{fault_of};

    ghost from_gives = { λ s e. e ≡ fault_of s };

    fn from(stop: SetStop) -> TraceFault {
        match stop {
            SetStop::Bad(bad) => TraceFault::BadSet(bad),
            SetStop::NoMemory => TraceFault::NoMemory,
        }
    }
}

impl From<NoMemory> for TraceFault {
    ghost use Rattle.std.specs.Prelude.{◌≡◌};
    ghost use Rattle.trace_read.specs.declared.fault.TraceFault.TheVariants as faults;

    ghost from_gives = { λ _ e. e ≡ faults.NoMemory };

    fn from(_e: NoMemory) -> TraceFault {
        TraceFault::NoMemory
    }
}

impl From<AllocError> for TraceFault {
    ghost use Rattle.std.specs.Prelude.{◌≡◌};
    ghost use Rattle.trace_read.specs.declared.fault.TraceFault.TheVariants as faults;

    ghost from_gives = { λ _ e. e ≡ faults.NoMemory };

    fn from(_e: AllocError) -> TraceFault {
        TraceFault::NoMemory
    }
}
