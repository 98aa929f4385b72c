//! Why a trace was not written.

use rt_base::NoMemory;
use rt_fault::Failed;
use std::alloc::AllocError;
use thiserror::Error;

/// Why a trace was not written to its end.
#[derive(Clone, Copy, Debug, PartialEq, Eq, Error)]
pub enum WriteStop {
    /// A write failed.
    #[error("writing failed")]
    Fault,
    /// Memory ran out.
    #[error("memory ran out")]
    NoMemory,
}

impl From<Failed> for WriteStop {
    ghost use Rattle.std.specs.Prelude.{◌≡◌};
    ghost use Rattle.trace_writer.specs.declared.stop.WriteStop.TheVariants.{Fault};

    ghost from_gives = { λ _ e. e ≡ Fault };

    fn from(_e: Failed) -> WriteStop {
        WriteStop::Fault
    }
}

impl From<NoMemory> for WriteStop {
    ghost use Rattle.std.specs.Prelude.{◌≡◌};
    ghost use Rattle.trace_writer.specs.declared.stop.WriteStop.TheVariants as stops;

    ghost from_gives = { λ _ e. e ≡ stops.NoMemory };

    fn from(_e: NoMemory) -> WriteStop {
        WriteStop::NoMemory
    }
}

impl From<AllocError> for WriteStop {
    ghost use Rattle.std.specs.Prelude.{◌≡◌};
    ghost use Rattle.trace_writer.specs.declared.stop.WriteStop.TheVariants as stops;

    ghost from_gives = { λ _ e. e ≡ stops.NoMemory };

    fn from(_e: AllocError) -> WriteStop {
        WriteStop::NoMemory
    }
}
