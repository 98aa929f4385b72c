//! The refusals of an input.
ghost use Rattle.std.specs.Prelude.{◌≡◌};
ghost use Rattle.rt_task.specs.Refusals as refusals;

use rt_fault::Status;
use rt_task::{BadSet, Part, Place, SetKind};

/// The input is refused for this reason, at this place.
pub fn refused(kind: SetKind, part: Part, index: u32) -> Status
    ensures { result ≡ Status.BadInput (refusals.bad kind part index) }
{
    let place = Place { part, index };
    Status::BadInput(BadSet { kind, place })
}
