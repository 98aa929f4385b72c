//! The set that a run plays.
ghost use Rattle.std.specs.Prelude.{IfOk};
ghost use Rattle.rt_base.specs.declared.TheConstants.{MOST_SET_BYTES};
ghost use Rattle.set_input.specs.Ends.{reading};
ghost use Rattle.set_input.specs.Inputs.{WasRead, WasRefused};
ghost use Rattle.set_input.specs.Stopped.{EndsReading};

use rt_base::MOST_SET_BYTES;
use rt_fault::{Source, Status, read_all};
use rt_task::Setup;
use set_read::read_set;
use std::alloc::Global;

/// The C library unmaps a long block that is freed, and its next one is of pages that are touched anew, until it has freed a
/// longer one: from then on it keeps what is freed. This many bytes are taken for that, freed, and never touched.
const KEPT_WHERE_FREED: usize = 31 << 20;

/// Reads a valid set to its end.
pub fn read_input<S: Source>(alloc: Global, src: &mut S) -> Result<Setup, Status>
    ensures ok { IfOk result (λ s. WasRead (reading S.left S.faults src.old src.new) s) }
    ensures ends { let source = reading S.left S.faults src.old src.new in
        EndsReading source MOST_SET_BYTES (WasRefused source) result }
{
    let bytes = read_all(alloc, src, MOST_SET_BYTES)?;
    drop(Vec::<u8>::with_capacity(alloc, KEPT_WHERE_FREED));
    let setup = read_set(alloc, bytes.as_slice())?;
    // A proof knows that a setup is valid once its parts are read.
    let _parts = setup.parts();
    Ok(setup)
}
