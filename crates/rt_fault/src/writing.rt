//! Writing a whole text.
ghost use Rattle.std.specs.Prelude.{◌≡◌, ◌≤◌, OnOk, OnErr};
ghost use Rattle.rt_fault.specs.Faults.{HasRisen};
ghost use Rattle.rt_fault.specs.Held.{Extends, ExtendsByPrefix};

use crate::{Failed, Sink};

/// Writes all of `bytes`. It takes no memory.
///
/// Where a write fails, a first part of `bytes` was written. With no bytes nothing is asked of the sink.
#[inline(always)]
pub fn put_all<K: Sink>(out: &mut K, bytes: &[u8]) -> Result<(), Failed>
    ensures ok { OnOk result (Extends (K.held out.old) (K.held out.new) bytes.now) }
    ensures failed { OnErr result (ExtendsByPrefix (K.held out.old) (K.held out.new) bytes.now) }
    ensures fault { OnErr result (HasRisen (K.faults out.old) (K.faults out.new)) }
    ensures unfailed { OnOk result (K.faults out.new ≡ K.faults out.old) }
    ensures counted { K.faults out.old ≤ K.faults out.new }
{
    let mut rest = bytes;
    while !rest.is_empty() {
        let taken = out.write(rest)?;
        rest = &rest[taken..];
    }
    Ok(())
}
