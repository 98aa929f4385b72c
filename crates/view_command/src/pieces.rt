//! Writing a text that is in pieces.
ghost use Rattle.std.specs.Prelude.{◌≡◌, ◌≤◌, OnOk, OnErr};
ghost use Rattle.rt_fault.specs.Faults.{HasRisen};
ghost use Rattle.rt_fault.specs.Held.{Extends, ExtendsByPrefix};
ghost use Rattle.event_lines.specs.WholeText.{whole_text};

use rt_fault::{Failed, Sink, put_all};

/// Writes all pieces of a text, one behind the other. It takes no memory.
///
/// Where a write fails, a first part of the text was written.
pub(crate) fn put_pieces<K: Sink>(out: &mut K, pieces: &[Vec<u8>]) -> Result<(), Failed>
    ensures ok { OnOk result (Extends (K.held out.old) (K.held out.new) (whole_text pieces.now)) }
    ensures failed { OnErr result
        (ExtendsByPrefix (K.held out.old) (K.held out.new) (whole_text pieces.now)) }
    ensures fault { OnErr result (HasRisen (K.faults out.old) (K.faults out.new)) }
    ensures unfailed { OnOk result (K.faults out.new ≡ K.faults out.old) }
    ensures counted { K.faults out.old ≤ K.faults out.new }
{
    for piece in pieces {
        put_all(out, piece.as_slice())?;
    }
    Ok(())
}
