//! What takes bytes.
ghost use Rattle.std.specs.Prelude.{◌≡◌, ℕ, ◌<◌, ◌≤◌, length, take, IfOk, OnOk, OnErr};
ghost use Rattle.rt_fault.specs.Faults.{HasRisen};
ghost use Rattle.rt_fault.specs.Held.{Held, Extends, Stays};

use crate::Failed;

/// What takes bytes, piece by piece, and counts its faults.
///
/// Its meanings are `held`, what the sink tells of the bytes that it holds, and `faults`, a number that never falls.
pub trait Sink {
    ghost held: { Self → Held };

    ghost faults: { Self → ℕ };

    /// Takes a first part of `bytes`, of one byte at least, and answers its length.
    ///
    /// It fails exactly where `faults` rose in this call, and then takes no byte.
    fn write(&mut self, bytes: &[u8]) -> Result<usize, Failed>
        requires { 0 < length bytes.now }
        ensures some { IfOk result (λ n. 0 < n) }
        ensures bound { IfOk result (λ n. n ≤ length bytes.now) }
        ensures taken { IfOk result (λ n.
            Extends (held self.old) (held self.new) (take n bytes.now)) }
        ensures kept { OnErr result (Stays (held self.old) (held self.new)) }
        ensures fault { OnErr result (HasRisen (faults self.old) (faults self.new)) }
        ensures unfailed { OnOk result (faults self.new ≡ faults self.old) }
        ensures counted { faults self.old ≤ faults self.new };
}
