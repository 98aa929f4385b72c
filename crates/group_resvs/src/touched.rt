//! The reservations that a move touches.
ghost use Rattle.std.specs.Prelude.{◌≡◌};
ghost use Rattle.group_resvs.specs.Touched.{touched_also};

use rt_base::ResvNo;

/// The reservations that may have changed since the last move ended.
#[derive(Clone, Copy)]
pub(crate) enum Touched {
    Nothing,
    One(ResvNo),
    Many,
}

impl Touched {
    /// Those, and this reservation.
    pub(crate) fn also(self, r: ResvNo) -> Touched
        ensures { result ≡ touched_also r self }
    {
        match self {
            Touched::Nothing => Touched::One(r),
            Touched::One(other) if other == r => self,
            _ => Touched::Many,
        }
    }
}
