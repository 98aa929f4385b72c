//! What is shown of a reservation.
ghost use Rattle.std.specs.Prelude.{◌≡◌, IfNone, IfSome, false, option_map};
ghost use Rattle.rt_base.specs.declared.Tick as ticks;
ghost use Rattle.resv_core.specs.Served.{IsFront, IsResv, has_ready, last_of, left_of, server};

use crate::GroupResvs;
use resv_core::ResvState;
use rt_base::{ResvNo, TaskNo};

impl GroupResvs {
    /// What is left of the reservation's budget.
    pub fn left(&self, resv: ResvNo) -> u64
        requires { IsResv self.now.resvs resv.0 }
        ensures { result ≡ left_of (server self.now.resvs resv.0) }
    {
        self.resvs.budget(resv)
    }

    /// What is left of the reservation's budget, and its last replenishment.
    pub fn state(&self, resv: ResvNo) -> ResvState
        requires { IsResv self.now.resvs resv.0 }
        ensures last { option_map (λ (t : ticks.Tick). t.0) result.last
            ≡ last_of (server self.now.resvs resv.0) }
        ensures left { result.left ≡ left_of (server self.now.resvs resv.0) }
    {
        self.resvs.state(resv)
    }

    /// The reservation's front client: the ready client of the earliest release, and of several that of the lowest number.
    pub fn front(&self, resv: ResvNo) -> Option<TaskNo>
        requires { IsResv self.now.resvs resv.0 }
        ensures front { IfSome result
            (λ task. IsFront (server self.now.resvs resv.0).releases task.0) }
        ensures none { IfNone result
            (has_ready (server self.now.resvs resv.0).releases ≡ false) }
    {
        self.resvs.front(resv)
    }
}
