//! P-RES.
use crate::global::global_boost;
use crate::partitioned::reservation_key;
use rt_base::Tick;
use rt_rules::{Key, Plugin};
use rt_task::{Protocol, Task};

/// P-RES, LITMUS-RT's partitioned reservations: jobs by the priority of the reservation that serves their task on each
/// processor. It has no semaphores.
#[derive(Clone, Copy)]
pub struct PRes;

impl Plugin for PRes {
    ghost use Rattle.plugins.specs.GlobalBoosts.{global_boost};
    ghost use Rattle.plugins.specs.ReservationKeys as reservations;

    ghost base = { λ t release resv_prio. reservations.reservation_key t resv_prio };

    ghost boost = { global_boost };

    fn base_key(&self, t: &Task, _release: Tick, resv_prio: u32) -> Key {
        reservation_key(t, resv_prio)
    }

    fn boost_key(&self, t: &Task, p: Protocol, _now: Tick, ceiling: u32) -> Option<Key> {
        global_boost(t, p, ceiling)
    }

    fn fifo_cap(&self, m: u32) -> u32 {
        m
    }
}
