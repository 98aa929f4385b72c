//! C-EDF.
use crate::global::{deadline_key, global_boost};
use rt_base::Tick;
use rt_rules::{Key, Plugin};
use rt_task::{Protocol, Task};

/// C-EDF, LITMUS-RT's clustered EDF: jobs by deadline within each of one or more clusters (Brandenburg, dissertation,
/// University of North Carolina, 2011).
#[derive(Clone, Copy)]
pub struct CEdf;

impl Plugin for CEdf {
    ghost use Rattle.plugins.specs.GlobalBoosts.{global_boost};
    ghost use Rattle.plugins.specs.DeadlineKeys as deadlines;

    ghost base = { λ t release resv_prio. deadlines.deadline_key t release };

    ghost boost = { global_boost };

    fn base_key(&self, t: &Task, release: Tick, _resv_prio: u32) -> Key {
        deadline_key(t, release)
    }

    fn boost_key(&self, t: &Task, p: Protocol, _now: Tick, ceiling: u32) -> Option<Key> {
        global_boost(t, p, ceiling)
    }

    fn fifo_cap(&self, m: u32) -> u32 {
        m
    }
}
