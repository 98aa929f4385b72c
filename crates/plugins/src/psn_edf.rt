//! PSN-EDF.
use crate::global::deadline_key;
use crate::partitioned::partitioned_boost;
use rt_base::Tick;
use rt_rules::{Key, Plugin};
use rt_task::{Protocol, Task};

/// PSN-EDF, LITMUS-RT's partitioned EDF: jobs by deadline on each processor (Brandenburg, dissertation, University of North
/// Carolina, 2011).
#[derive(Clone, Copy)]
pub struct PsnEdf;

impl Plugin for PsnEdf {
    ghost use Rattle.plugins.specs.DeadlineKeys as deadlines;
    ghost use Rattle.plugins.specs.PartitionedBoosts.{partitioned_boost};

    ghost base = { λ t release resv_prio. deadlines.deadline_key t release };

    ghost boost = { partitioned_boost };

    fn base_key(&self, t: &Task, release: Tick, _resv_prio: u32) -> Key {
        deadline_key(t, release)
    }

    fn boost_key(&self, t: &Task, p: Protocol, now: Tick, ceiling: u32) -> Option<Key> {
        partitioned_boost(t, p, now, ceiling)
    }

    fn fifo_cap(&self, m: u32) -> u32 {
        m
    }
}
