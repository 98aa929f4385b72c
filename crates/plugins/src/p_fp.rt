//! P-FP.
use crate::partitioned::{partitioned_boost, priority_key};
use rt_base::Tick;
use rt_rules::{Key, Plugin};
use rt_task::{Protocol, Task};

/// P-FP, LITMUS-RT's partitioned fixed priorities: jobs by the priority of their task on each processor (Brandenburg,
/// dissertation, University of North Carolina, 2011).
#[derive(Clone, Copy)]
pub struct PFp;

impl Plugin for PFp {
    ghost use Rattle.plugins.specs.PartitionedBoosts.{partitioned_boost};
    ghost use Rattle.plugins.specs.PriorityKeys as priorities;

    ghost base = { λ t release resv_prio. priorities.priority_key t };

    ghost boost = { partitioned_boost };

    fn base_key(&self, t: &Task, _release: Tick, _resv_prio: u32) -> Key {
        priority_key(t)
    }

    fn boost_key(&self, t: &Task, p: Protocol, now: Tick, ceiling: u32) -> Option<Key> {
        partitioned_boost(t, p, now, ceiling)
    }

    fn fifo_cap(&self, m: u32) -> u32 {
        m
    }
}
