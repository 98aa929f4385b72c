//! Keys under partitioned plugins.
ghost use Rattle.std.specs.Prelude.{◌≡◌};
ghost use Rattle.plugins.specs.PartitionedBoosts as boosts;
ghost use Rattle.plugins.specs.PriorityKeys as priorities;
ghost use Rattle.plugins.specs.ReservationKeys as reservations;

use crate::global::{BASE_BAND, ceiling_key};
use rt_base::Tick;
use rt_rules::Key;
use rt_task::{Protocol, Task};

/// The band of holders that are boosted by the clock of their grant.
const GRANT_BAND: u32 = 0;

/// The key of each job of the task under fixed priorities: the smaller priority number first, ties to the lower task
/// number.
///
/// Example: task 3 of priority number 7 has the key (2, 7, 3).
pub fn priority_key(t: &Task) -> Key
    ensures { result ≡ priorities.priority_key t.now }
{
    Key {
        band: BASE_BAND,
        major: u64::from(t.prio),
        minor: t.number.0,
    }
}

/// The key of each job of the task under reservations, where the task's reservation has this priority: the smaller
/// priority number first, ties to the lower number of the reservation.
///
/// Example: a client of reservation 2, whose priority number is 7, has the key (2, 7, 2).
pub fn reservation_key(t: &Task, resv_prio: u32) -> Key
    ensures { result ≡ reservations.reservation_key t.now resv_prio }
{
    Key {
        band: BASE_BAND,
        major: u64::from(resv_prio),
        minor: match t.resv {
            None => 0,
            Some(resv) => resv.0,
        },
    }
}

/// The key of the task while it holds an FMLP semaphore that it was granted at `now`: the earlier grant first, ties to the
/// lower task number. That FMLP holders are boosted, and in this order, is this project's choice.
///
/// Example: task 3 that was granted its semaphore at 21 has the key (0, 21, 3).
pub fn grant_key(t: &Task, now: Tick) -> Key
    ensures { result ≡ boosts.grant_key t.now now.0 }
{
    Key {
        band: GRANT_BAND,
        major: now.0,
        minor: t.number.0,
    }
}

/// The key of the task while it holds a semaphore of this protocol and ceiling that it was granted at `now`: FMLP and MPCP
/// boost.
pub(crate) fn partitioned_boost(t: &Task, p: Protocol, now: Tick, ceiling: u32) -> Option<Key>
    ensures { result ≡ boosts.partitioned_boost t.now p now.0 ceiling }
{
    match p {
        Protocol::Fmlp => Some(grant_key(t, now)),
        Protocol::Mpcp => Some(ceiling_key(t, ceiling)),
        Protocol::Omlp | Protocol::Pcp | Protocol::Srp => None,
    }
}
