//! Numbers of tasks, semaphores, reservations, processors, clusters and groups, ticks, and the limits of a set.
#![tactic(auto)]

use std::alloc::{AllocError, AllocFailed};

/// A task, by its position in the set, from 1.
#[derive(Clone, Copy, Debug, PartialEq, Eq, PartialOrd, Ord)]
pub struct TaskNo(pub u32);

/// A semaphore, by its position in the set, from 1.
#[derive(Clone, Copy, Debug, PartialEq, Eq, PartialOrd, Ord)]
pub struct SemNo(pub u32);

/// A reservation, by its position in the set, from 1.
#[derive(Clone, Copy, Debug, PartialEq, Eq, PartialOrd, Ord)]
pub struct ResvNo(pub u32);

/// A processor, from 0; processors are numbered through the clusters in order.
#[derive(Clone, Copy, Debug, PartialEq, Eq, PartialOrd, Ord)]
pub struct CpuNo(pub u32);

/// A cluster, by its position in the set, from 0.
#[derive(Clone, Copy, Debug, PartialEq, Eq, PartialOrd, Ord)]
pub struct ClusterNo(pub u32);

/// A group of clusters, from 0. Groups share nothing.
#[derive(Clone, Copy, Debug, PartialEq, Eq, PartialOrd, Ord)]
pub struct GroupNo(pub u32);

/// A moment or a duration, in ticks.
#[derive(Clone, Copy, Debug, PartialEq, Eq, PartialOrd, Ord)]
pub struct Tick(pub u64);

/// What a request for a semaphore is answered.
#[derive(Clone, Copy, Debug, PartialEq, Eq)]
pub enum Ask {
    /// The task now holds the semaphore.
    Granted,
    /// The task waits.
    Queued,
}

/// Memory ran out.
#[derive(Clone, Copy, Debug, PartialEq, Eq)]
pub struct NoMemory;

impl From<AllocError> for NoMemory {
    fn from(_e: AllocError) -> NoMemory {
        NoMemory
    }
}

impl<T: Drop> From<AllocFailed<T>> for NoMemory {
    fn from(_e: AllocFailed<T>) -> NoMemory {
        NoMemory
    }
}

/// The most clusters of a set.
pub const MOST_CLUSTERS: u32 = 64;

/// The most processors of a set, in all its clusters together.
pub const MOST_CPUS: u32 = 64;

/// The most tasks of a set.
pub const MOST_TASKS: u32 = 1024;

/// The most semaphores of a set.
pub const MOST_SEMS: u32 = 256;

/// The most reservations of a set.
pub const MOST_RESVS: u32 = 64;

/// The most slots of a table reservation.
pub const MOST_SLOTS: u32 = 64;

/// The most steps of a set, in all its groups together.
pub const MOST_STEPS: u32 = 1_000_000;

/// Ticks and durations are below this.
pub const TICK_END: u64 = 1_000_000_000_000;

/// Priorities are from 1, the highest, to this.
pub const MOST_PRIO: u32 = 511;

/// The most PCP semaphores that a job holds at once.
pub const MOST_HELD: u32 = 8;

/// The most bytes of a name.
pub const MOST_NAME_BYTES: u32 = 32;

/// The most operations of a body, each unit of work counted.
pub const MOST_OPERATIONS: u32 = 1000;

/// The most acts of a processor in a turn of a body run, besides its tick and its first interrupt.
pub const MOST_TURN_ACTS: u32 = 16;

/// The most steps of a processor in a turn of a body run: its tick, its first interrupt, and its acts.
pub const MOST_TURN_STEPS: u32 = MOST_TURN_ACTS + 2;

/// The most values of a count line.
pub const MOST_TOTALS: u32 = 64;

/// The most bytes of a set document.
pub const MOST_SET_BYTES: u64 = 16_777_216;

/// The most bytes of a trace that is checked.
pub const MOST_TRACE_BYTES: u64 = 67_108_864;
