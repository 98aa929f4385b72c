//! A set before its rules are tried: numbers have 64 bits, bodies stand in pieces, a name that is
//! unknown stands as number 0.
use crate::{Act, Items, Kind, Name, Op, PluginKind, ResvKind, SemList, SemNos, Slots};
use rt_base::{ResvNo, TaskNo};

/// A part of a body.
#[derive(Clone, Copy, PartialEq, Eq)]
pub enum Piece {
    /// This number of units of work, one a tick.
    Works(u64),
    /// One operation.
    Once(Op),
}

/// The pieces of a body, in order.
pub type Pieces = Items<Piece>;

/// A cluster; its group is a number from 0.
#[derive(Clone, Copy, PartialEq, Eq)]
pub struct DraftCluster {
    pub cpus: u64,
    pub group: u64,
}

/// A reservation; its cluster is a number from 0, its budget is in units of work, its period in ticks.
#[derive(Drop)]
pub struct DraftResv {
    pub name: Name,
    pub cluster: u64,
    pub kind: ResvKind,
    pub budget: u64,
    pub period: u64,
    pub prio: u64,
    pub slots: Slots,
}

/// A task with its body in pieces; its cluster is a number from 0, durations are in ticks.
#[derive(Drop)]
pub struct DraftTask {
    pub number: TaskNo,
    pub name: Name,
    pub cluster: u64,
    pub cost: u64,
    pub period: u64,
    pub rel_deadline: u64,
    pub phase: u64,
    pub kind: Kind,
    pub prio: u64,
    pub enforce: bool,
    pub uses: SemNos,
    pub resv: Option<ResvNo>,
    pub pieces: Pieces,
    pub early: bool,
}

/// A step of a processor, which is a number from 0, at a tick.
#[derive(Clone, Copy, PartialEq, Eq)]
pub struct DraftStep {
    pub cpu: u64,
    pub tick: u64,
    pub act: Act,
}

/// Clusters, numbered from 0.
pub type DraftClusters = Items<DraftCluster>;

/// Reservations, numbered from 1.
pub type DraftResvs = Items<DraftResv>;

/// Tasks, numbered from 1.
pub type DraftTasks = Items<DraftTask>;

/// Steps, in order.
pub type DraftSteps = Items<DraftStep>;

/// What a draft runs by.
#[derive(Drop)]
pub enum DraftDrive {
    /// These steps.
    Steps(DraftSteps),
    /// The bodies of the tasks, played for this number of ticks.
    Horizon(u64),
}

/// A set before its rules are tried.
#[derive(Drop)]
pub struct Draft {
    pub plugin: PluginKind,
    pub clusters: DraftClusters,
    pub sems: SemList,
    pub resvs: DraftResvs,
    pub tasks: DraftTasks,
    pub drive: DraftDrive,
}
