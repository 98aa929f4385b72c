//! A group at a moment, as its lines are written of it.

use rank_afresh::Afresh;
use rt_base::{ResvNo, SemNo, TaskNo, Tick};
use why_lines::GroupSet;

/// A group of a set at a moment: its facts and its clock, and its tasks, the semaphores that these declare, and its reservations, each
/// by rising number.
#[derive(Clone, Copy)]
pub struct State<'a> {
    pub set: GroupSet<'a>,
    pub afresh: &'a Afresh,
    pub clock: Tick,
    pub tasks: &'a [TaskNo],
    pub sems: &'a [SemNo],
    pub resvs: &'a [ResvNo],
}
