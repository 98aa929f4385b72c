//! What the history of a semaphore is about.
use rt_base::SemNo;
use std::collections::LinkedList;

/// Who is next at a release.
#[derive(Clone, Copy, Debug, PartialEq, Eq)]
pub enum SemRule {
    /// The task that waits longest.
    Fmlp,
    /// The waiting task of the highest priority.
    Mpcp,
}

/// What a semaphore's history is about. No value of it is made.
pub struct SemOf {
    pub sem: SemNo,
    pub rule: SemRule,
    /// The processor of each task, by its number.
    pub homes: LinkedList<u32>,
    /// The priority of each task, by its number; the smaller is the higher.
    pub prios: LinkedList<u32>,
    /// How many entries each processor may make, by its number.
    pub quotas: LinkedList<u32>,
}
