//! What a split run has come to.
ghost use Rattle.std.specs.Prelude.{◌≡◌, map};

use split_rules::{SemEntry, SplitEntry};
use std::marker::Model;

/// The histories of all semaphores, by rising number from 1. Contracts see them as lists.
#[derive(Drop)]
pub struct SemHistories {
    lists: Vec<Vec<SemEntry>>,
}

impl Model for SemHistories {
    ghost use Rattle.std.specs.Prelude.{List, map};
    ghost use Rattle.split_rules.specs.declared.SemEntry.{SemEntry};

    ghost Value = { List (List SemEntry) };

    ghost view = { λ a. map (λ es. es.items) a.lists.items };
}

/// The histories of all partitions, by the number of the processor from 0. Contracts see them as lists.
#[derive(Drop)]
pub struct PartHistories {
    lists: Vec<Vec<SplitEntry>>,
}

impl Model for PartHistories {
    ghost use Rattle.std.specs.Prelude.{List, map};
    ghost use Rattle.split_rules.specs.declared.SplitEntry.{SplitEntry};

    ghost Value = { List (List SplitEntry) };

    ghost view = { λ a. map (λ es. es.items) a.lists.items };
}

/// What a split run has come to: the histories of all semaphores and of all partitions.
#[derive(Drop)]
pub struct SplitEnd {
    pub sems: SemHistories,
    pub parts: PartHistories,
}

impl SemHistories {
    pub(crate) fn new(lists: Vec<Vec<SemEntry>>) -> SemHistories
        ensures { result ≡ map (λ es. es.items) lists.items }
    {
        SemHistories { lists }
    }

    /// The histories.
    pub fn as_slice(&self) -> &[Vec<SemEntry>]
        ensures { map (λ es. es.items) result.now ≡ self.now }
    {
        self.lists.as_slice()
    }
}

impl PartHistories {
    pub(crate) fn new(lists: Vec<Vec<SplitEntry>>) -> PartHistories
        ensures { result ≡ map (λ es. es.items) lists.items }
    {
        PartHistories { lists }
    }

    /// The histories.
    pub fn as_slice(&self) -> &[Vec<SplitEntry>]
        ensures { map (λ es. es.items) result.now ≡ self.now }
    {
        self.lists.as_slice()
    }
}
