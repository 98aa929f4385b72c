//! The turns of the semaphores of a split set: of each a turn of its book, with the seat of each processor.
#![tactic(auto)]

ghost use Rattle.split_turns.specs.Histories.{HistoriesAreOfSet};

mod quotas;
mod tasks;
mod turns;

pub use turns::{SemTurn, SemTurns};

/// Each legal history of the book of a semaphore of a valid set is legal in the set, and leaves the semaphore as the set says.
pub fn histories_are_of_set()
    ensures { HistoriesAreOfSet }
{}
