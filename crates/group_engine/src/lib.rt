//! The engine of one group: its history, and the state that follows from it, kept move by move.
#![tactic(auto)]

mod engine;
mod keeping;
mod state;

pub use engine::Engine;
pub use group_core::WaitingList;
pub use keeping::KeepingEngine;
