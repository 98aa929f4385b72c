//! The lines of a state of a group, written of its facts.
#![tactic(auto)]

mod ceilings;
mod clusters;
mod declared;
mod others;
mod resvs;
mod sems;
mod standings;
mod state;
mod states;
mod tasks;

pub use declared::sems_of;
pub use state::State;
pub use states::put_state;
