//! The processors of a group as the seats of a turn, each of which plays its own steps.
#![tactic(auto)]

mod cpu_views;
mod cpus;
mod driving;
mod gate;
mod group;
mod interrupts;
mod next_steps;
mod own_steps;
mod played;
mod player;
mod playing_group;
mod progress;
mod site;
mod story;

pub use driving::{drive, drive_turns, play_turn};
pub use gate::{Gate, OpenGate};
pub use group::Group;
pub use played::Played;
pub use progress::Progress;
pub use site::{CpuSeat, Site};
pub use story::GroupOf;
