//! A group of a set whose steps are taken again, move by move, for what is shown of its history.
#![tactic(auto)]

mod player;
mod playing;
mod replay;

pub use player::Player;
pub use replay::Replay;
