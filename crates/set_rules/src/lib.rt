//! The rules of a set, tried on drafts and on parts, and the setups that they make.
#![tactic(auto)]

mod accept;
mod make;
mod rules;
pub mod single;

pub use accept::setup_of_draft;
pub use make::setup_of_parts;
