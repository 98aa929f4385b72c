//! Generated sets: `load N` is a set of forty tasks on eight processors whose numbers are drawn from N.
#![tactic(auto)]

mod draws;
mod generate;
mod numbers;
mod tasks;

pub use generate::load_set;
pub use numbers::number_of;
