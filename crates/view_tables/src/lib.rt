//! The texts of the tables of jobs and tasks of a set and its histories.
#![tactic(auto)]

mod fields;
mod lines;
mod played;
mod tables;
mod texts;

pub use tables::Table;
pub use texts::table_text;
