//! Reading set documents.
#![tactic(auto)]

mod acts;
mod document;
mod elements;
mod forms;
mod last_member;
mod lexemes;
mod names;
mod plain_bodies;
mod plain_steps;
mod plain_tasks;
mod quick;
mod quick_bodies;
mod read;
pub mod single;
mod tasks;

pub use names::Names;
pub use read::{read_draft, read_set};
