//! How far the processors of a group are among its entries, and which step may come next: the next of a script, or of a turn.
//!
//! It follows the steps with the ranker, and knows nothing of lines.
#![tactic(auto)]

mod course;
mod following;
mod scripts;
mod table;
mod turns;

pub use course::Course;
pub use scripts::Scripts;
