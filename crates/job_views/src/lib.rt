//! The jobs of a group as its history goes on: of each task one job that is open and those that ended.
#![tactic(auto)]

mod deeds;
mod due;
mod ends;
mod most;
mod moves;
mod row;
mod sums;
mod table;
mod tally;
mod task_jobs;
mod task_row;
mod times;

pub use row::{JobRow, Outcome};
pub use table::JobTable;
pub use task_row::TaskRow;
