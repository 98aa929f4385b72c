//! The rows of a group's tasks, processors and reservations while a column goes on: what each state, each act and the end of the column
//! make of them.
#![tactic(auto)]

mod acting;
mod away_tasks;
mod cpus;
mod finding;
mod foreseen;
mod look;
mod loops;
mod opening;
mod ready_jobs;
mod resvs;
mod rows;
mod runs;
mod seeing;
mod tasks;
mod units;

pub use acting::arriving;
pub use away_tasks::AwayTasks;
pub use cpus::CpuFeed;
pub use finding::{place_of, position_of};
pub use foreseen::{foretell, keep_if_done};
pub use ready_jobs::{ReadyJob, ReadyJobs};
pub use resvs::ResvFeed;
pub use rows::Rows;
pub use seeing::{see_task_knowing, see_task_with};
pub use tasks::TaskFeed;
pub use units::{Unit, is_accepted};
