//! The lines that explain an entry of a trace, written of what they show.
#![tactic(auto)]

mod clusters;
mod entries;
mod jobs;
mod lists;
mod pieces;
mod resvs;
mod sems;
mod sentences;

pub use clusters::{put_cpu_line, put_rank_line};
pub use entries::{put_clock_line, put_ended_line, put_link_line, put_ran_line, put_sentence_line};
pub use jobs::{JobTimes, put_absent, put_job_facts, put_job_start};
pub use lists::{home_of, limits_of, resvs_of, server_of, tasks_of};
pub use pieces::{GroupSet, protocol_of, put, put_number, put_sem_or_dash, put_task_or_dash};
pub use resvs::put_resv_line;
pub use sems::put_sem_line;
