//! Split runs on threads: each processor of a split set plays its partition in a thread of its own.
#![tactic(auto)]

mod drive;
mod run;

pub use run::{play_out, run_split, text_of_run};
