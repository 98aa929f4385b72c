//! A set that is played by threads, one for each processor, the groups beside each other.
#![tactic(auto)]

mod cpu_thread;
mod group_run;
mod set_run;
mod start_barrier;
mod turn_run;

pub use set_run::run_set;
