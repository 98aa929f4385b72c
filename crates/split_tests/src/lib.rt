//! Tests of split runs, as calls: orders in which the processors step, a grant through an inbox, threads that meet, sets at
//! the limit, and refusals. They stand apart, so that each crate is proved once.
#![tactic(auto)]

#[cfg(test)]
mod commands;
#[cfg(test)]
mod inbox;
#[cfg(test)]
mod orders;
#[cfg(test)]
mod stepping;
#[cfg(test)]
mod threads;
