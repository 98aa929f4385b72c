//! Tests of the commands, as calls, and of the slow ranker. They stand apart, so that each crate is proved once.
#![tactic(auto)]

#[cfg(test)]
mod calls;
#[cfg(test)]
mod faults;
#[cfg(test)]
mod limits;
#[cfg(test)]
mod ranks;
#[cfg(test)]
mod threads;
#[cfg(test)]
mod tools;
#[cfg(test)]
mod usage;
