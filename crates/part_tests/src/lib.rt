//! Tests of sets, of the ends, of the leaf parts and of what threads share. They stand apart, so that each crate is proved once.
#![tactic(auto)]

#[cfg(test)]
mod blocking;
#[cfg(test)]
mod clock;
#[cfg(test)]
mod clusters;
#[cfg(test)]
mod faults;
#[cfg(test)]
mod heap;
#[cfg(test)]
mod inheritance;
#[cfg(test)]
mod seeds;
#[cfg(test)]
mod setups;
#[cfg(test)]
mod srp;
#[cfg(test)]
mod timers;
#[cfg(test)]
mod turns;
