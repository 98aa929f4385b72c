//! One partition of a split run by itself: its history, and the state that its entries made. It says what each step of its
//! script comes to, as far as the partition can say it alone, and adds each step once its request at a semaphore, if it
//! makes one, is answered.
#![tactic(auto)]

mod acts;
mod opening;
mod player;

pub use player::{Begun, Player};
