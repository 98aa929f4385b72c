//! The requests of one group and the critical sections that end while each is open, counted entry by entry: under OMLP
//! (Brandenburg and Anderson, RTSS 2010) and FMLP (Block, Leontyev, Brandenburg and Anderson, RTCSA 2007) never more than
//! the bound.
#![tactic(auto)]

mod at_sem;
mod blocks;
mod bounds;
mod requests;
mod seen;

pub use blocks::Blocks;
pub use seen::{Seen, Waiting};
