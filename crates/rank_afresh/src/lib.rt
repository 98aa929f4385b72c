//! One group played from plain facts: the eligible tasks of each cluster stay ranked in one list, and a move looks at the
//! tasks alone that it touches.
#![tactic(auto)]

mod afresh;
mod cluster;
mod facts;
mod listing;
mod marks;
mod moments;
mod placed;
mod placing;
mod ran;
mod ranks;
mod room;
mod rows;
mod visits;

pub use afresh::Afresh;
