//! What a group's tasks, processors and reservations do, span by span over the ticks, gathered while the group's steps are taken again.
#![tactic(auto)]

mod feed;
mod lane;
mod lanes;
mod opening;
mod same;
mod seeing;
mod spans;
mod stay;
mod taking;
mod waking;

pub use feed::{Members, SpanFeed};
