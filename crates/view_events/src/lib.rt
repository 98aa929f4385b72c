//! The trace events of a trace: what they tell of each group is recorded as the text is checked.
#![tactic(auto)]

mod checked;
mod keeper;
mod recording;
mod tracks;

pub use checked::check_tracks;
