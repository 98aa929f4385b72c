//! Writing the text of a trace: of a set, whose steps are played as their lines are written, or of groups that were played before.
#![tactic(auto)]

mod counted;
mod counts;
mod engines;
mod groups;
mod lines;
mod links;
mod played;
mod replay;
mod stop;
mod stretches;
mod summary;

pub use counts::write_counts;
pub use engines::{write_shown_trace, write_trace};
pub use lines::write_bytes;
pub use played::write_played;
pub use stop::WriteStop;
pub use summary::{Summary, summarize};
