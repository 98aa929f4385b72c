//! The commands of `rtview`: views of a trace.
#![tactic(auto)]

mod dispatch;
mod ending;
mod pieces;
mod views;
mod words;

pub use dispatch::view;
pub use ending::ViewEnd;
pub use views::View;

/// The words that are commands, as they are said.
pub const USAGE: &str =
    "usage: rtview svg, rtview svg FROM TO, rtview svg entries, rtview svg entries FROM TO, the same of text, rtview events, rtview jobs, rtview tasks, rtview why N, rtview why G N, rtview explain";
