//! The text that explains an entry of a trace.
#![tactic(auto)]

mod entries;
mod links;
mod members;
mod noted;
mod replayed;
mod texts;

pub use texts::why_text;
