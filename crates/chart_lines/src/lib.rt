//! The text of a chart in characters.
#![tactic(auto)]

mod cpus;
mod letters;
mod page;
mod panels;
mod rows;
mod rulers;
mod tasks;

pub use page::{chart_text, put_title};
