//! The texts of charts of a set and its histories, in characters and as pictures.
#![tactic(auto)]

mod drawing;
mod lengths;
mod panels;
mod texts;

pub use texts::{Form, chart_text};
