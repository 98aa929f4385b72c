//! The columns of a window while the steps of a group are taken again: what is kept of them, and in the end the chart's rows.
#![tactic(auto)]

mod clocks;
mod columns;
mod entry_clocks;
mod feed;
mod finish;
mod marking;
mod panel;
mod times;
mod window_columns;

pub use feed::{Feed, Members};
