//! The text of a chart as a picture.
#![tactic(auto)]

mod bars;
mod cpu_draws;
mod elements;
mod grid;
mod joined;
mod lanes;
mod legend;
mod page;
mod parts;
mod put;
mod rows;
mod shapes;
mod task_draws;

pub use page::svg_text;
