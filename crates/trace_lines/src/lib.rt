//! The lines of a trace, in each of its formats: words with one space between them, and a line feed
//! at the end.
#![tactic(auto)]

mod acts;
mod format;
mod lines;
mod links;
mod numbers;
mod pairs;
mod put;
mod replies;
mod tasks;

pub use acts::{put_act, put_word_and_number};
pub use format::{Format, Version, first_line};
pub use lines::{put_block_line, put_count_line, put_end_line, put_entry_line, put_group_line};
pub use links::CpuLink;
pub use numbers::LineNumbers;
pub use put::{put_next_number, put_next_word, put_number};
pub use replies::put_reply;
pub use tasks::{put_next_task, put_target};
