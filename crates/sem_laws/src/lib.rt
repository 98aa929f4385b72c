//! The keys with which tasks asked, by task number: their words and laws; and the listing of those that wait in a line.
#![tactic(auto)]

mod keys;
mod listing;

pub use keys::key_in;
pub use listing::list_behind_first;
