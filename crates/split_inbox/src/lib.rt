//! What split partitions share: of each semaphore the book of who asked for it and who freed it, and of each processor
//! an inbox for the grants that others post to it.
#![tactic(auto)]

mod book;
mod closing;
mod grant;
mod inbox;
mod names;
mod queue;
mod rule;
mod story;
mod subject;

pub use book::SemBook;
pub use grant::Grant;
pub use inbox::{Inbox, Poster, Taker};
pub use names::Names;
pub use rule::{Claim, Hand};
pub use subject::{SemOf, SemRule};

/// The most grants that the posters of an inbox may post together.
pub const MOST_GRANTS: u32 = 20_000;
