//! What a partition may do at the books of the semaphores. Each function has a law as its contract, and does nothing.
#![tactic(auto)]

ghost use Rattle.part_books.specs.PartBooks.{MayAskBook, MayReleaseBook};

/// Before a step that locks a semaphore, a task of the partition that holds and waits for nothing may ask with its book.
pub fn may_ask_book()
    ensures { MayAskBook }
{}

/// Before a step that unlocks a semaphore, the task of the partition that holds it may release it with its book.
pub fn may_release_book()
    ensures { MayReleaseBook }
{}
