//! The books of a set's semaphores: that what a book keeps is a legal history of the set.
#![tactic(auto)]

ghost use Rattle.set_books.specs.SetBooks.{BooksAreLegal};

/// Each legal history of a book that is about a semaphore of a set is legal in the set.
pub fn books_are_legal()
    ensures { BooksAreLegal }
{}
