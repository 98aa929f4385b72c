//! A book as the value of a turn.
use crate::book::SemBook;
use crate::subject::SemOf;
use split_rules::SemEntry;
use turn_cell::Story;

/// The history are the book's entries. No processor is ever raised.
impl Story for SemBook {
    type Entry = SemEntry;

    type Subject = SemOf;

    ghost use Rattle.std.specs.Prelude.{[]};
    ghost use Rattle.split_inbox.specs.Books.{cpu_of};

    ghost list = { λ b. b.entries };

    ghost cpu = { λ s e. cpu_of e };

    ghost raises = { λ b. [] };

    ghost subject = { λ b. b.about };

    fn count(&self) -> u64 {
        self.len()
    }
}
