//! Which turns the semaphores have.
use std::marker::Brand;

/// The turns of the semaphores of a set. A program picks them once, when they are made.
pub trait Names {
    ghost use Rattle.std.specs.Prelude.{List};
    ghost use Rattle.turn_cell.specs.SeatViews.{Cell};
    ghost use Rattle.split_inbox.specs.declared.subject.SemOf.{SemOf};

    /// The turn of each semaphore, by rising number from 1.
    ghost turns: { List (Cell SemOf) };
}

/// The turns that a call picks: its proof says which they are.
impl Names for Brand {
    ghost use Rattle.std.specs.Prelude.{[]};

    ghost turns = { [] };
}
