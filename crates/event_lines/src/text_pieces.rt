//! A text in pieces.
ghost use Rattle.std.specs.Prelude.{◌≡◌, [], ◌∷◌, ◌++◌, IfOk, MatchOption, OnOk};
ghost use Rattle.event_lines.specs.WholeText.{whole_text};

use std::alloc::{AllocError, Global};
use std::marker::Model;
use std::mem;

/// A piece has at least as many bytes, but the first and the last.
const PIECE: usize = 65_536;

/// The room of a piece for what it has beyond the bytes that make it whole: an event mostly fits.
const REST: usize = 4096;

/// A text in pieces, so that it needs no block of memory that holds all of it. What is put at the end of `last` is put at its end.
#[derive(Drop)]
pub(crate) struct Pieces {
    whole: Vec<Vec<u8>>,
    pub(crate) last: Vec<u8>,
    /// With so many bytes the last piece is whole.
    enough: usize,
}

impl Model for Pieces {
    ghost use Rattle.std.specs.Prelude.{ℕ, List, ◌++◌};
    ghost use Rattle.event_lines.specs.WholeText.{whole_text};

    ghost Value = { List ℕ };

    ghost view = { λ a. whole_text a.whole.items ++ a.last.items };
}

impl Pieces {
    /// The text that has no bytes. Its first piece comes to lie where the bytes of `room` lie, which are let go.
    pub(crate) fn within(alloc: Global, room: Vec<u8>) -> Pieces
        ensures { result ≡ [] }
    {
        let enough = room.len().saturating_sub(REST);
        let mut last = room;
        last.clear();
        Pieces {
            whole: Vec::new(alloc),
            last,
            enough,
        }
    }

    /// Another piece begins.
    #[tactic(auto, using(crate::proofs::Joins::loops))]
    fn begin_piece(&mut self, alloc: Global) -> Result<(), AllocError>
        ensures { OnOk result (self.new ≡ self.old) }
    {
        let next = Vec::with_capacity(alloc, PIECE + REST)?;
        self.whole.push(mem::replace(&mut self.last, next))?;
        self.enough = PIECE;
        Ok(())
    }

    /// Another piece begins, where the last is whole.
    #[inline(always)]
    pub(crate) fn settle(&mut self, alloc: Global) -> Result<(), AllocError>
        ensures { OnOk result (self.new ≡ self.old) }
    {
        if self.last.len() >= self.enough {
            self.begin_piece(alloc)?;
        }
        Ok(())
    }

    /// Takes off the last byte, if there is any.
    #[tactic(auto, using(crate::proofs::Joins::loops))]
    pub(crate) fn pop(&mut self) -> Option<u8>
        ensures { MatchOption result (self.old ≡ []) (λ byte. self.old ≡ self.new ++ byte ∷ []) }
    {
        while self.last.is_empty() {
            self.last = self.whole.pop()?;
        }
        self.last.pop()
    }

    #[tactic(auto, using(crate::proofs::Joins::loops))]
    pub(crate) fn into_pieces(self) -> Result<Vec<Vec<u8>>, AllocError>
        ensures { IfOk result (λ pieces. whole_text pieces.items ≡ self) }
    {
        let Pieces {
            mut whole,
            last,
            ..
        } = self;
        whole.push(last)?;
        Ok(whole)
    }
}
