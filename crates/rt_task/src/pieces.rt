//! Bodies in pieces.
ghost use Rattle.std.specs.Prelude.{◌≡◌, reverse, IfOk, OnOk};
ghost use Rattle.rt_task.specs.Draft.{op_front, runs};

use crate::{Op, Piece};
use rt_base::MOST_OPERATIONS;
use std::alloc::{AllocError, Global};

/// One more operation in front of the pieces, which stand from the last to the first.
fn push_front(pieces: &mut Vec<Piece>, op: Op) -> Result<(), AllocError>
    ensures { OnOk result (reverse pieces.new.items ≡ op_front op (reverse pieces.old.items)) }
{
    if op != Op::Work {
        pieces.push(Piece::Once(op))?;
        return Ok(());
    }
    if let Some(Piece::Works(n)) = pieces.last().copied()
        && n < u64::from(MOST_OPERATIONS)
    {
        let _last = pieces.pop();
        pieces.push(Piece::Works(n + 1))?;
        return Ok(());
    }
    pieces.push(Piece::Works(1))?;
    Ok(())
}

/// The operations of a body in pieces: each run of work as pieces of at most `MOST_OPERATIONS`
/// units, each other operation as one.
#[tactic(auto, unfolding(crate::specs::Draft::runs))]
pub fn pieces_of(alloc: Global, ops: &[Op]) -> Result<Vec<Piece>, AllocError>
    ensures { IfOk result (λ v. v.items ≡ runs ops.now) }
{
    let mut pieces = Vec::new(alloc);
    for i in (0..ops.len()).rev() {
        push_front(&mut pieces, ops[i])?;
    }
    pieces.reverse();
    Ok(pieces)
}
