//! Bodies, each run of Work as one piece.
ghost use Rattle.std.specs.Prelude.{◌≡◌, ◌++◌, OnOk};
ghost use Rattle.rt_task.specs.Draft.{runs};
ghost use Rattle.serde_json.specs.Written.{compact_text};
ghost use Rattle.set_canonical.specs.Values.{array_data, sem_names, piece_data};

use crate::operations::{put_op, put_word_and_number};
use crate::put::{put, put_comma};
use rt_task::{Op, Piece, Sem, pieces_of};
use std::alloc::{AllocError, Global};

#[tactic(auto, using(std::proofs::Common::append_assoc), unfolding(crate::specs::Values::piece_data))]
fn put_piece(out: &mut Vec<u8>, sems: &[Sem], piece: Piece) -> Result<(), AllocError>
    ensures { OnOk result (out.new.items
        ≡ out.old.items ++ compact_text (piece_data (sem_names sems.now) piece)) }
{
    put(out, b"[")?;
    match piece {
        Piece::Works(n) => put_word_and_number(out, false, b"work", n)?,
        Piece::Once(op) => put_op(out, false, sems, op)?,
    }
    Ok(())
}

#[tactic(auto, using(std::proofs::Common::append_assoc))]
fn put_pieces(
    out: &mut Vec<u8>,
    before: &[u8],
    sems: &[Sem],
    pieces: &[Piece],
) -> Result<(), AllocError>
    ensures { OnOk result (out.new.items
        ≡ out.old.items ++ (before.now ++ compact_text (array_data (piece_data
        (sem_names sems.now)) pieces.now))) }
{
    put(out, before)?;
    put(out, b"[")?;
    for (i, piece) in pieces.iter().enumerate() {
        put_comma(out, i > 0)?;
        put_piece(out, sems, *piece)?;
    }
    put(out, b"]")?;
    Ok(())
}

pub fn put_body(
    alloc: Global,
    out: &mut Vec<u8>,
    before: &[u8],
    sems: &[Sem],
    body: &[Op],
) -> Result<(), AllocError>
    ensures { OnOk result (out.new.items
        ≡ out.old.items ++ (before.now ++ compact_text (array_data (piece_data
        (sem_names sems.now)) (runs body.now)))) }
{
    let pieces = pieces_of(alloc, body)?;
    put_pieces(out, before, sems, &pieces)
}
