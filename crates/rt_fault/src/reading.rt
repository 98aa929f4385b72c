//! Reading a whole source.
ghost use Rattle.std.specs.Prelude.{◌≡◌, ◌≢◌, ◌≤◌, vec_len, IfOk};
ghost use Rattle.rt_fault.specs.Faults.{HasRisen};
ghost use Rattle.rt_fault.specs.Reading.{TakesAll, TakesAtMost, TakesOneMoreThan};

use crate::{Failed, Source};
use std::alloc::{AllocError, Global};
use thiserror::Error;

/// Why a source was not read to its end.
#[derive(Clone, Copy, Debug, PartialEq, Eq, Error)]
pub enum ReadStop {
    /// A read failed.
    #[error("reading failed")]
    Fault,
    /// More bytes came than the limit.
    #[error("the input is too long")]
    TooLong,
    /// Memory ran out.
    #[error("memory ran out")]
    NoMemory,
}

impl From<Failed> for ReadStop {
    ghost use Rattle.std.specs.Prelude.{◌≡◌};
    ghost use Rattle.rt_fault.specs.declared.reading.ReadStop.TheVariants.{Fault};

    ghost from_gives = { λ _ e. e ≡ Fault };

    fn from(_e: Failed) -> ReadStop {
        ReadStop::Fault
    }
}

impl From<AllocError> for ReadStop {
    ghost use Rattle.std.specs.Prelude.{◌≡◌};
    ghost use Rattle.rt_fault.specs.declared.reading.ReadStop.TheVariants.{NoMemory};

    ghost from_gives = { λ _ e. e ≡ NoMemory };

    fn from(_e: AllocError) -> ReadStop {
        ReadStop::NoMemory
    }
}

/// The bytes that one read asks for at most.
const PIECE: usize = 65_536;

/// Reads a source to its end, and refuses more than `limit` bytes.
///
/// On Ok the bytes are all that the source had left, where it tells them. On TooLong one byte more than `limit` came, and
/// no more were taken. Nothing is asked after a failed read. The bytes that came before a refusal are gone from the source.
pub fn read_all<S: Source>(alloc: Global, src: &mut S, limit: u64) -> Result<Vec<u8>, ReadStop>
    ensures ok { IfOk result (λ v. TakesAll (S.left src.old) (S.left src.new) v.items) }
    ensures within { IfOk result (λ v. vec_len v ≤ limit) }
    ensures fault { result ≡ Err ReadStop.Fault → HasRisen (S.faults src.old) (S.faults src.new) }
    ensures unfailed { result ≢ Err ReadStop.Fault → S.faults src.new ≡ S.faults src.old }
    ensures counted { S.faults src.old ≤ S.faults src.new }

    // TooLong is the answer exactly where one byte more than `limit` came.
    ensures too_long { result ≡ Err ReadStop.TooLong →
        TakesOneMoreThan limit (S.left src.old) (S.left src.new) }
    ensures not_too_long { result ≢ Err ReadStop.TooLong →
        TakesAtMost limit (S.left src.old) (S.left src.new) }
{
    let mut piece = Vec::new(alloc);
    piece.resize(PIECE, 0u8)?;
    let mut bytes = Vec::new(alloc);
    loop {
        // One byte beyond the limit is enough to know that the input is too long.
        let room = limit - bytes.len() as u64;
        let buf = &mut piece.as_mut_slice()[..room.min(PIECE as u64 - 1) as usize + 1];
        let count = src.read(buf)?;
        if count == 0 {
            return Ok(bytes);
        }
        if count as u64 > room {
            return Err(ReadStop::TooLong);
        }
        bytes.extend_from_slice(&buf[..count])?;
    }
}
