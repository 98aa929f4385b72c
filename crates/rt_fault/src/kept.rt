//! Bytes that are kept up to a room.
ghost use Rattle.std.specs.Prelude.{◌≡◌, [], IfOk};
ghost use Rattle.rt_fault.specs.Memory.{kept_with};

use rt_base::NoMemory;
use std::alloc::Global;
use std::marker::Model;

/// The first `room` bytes that came, and how many came beyond them.
#[derive(Drop)]
pub(crate) struct Kept {
    bytes: Vec<u8>,
    room: usize,
    beyond: u64,
}

impl Model for Kept {
    ghost use Rattle.std.specs.Prelude.{◌≤◌, vec_len, vec_capacity};
    ghost use Rattle.rt_fault.specs.Memory as memory;

    ghost Value = { memory.Kept };

    ghost view = { λ k. record { bytes = k.bytes.items; room = k.room; beyond = k.beyond } };

    ghost invariant = { λ k. (vec_len k.bytes ≤ k.room) × (k.room ≤ vec_capacity k.bytes) };
}

impl Kept {
    pub fn new(alloc: Global, room: u64) -> Result<Kept, NoMemory>
        ensures { IfOk result (λ k. k ≡ record { bytes = []; room = room; beyond = 0 }) }
    {
        let room = room as usize;
        let bytes = Vec::with_capacity(alloc, room)?;
        Ok(Kept {
            bytes,
            room,
            beyond: 0,
        })
    }

    /// Keeps what there is room for, and counts what there is not. Takes no memory.
    pub fn keep(&mut self, bytes: &[u8])
        ensures { self.new ≡ kept_with self.old bytes.now }
    {
        let count = bytes.len().min(self.room - self.bytes.len());
        let _ = self.bytes.extend_from_slice(&bytes[..count]);
        self.beyond = self.beyond.saturating_add((bytes.len() - count) as u64);
    }

    pub fn as_slice(&self) -> &[u8]
        ensures { result.now ≡ self.now.bytes }
    {
        self.bytes.as_slice()
    }

    pub fn beyond(&self) -> u64
        ensures { result ≡ self.now.beyond }
    {
        self.beyond
    }
}
