//! A source and a sink over memory that never fail.
ghost use Rattle.std.specs.Prelude.{◌≡◌, ℕ, ◌<◌, ◌≤◌, [], length, take, min, IsOk, IfOk, Some};
ghost use Rattle.std.specs.Io.KnownBytes.{Consumes};
ghost use Rattle.rt_fault.specs.Held.{Extends};
ghost use Rattle.rt_fault.specs.Memory.{held_in, kept_with};

use crate::kept::Kept;
use crate::rest::Rest;
use crate::{Failed, Sink, Source};
use rt_base::NoMemory;
use std::alloc::Global;
use std::marker::Model;

/// A source over bytes in memory that never fails, seen as the bytes still to come.
#[derive(Drop)]
pub struct SureSource {
    rest: Rest,
}

impl Model for SureSource {
    ghost use Rattle.std.specs.Prelude.{List, ℕ};

    ghost Value = { List ℕ };

    ghost view = { λ s. s.rest };
}

impl SureSource {
    /// A source of `bytes`. Takes no memory.
    pub fn new(bytes: Vec<u8>) -> SureSource
        ensures { result ≡ bytes.items }
    {
        SureSource {
            rest: Rest::new(bytes),
        }
    }
}

impl Source for SureSource {
    ghost left = { λ s. Some s };

    ghost faults = { λ _. 0 };

    /// Fills `buf` as far as bytes are left.
    fn read(&mut self, buf: &mut [u8]) -> Result<usize, Failed>
        requires { 0 < length buf.old }
        ensures sure { result ≡ Ok (min (length buf.old) (length self.old)) }
        ensures bound { IfOk result (λ n. n ≤ length buf.new) }
        ensures end { result ≡ Ok 0 → self.new ≡ [] }
        ensures taken { IfOk result (λ n.
            Consumes (Some self.old) (Some self.new) (take n buf.new)) }
    {
        let room = buf.len();
        Ok(self.rest.give(buf, room))
    }
}

/// A sink over memory that never fails. It keeps the first `room` bytes and counts the others.
///
/// It is seen as the bytes that it keeps, the room, and the number of bytes beyond them. It tells what it holds while no
/// more than `room` bytes came.
#[derive(Drop)]
pub struct SureSink {
    kept: Kept,
}

impl Model for SureSink {
    ghost use Rattle.rt_fault.specs.Memory as memory;

    ghost Value = { memory.Kept };

    ghost view = { λ s. s.kept };
}

impl SureSink {
    /// An empty sink with room for `room` bytes.
    pub fn new(alloc: Global, room: u64) -> Result<SureSink, NoMemory>
        ensures { IfOk result (λ s. s ≡ record { bytes = []; room = room; beyond = 0 }) }
    {
        Ok(SureSink {
            kept: Kept::new(alloc, room)?,
        })
    }

    /// The bytes that it keeps: the first `room` that came.
    pub fn as_slice(&self) -> &[u8]
        ensures { result.now ≡ self.now.bytes }
    {
        self.kept.as_slice()
    }

    /// How many bytes came beyond its room. The number stays at 2^64 - 1.
    pub fn beyond(&self) -> u64
        ensures { result ≡ self.now.beyond }
    {
        self.kept.beyond()
    }
}

impl Sink for SureSink {
    ghost held = { held_in };

    ghost faults = { λ _. 0 };

    /// Takes all of `bytes`, and no memory.
    fn write(&mut self, bytes: &[u8]) -> Result<usize, Failed>
        requires { 0 < length bytes.now }
        ensures sure { result ≡ Ok (length bytes.now) }
        ensures kept { self.new ≡ kept_with self.old bytes.now }
    {
        self.kept.keep(bytes);
        Ok(bytes.len())
    }
}
