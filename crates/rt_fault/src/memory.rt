//! A source and a sink over memory, with calls that fail.
ghost use Rattle.std.specs.Prelude.{◌≡◌, ℕ, ◌↔◌, ◌<◌, ◌≤◌, [], length, take, min, IsErr, IfOk, OnOk, OnErr, Some};
ghost use Rattle.std.specs.Io.KnownBytes.{Consumes, Keeps, IsAtEnd};
ghost use Rattle.rt_fault.specs.Held.{Extends, Stays};
ghost use Rattle.rt_fault.specs.Memory.{IsFailing, after_call, failed_calls, held_in, kept_with};

use crate::kept::Kept;
use crate::plan::Plan;
use crate::rest::Rest;
use crate::{Failed, Sink, Source};
use rt_base::NoMemory;
use std::alloc::Global;
use std::marker::Model;

/// A source over bytes in memory. It gives at most `piece` bytes a read, and chosen reads fail.
///
/// It is seen as the bytes still to come, the piece, the numbers of the reads that fail, from 0, and the number of the
/// next read.
#[derive(Drop)]
pub struct MemSource {
    rest: Rest,
    piece: u32,
    plan: Plan,
}

impl Model for MemSource {
    ghost use Rattle.std.specs.Prelude.{◌<◌};
    ghost use Rattle.rt_fault.specs.Memory.{MemInput};

    ghost Value = { MemInput };

    ghost view = { λ s. record { left = s.rest; piece = s.piece; plan = s.plan } };

    ghost invariant = { λ s. 0 < s.piece };
}

impl MemSource {
    /// A source of `bytes` that gives at most `piece` a read. Exactly the reads whose numbers, from 0, stand in `fails`
    /// fail. Takes no memory.
    pub fn new(bytes: Vec<u8>, piece: u32, fails: Vec<u32>) -> MemSource
        requires { 0 < piece }
        ensures { result ≡ record {
          left = bytes.items;
          piece = piece;
          plan = record { fails = fails.items; calls = 0 };
        } }
    {
        MemSource {
            rest: Rest::new(bytes),
            piece,
            plan: Plan::new(fails),
        }
    }
}

impl Source for MemSource {
    ghost left = { λ s. Some s.left };

    ghost faults = { λ s. failed_calls s.plan };

    fn read(&mut self, buf: &mut [u8]) -> Result<usize, Failed>
        requires { 0 < length buf.old }
        // What each source does.
        ensures bound { IfOk result (λ n. n ≤ length buf.new) }
        ensures taken { IfOk result (λ n.
            Consumes (Some self.old.left) (Some self.new.left) (take n buf.new)) }
        ensures end { result ≡ Ok 0 → IsAtEnd (Some self.new.left) }
        ensures kept { OnErr result (Keeps (Some self.old.left) (Some self.new.left)) }
        ensures fault { OnErr result (failed_calls self.old.plan < failed_calls self.new.plan) }
        ensures unfailed { OnOk result (failed_calls self.new.plan ≡ failed_calls self.old.plan) }
        ensures counted { failed_calls self.old.plan ≤ failed_calls self.new.plan }

        // What this one does.
        ensures fails { IsErr result ↔ IsFailing self.old.plan }
        ensures count { IfOk result (λ n.
            n ≡ min (min (length buf.old) self.old.piece) (length self.old.left)) }
        ensures after { self.new ≡
            record self.old { left = self.new.left; plan = after_call self.old.plan } }
    {
        if self.plan.fails_next() {
            return Err(Failed);
        }
        Ok(self.rest.give(buf, self.piece as usize))
    }
}

/// A sink over memory. It keeps the first `room` bytes and counts the others, and chosen writes fail.
///
/// It is seen as the bytes that it keeps, the room, the number of bytes beyond them, the numbers of the writes that
/// fail, from 0, and the number of the next write. It tells what it holds while no more than `room` bytes came.
#[derive(Drop)]
pub struct MemSink {
    kept: Kept,
    plan: Plan,
}

impl Model for MemSink {
    ghost use Rattle.rt_fault.specs.Memory.{MemOutput};

    ghost Value = { MemOutput };

    ghost view = { λ s. record { kept = s.kept; plan = s.plan } };
}

impl MemSink {
    /// An empty sink with room for `room` bytes. Exactly the writes whose numbers, from 0, stand in `fails` fail.
    pub fn new(alloc: Global, room: u64, fails: Vec<u32>) -> Result<MemSink, NoMemory>
        ensures { IfOk result (λ s. s ≡ record {
          kept = record { bytes = []; room = room; beyond = 0 };
          plan = record { fails = fails.items; calls = 0 };
        }) }
    {
        Ok(MemSink {
            kept: Kept::new(alloc, room)?,
            plan: Plan::new(fails),
        })
    }

    /// The bytes that it keeps: the first `room` that came.
    pub fn as_slice(&self) -> &[u8]
        ensures { result.now ≡ self.now.kept.bytes }
    {
        self.kept.as_slice()
    }

    /// How many bytes came beyond its room. The number stays at 2^64 - 1.
    pub fn beyond(&self) -> u64
        ensures { result ≡ self.now.kept.beyond }
    {
        self.kept.beyond()
    }
}

impl Sink for MemSink {
    ghost held = { λ s. held_in s.kept };

    ghost faults = { λ s. failed_calls s.plan };

    /// Takes all of `bytes`, and no memory.
    fn write(&mut self, bytes: &[u8]) -> Result<usize, Failed>
        requires { 0 < length bytes.now }
        // What each sink does.
        ensures some { IfOk result (λ n. 0 < n) }
        ensures bound { IfOk result (λ n. n ≤ length bytes.now) }
        ensures taken { IfOk result (λ n.
            Extends (held_in self.old.kept) (held_in self.new.kept) (take n bytes.now)) }
        ensures kept { OnErr result (Stays (held_in self.old.kept) (held_in self.new.kept)) }
        ensures fault { OnErr result (failed_calls self.old.plan < failed_calls self.new.plan) }
        ensures unfailed { OnOk result (failed_calls self.new.plan ≡ failed_calls self.old.plan) }
        ensures counted { failed_calls self.old.plan ≤ failed_calls self.new.plan }

        // What this one does.
        ensures fails { IsErr result ↔ IsFailing self.old.plan }
        ensures whole { IfOk result (λ n. n ≡ length bytes.now) }
        ensures ok { OnOk result (self.new.kept ≡ kept_with self.old.kept bytes.now) }
        ensures err { OnErr result (self.new.kept ≡ self.old.kept) }
        ensures plan { self.new.plan ≡ after_call self.old.plan }
    {
        if self.plan.fails_next() {
            return Err(Failed);
        }
        self.kept.keep(bytes);
        Ok(bytes.len())
    }
}
