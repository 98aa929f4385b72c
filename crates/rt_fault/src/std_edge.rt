//! std's readers and writers as sources and sinks: the trusted edge.
ghost use Rattle.std.specs.Prelude.{◌≡◌, ℕ, ◌<◌, ◌≤◌, length, take, is_err, IfOk, OnOk, OnErr};
ghost use Rattle.std.specs.Io.KnownBytes.{Consumes, Keeps, IsAtEnd};
ghost use Rattle.rt_fault.specs.Faults.{HasRisen, faults_after};
ghost use Rattle.rt_fault.specs.Held.{Extends, Stays, held_of_contents};

use crate::{Failed, Sink, Source};
use std::io::{Read, Write};

/// A reader of std as a source. Each error of the reader is a fault.
///
/// It tells the bytes still to come where the reader does. The count of faults stays at 2^64 - 1 once it is there.
#[derive(Drop)]
pub struct StdSource<T> {
    reader: T,
    faults: u64,
}

impl<T: Read> StdSource<T> {
    /// The source over `reader`, with no fault so far. Takes no memory.
    pub fn new(reader: T) -> StdSource<T>
        ensures left { ⟦<StdSource<T> as Source>⟧.left result ≡ T.remaining reader }
        ensures faults { ⟦<StdSource<T> as Source>⟧.faults result ≡ 0 }
    {
        StdSource { reader, faults: 0 }
    }
}

impl<T: Read> Source for StdSource<T> {
    ghost left = { λ s. T.remaining s.reader };

    ghost faults = { λ s. s.faults };

    fn read(&mut self, buf: &mut [u8]) -> Result<usize, Failed>
        requires { 0 < length buf.old }
        // What each source does.
        ensures bound { IfOk result (λ n. n ≤ length buf.new) }
        ensures taken { IfOk result (λ n.
            Consumes (T.remaining self.old.reader) (T.remaining self.new.reader) (take n buf.new)) }
        ensures end { result ≡ Ok 0 → IsAtEnd (T.remaining self.new.reader) }
        ensures kept { OnErr result
            (Keeps (T.remaining self.old.reader) (T.remaining self.new.reader)) }
        ensures fault { OnErr result (HasRisen self.old.faults self.new.faults) }
        ensures unfailed { OnOk result (self.new.faults ≡ self.old.faults) }
        ensures counted { self.old.faults ≤ self.new.faults }

        // It counts its failures, and nothing else.
        ensures faults { self.new.faults ≡ faults_after self.old.faults (is_err result) }
    {
        match self.reader.read(buf) {
            Ok(count) => Ok(count),
            Err(_) => {
                self.faults = self.faults.saturating_add(1);
                Err(Failed)
            }
        }
    }
}

/// How many bytes a program gathers before it writes them: few writes, and little memory.
pub const WRITTEN_AT_ONCE: usize = 65_536;

/// A writer of std as a sink. Each error of the writer is a fault, and so is a write of no bytes.
///
/// It tells the bytes that it holds where the writer does. The count of faults stays at 2^64 - 1 once it is there.
#[derive(Drop)]
pub struct StdSink<T> {
    writer: T,
    faults: u64,
}

impl<T: Write> StdSink<T> {
    /// The sink over `writer`, with no fault so far. Takes no memory.
    pub fn new(writer: T) -> StdSink<T>
        ensures held { ⟦<StdSink<T> as Sink>⟧.held result ≡ held_of_contents (T.contents writer) }
        ensures faults { ⟦<StdSink<T> as Sink>⟧.faults result ≡ 0 }
    {
        StdSink { writer, faults: 0 }
    }
}

impl<T: Write> Sink for StdSink<T> {
    ghost held = { λ s. held_of_contents (T.contents s.writer) };

    ghost faults = { λ s. s.faults };

    #[inline(always)]
    fn write(&mut self, bytes: &[u8]) -> Result<usize, Failed>
        requires { 0 < length bytes.now }
        // What each sink does.
        ensures some { IfOk result (λ n. 0 < n) }
        ensures bound { IfOk result (λ n. n ≤ length bytes.now) }
        ensures taken { IfOk result (λ n. Extends (held_of_contents (T.contents self.old.writer))
            (held_of_contents (T.contents self.new.writer)) (take n bytes.now)) }
        ensures kept { OnErr result (Stays (held_of_contents (T.contents self.old.writer))
            (held_of_contents (T.contents self.new.writer))) }
        ensures fault { OnErr result (HasRisen self.old.faults self.new.faults) }
        ensures unfailed { OnOk result (self.new.faults ≡ self.old.faults) }
        ensures counted { self.old.faults ≤ self.new.faults }

        // It counts its failures, and nothing else.
        ensures faults { self.new.faults ≡ faults_after self.old.faults (is_err result) }
    {
        match self.writer.write(bytes) {
            Ok(count) if count > 0 => Ok(count),
            _ => {
                self.faults = self.faults.saturating_add(1);
                Err(Failed)
            }
        }
    }
}
