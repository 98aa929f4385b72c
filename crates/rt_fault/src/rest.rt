//! Bytes that are given away from the front.
ghost use Rattle.std.specs.Prelude.{◌≡◌, ◌++◌, length, take, min};

use std::marker::Model;

/// Bytes that are given away from the front, seen as those that are left.
#[derive(Drop)]
pub(crate) struct Rest {
    bytes: Vec<u8>,
    at: usize,
}

impl Model for Rest {
    ghost use Rattle.std.specs.Prelude.{List, ℕ, ◌≤◌, drop, vec_len};

    ghost Value = { List ℕ };

    ghost view = { λ r. drop r.at r.bytes.items };

    ghost invariant = { λ r. r.at ≤ vec_len r.bytes };
}

impl Rest {
    pub fn new(bytes: Vec<u8>) -> Rest
        ensures { result ≡ bytes.items }
    {
        Rest { bytes, at: 0 }
    }

    /// Gives as many bytes as are left, at most `most` and what `buf` has room for, and answers their number.
    pub fn give(&mut self, buf: &mut [u8], most: usize) -> usize
        ensures count { result ≡ min (min (length buf.old) most) (length self.old) }
        ensures given { self.old ≡ take result buf.new ++ self.new }
    {
        let count = buf.len().min(most).min(self.bytes.len() - self.at);
        let end = self.at + count;
        buf[..count].copy_from_slice(&self.bytes.as_slice()[self.at..end]);
        self.at = end;
        count
    }
}
