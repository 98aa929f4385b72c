//! How far the text of a trace is right behind its first two lines.

/// The lines of whole groups that were checked after the first two, the entries among them, and how many bytes they have.
#[derive(Clone, Copy, PartialEq, Eq)]
pub(crate) struct Progress {
    pub(crate) lines: usize,
    pub(crate) entries: u32,
    pub(crate) length: usize,
}

/// What comes of following the lines of a group.
#[derive(Clone, Copy, PartialEq, Eq)]
pub(crate) enum Followed {
    /// They are right, and so far with those before them.
    Whole(Progress),
    /// The line in this position, from 0, is wrong, or is missing.
    Wrong(usize),
}

/// What comes of following the entry lines of a group.
#[derive(Clone, Copy, PartialEq, Eq)]
pub(crate) enum Entries {
    /// They are right, and so far with all that stands before them the text has so many bytes.
    Right(usize),
    /// The line behind so many entries is wrong.
    WrongAfter(u32),
}
