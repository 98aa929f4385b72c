//! What is said of a trace.

/// Whether a text is a valid trace of the set that it says.
#[derive(Clone, Copy, Debug, PartialEq, Eq)]
pub enum Verdict {
    /// The text is a valid trace with this number of entries.
    Valid(u32),
    /// The text is no valid trace: this line, numbered from 1, is the first wrong one.
    Invalid(u32),
}

/// What a text comes to that is read with the count lines that it may have.
#[derive(Clone, Copy, Debug, PartialEq, Eq)]
pub struct Checked {
    pub verdict: Verdict,
    /// Whether count lines stand behind the line `end` of a valid text. Of another text it says nothing.
    pub counted: bool,
}
