//! What an input comes to.

use rt_task::BadSet;

/// What an input comes to, as a set or as a trace.
#[derive(Clone, Copy, Debug, PartialEq, Eq)]
pub enum Outcome {
    /// Nothing of it is refused.
    Fine,
    /// It is a trace of which this line, from 1, is the first that is wrong.
    Wrong(u32),
    /// It is refused.
    Refused(BadSet),
}

/// What an input comes to, and the text that explains it.
#[derive(Drop)]
pub(crate) struct Explained {
    pub outcome: Outcome,
    pub text: Vec<u8>,
}
