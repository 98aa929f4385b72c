//! How far a processor is in its turns.
ghost use Rattle.std.specs.Prelude.{◌≡◌};

/// How many turns of a processor were given as over, and how many steps of the next one were taken.
#[derive(Clone, Copy, PartialEq, Eq)]
pub struct Progress {
    pub turns: u64,
    pub steps: u32,
}

impl Progress {
    /// Before the first turn.
    pub fn start() -> Progress
        ensures { result ≡ record { turns = 0; steps = 0 } }
    {
        Progress { turns: 0, steps: 0 }
    }
}
