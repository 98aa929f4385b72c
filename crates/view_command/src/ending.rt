//! How a view ends.
use rt_fault::Status;

/// How a view ends.
#[derive(Clone, Copy, Debug, PartialEq, Eq)]
pub enum ViewEnd {
    /// As the other commands do.
    Ended(Status),
    /// The trace is valid and has no such group or entry.
    NoSuchEntry,
}

impl ViewEnd {
    ghost use Rattle.std.specs.Prelude.{◌≡◌};
    ghost use Rattle.view_command.specs.Ends.{exit_code_of};

    /// The exit status of the program: that of the status, and 8 for `NoSuchEntry`.
    pub fn code(&self) -> u8
        ensures { result ≡ exit_code_of self.now }
    {
        match self {
            ViewEnd::Ended(status) => status.code(),
            ViewEnd::NoSuchEntry => 8,
        }
    }
}

impl From<Status> for ViewEnd {
    ghost use Rattle.std.specs.Prelude.{◌≡◌};
    ghost use Rattle.view_command.specs.declared.ending.ViewEnd.TheVariants.{Ended};

    ghost from_gives = { λ status e. e ≡ Ended status };

    fn from(status: Status) -> ViewEnd {
        ViewEnd::Ended(status)
    }
}
