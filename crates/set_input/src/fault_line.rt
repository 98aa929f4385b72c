//! The line on standard error where a run was not done.

use rt_fault::Status;
use std::fmt;

/// What is said of a status, after the program's name. `usage` is what is said where the words are no command.
#[derive(Drop)]
pub struct FaultLine<'a> {
    pub usage: &'a str,
    pub status: Status,
}

impl fmt::Display for FaultLine<'_> {
    fn fmt<W: fmt::Write>(&self, f: &mut fmt::Formatter<W>) -> fmt::Result {
        match self.status {
            Status::Ok => Ok(()),
            Status::Invalid(line) => write!(f, "invalid at line {line}"),
            Status::Usage => write!(f, "{}", self.usage),
            Status::BadInput(bad) => write!(f, "bad input: {bad}"),
            Status::ReadFault => write!(f, "reading failed"),
            Status::WriteFault => write!(f, "writing failed"),
            Status::TooLong => write!(f, "input too long"),
            Status::NoMemory => write!(f, "no memory"),
        }
    }
}
