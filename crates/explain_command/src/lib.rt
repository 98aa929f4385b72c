//! The command `explain`: why a set or a trace is refused, and where.
#![tactic(auto)]

ghost use Rattle.explain_command.specs.Laws.{AgreesWithCheck, AgreesWithSim};

mod answer;
mod lines;
mod outcome;
mod put;
mod reading;
mod set;
mod trace;
mod verdict;

pub use answer::explain;
pub use outcome::Outcome;

/// Where both come to an answer on the same bytes, `explain` has that of `check` for a trace, and that of `sim` for a set.
pub fn refuses_as_they_do()
    ensures check { AgreesWithCheck }
    ensures sim { AgreesWithSim }
{}
