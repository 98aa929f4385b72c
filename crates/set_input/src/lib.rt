//! What both programs share: reading the set that a run plays, its refusals, the line that says why a run was not done, and
//! what stands around a command.
#![tactic(auto)]

mod fault_line;
mod input;
mod program;
mod refusal;

pub use fault_line::FaultLine;
pub use input::read_input;
pub use program::Program;
pub use refusal::refused;
