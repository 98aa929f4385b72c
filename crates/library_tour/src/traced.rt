//! The command `sim` on the set, with a tool of one's own.
use crate::refused::RefusedActs;
use rt_base::NoMemory;
use rt_fault::{MemSink, MemSource, Status};
use rt_task::Setup;
use set_canonical::canonical;
use sim_commands::sim;
use std::alloc::Global;

/// The most bytes that are kept of the trace.
const ROOM: u64 = 4096;

/// What the command reads and writes here: the set's canonical text, from memory to memory.
fn run(alloc: Global, text: Vec<u8>, out: &mut MemSink) -> Result<Status, NoMemory> {
    let words = [String::from_str(alloc, "sim")?].to_vec(alloc)?;
    let mut tools = Vec::new(alloc);
    tools.push(RefusedActs::new())?;
    let mut src = MemSource::new(text, 1024, Vec::new(alloc));
    Ok(sim(alloc, words.as_slice(), &mut src, out, tools))
}

/// The trace of the set with the count line of the tool, and how the command ended.
pub(crate) fn traced(alloc: Global, setup: &Setup) -> Result<(Status, MemSink), NoMemory> {
    let text = canonical(alloc, setup)?;
    let mut out = MemSink::new(alloc, ROOM, Vec::new(alloc))?;
    let status = run(alloc, text, &mut out)?;
    Ok((status, out))
}
