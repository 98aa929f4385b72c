//! `rtsim`: plays the steps of modelled processors in a given order and prints the trace, checks a trace, upgrades a trace
//! to format 2, and sums up what a generated set comes to.
#![tactic(auto)]

use rt_fault::{Status, StdSink, StdSource, WRITTEN_AT_ONCE};
use set_input::Program;
use sim_commands::{USAGE, sim};
use std::io::{self, BufWriter, Write};
use std::process::ExitCode;
use trace_tools::shipped_tools;

/// Runs the command between standard input and standard output. What a failed flush keeps back is a failed write.
fn run(rt: &HostRuntime, words: &[String]) -> Status {
    let alloc = rt.alloc();
    let Ok(mut buffer) = BufWriter::with_capacity(alloc, WRITTEN_AT_ONCE, io::writer(rt)) else {
        return Status::NoMemory;
    };
    let Ok(tools) = shipped_tools(alloc) else {
        return Status::NoMemory;
    };
    let mut src = StdSource::new(rt.reader());
    let mut out = StdSink::new(&mut buffer);
    let status = sim(alloc, words, &mut src, &mut out, tools);
    match buffer.flush() {
        Err(_) if matches!(status, Status::Ok | Status::Invalid(_)) => Status::WriteFault,
        _ => status,
    }
}

fn main(rt: HostRuntime) -> ExitCode {
    let program = Program {
        name: "rtsim",
        version: "0.1.0",
        usage: USAGE,
    };
    let status = match program.words(&rt) {
        Ok(words) => run(&rt, words.as_slice()),
        Err(status) => status,
    };
    program.end(&rt, status)
}
