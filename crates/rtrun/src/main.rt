//! `rtrun`: plays the steps or the turns of modelled processors, each processor by a thread of its own, and prints the trace;
//! or plays the partitions of a split set so, and prints their histories.
#![tactic(auto)]

use cpu_site::OpenGate;
use rt_fault::{Status, StdSink, StdSource, WRITTEN_AT_ONCE};
use run_command::{USAGE, run};
use set_input::Program;
use std::io::{self, BufWriter, Write};
use std::process::ExitCode;
use std::sync::Wait;
use std::thread::Threads;
use trace_tools::shipped_tools;

/// Runs the command between standard input and standard output. What a failed flush keeps back is a failed write.
fn run_words<R: AllocGlobal + Input + Print + Threads + Wait + Sync>(
    rt: &R,
    words: &[String],
) -> Status {
    let alloc = rt.alloc();
    let Ok(mut buffer) = BufWriter::with_capacity(alloc, WRITTEN_AT_ONCE, io::writer(rt)) else {
        return Status::NoMemory;
    };
    let Ok(tools) = shipped_tools(alloc) else {
        return Status::NoMemory;
    };
    let mut src = StdSource::new(rt.reader());
    let mut out = StdSink::new(&mut buffer);
    let status = run(rt, alloc, words, &mut src, &mut out, tools, &OpenGate);
    match buffer.flush() {
        Err(_) if status == Status::Ok => Status::WriteFault,
        _ => status,
    }
}

fn main(rt: HostRuntime) -> ExitCode {
    let program = Program {
        name: "rtrun",
        version: "0.1.0",
        usage: USAGE,
    };
    let status = match program.words(&rt) {
        Ok(words) => run_words(&rt, words.as_slice()),
        Err(status) => status,
    };
    program.end(&rt, status)
}
