//! `rtview`: draws a trace, writes its tables and trace events, explains its entries, and says why a set or a trace is refused.
#![tactic(auto)]

use explain_command::explain;
use rt_fault::{Status, StdSink, StdSource, WRITTEN_AT_ONCE};
use set_input::Program;
use std::io::{self, BufWriter, Write};
use std::process::ExitCode;
use trace_tools::shipped_tools;
use view_command::{USAGE, ViewEnd, view};

fn is_explain(words: &[String]) -> bool {
    match words {
        [word] => word.as_str() == "explain",
        _ => false,
    }
}

/// How a run ends whose last bytes could not be written. What is refused has been explained by then.
fn cut(end: ViewEnd) -> ViewEnd {
    match end {
        ViewEnd::Ended(Status::Ok | Status::BadInput(_) | Status::Invalid(_)) => {
            ViewEnd::Ended(Status::WriteFault)
        }
        other => other,
    }
}

/// Runs the command between standard input and standard output. What a failed flush keeps back is a failed write.
fn run(rt: &HostRuntime, words: &[String]) -> ViewEnd {
    let alloc = rt.alloc();
    let Ok(mut buffer) = BufWriter::with_capacity(alloc, WRITTEN_AT_ONCE, io::writer(rt)) else {
        return ViewEnd::Ended(Status::NoMemory);
    };
    let Ok(tools) = shipped_tools(alloc) else {
        return ViewEnd::Ended(Status::NoMemory);
    };
    let mut src = StdSource::new(rt.reader());
    let mut out = StdSink::new(&mut buffer);
    let end = if is_explain(words) {
        ViewEnd::Ended(explain(alloc, &mut src, &mut out, tools))
    } else {
        view(alloc, words, &mut src, &mut out, tools)
    };
    match buffer.flush() {
        Err(_) => cut(end),
        Ok(()) => end,
    }
}

/// Says on standard error why a view was not written, and gives the status to exit with.
fn end_of(rt: &HostRuntime, program: &Program, end: ViewEnd) -> ExitCode {
    match end {
        ViewEnd::Ended(status) => program.end(rt, status),
        ViewEnd::NoSuchEntry => {
            let _ = eprintln!(rt; "{}: no such entry", program.name);
            ExitCode::from(end.code())
        }
    }
}

fn main(rt: HostRuntime) -> ExitCode {
    let program = Program {
        name: "rtview",
        version: "0.1.0",
        usage: USAGE,
    };
    let end = match program.words(&rt) {
        Ok(words) => run(&rt, words.as_slice()),
        Err(status) => ViewEnd::Ended(status),
    };
    end_of(&rt, &program, end)
}
