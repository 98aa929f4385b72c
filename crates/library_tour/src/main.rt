//! A tour of the library: a set made by code, played by the engine and asked what stands, and then the command `sim` with a tool
//! of one's own.
#![tactic(auto)]

mod refused;
mod set;
mod tour;
mod traced;

use rt_base::{NoMemory, TaskNo};
use rt_fault::{MemSink, Status};
use rt_task::{SetStop, Setup};
use std::alloc::Global;
use std::io::{self, Write};
use std::process::ExitCode;
use tour::Picture;

/// The letter of a task, `-` where there is none.
fn letter(task: Option<TaskNo>) -> char {
    match task {
        Some(TaskNo(1)) => 'A',
        Some(_) => 'B',
        None => '-',
    }
}

fn print_picture<R: Print>(rt: &R, p: Picture) {
    let [first, second] = p.linked;
    let _ = println!(rt; "linked: 0:{} 1:{}", letter(first), letter(second));
    let _ = println!(rt; "holder of L: {}", letter(p.holder));
    let _ = println!(rt; "first of the eligible tasks: {}", letter(p.first_ready));
    let _ = println!(rt; "A has the key of B: {}", p.inherits);
}

/// The set, and what the engine tells of it after its steps.
fn played(alloc: Global) -> Result<(Setup, Picture), SetStop> {
    let setup = set::setup(alloc)?;
    match tour::at_end(alloc, &setup) {
        Ok(picture) => Ok((setup, picture)),
        Err(NoMemory) => Err(SetStop::NoMemory),
    }
}

fn print_trace<R: Print>(rt: &R, status: Status, trace: &MemSink) -> Status {
    let mut out = io::writer(rt);
    match out.write_all(trace.as_slice()) {
        Ok(()) => status,
        Err(_) => Status::WriteFault,
    }
}

/// Prints both parts of the tour.
fn take_tour<R: AllocGlobal + Print>(rt: &R) -> Result<Status, SetStop> {
    let (setup, picture) = played(rt.alloc())?;
    print_picture(rt, picture);
    match traced::traced(rt.alloc(), &setup) {
        Ok((status, trace)) => Ok(print_trace(rt, status, &trace)),
        Err(NoMemory) => Ok(Status::NoMemory),
    }
}

fn main(rt: HostRuntime) -> ExitCode {
    match take_tour(&rt) {
        Ok(status) => ExitCode::from(status.code()),
        Err(_) => ExitCode::FAILURE,
    }
}
