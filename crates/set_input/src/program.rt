//! What a program does around its command: the words of its command line, and how it ends.
ghost use Rattle.std.specs.Prelude.{◌≡◌, true, false, MatchOption, MatchResult};
ghost use Rattle.std.specs.Process.{exit_status};
ghost use Rattle.rt_fault.specs.StatusCode.{code_of};
ghost use Rattle.set_input.specs.OwnWords.{ends_wordless, is_own, was_said};

use crate::fault_line::FaultLine;
use rt_fault::Status;
use std::env;
use std::io::{self, ErrorKind};
use std::process::ExitCode;
use std::rt::Env;

/// A program: its name, its version, and what it says of its words.
#[derive(Clone, Copy)]
pub struct Program<'a> {
    pub name: &'a str,
    pub version: &'a str,
    pub usage: &'a str,
}

/// What a line that was said, or was not, ends with.
fn said(line: io::Result<()>) -> Status
    ensures { was_said result ≡ true }
{
    match line {
        Ok(()) => Status::Ok,
        Err(_) => Status::WriteFault,
    }
}

impl Program<'_> {
    /// Answers `--help` and `--version`. All other words are for the command.
    fn answer<R: Print>(&self, rt: &R, words: &[String]) -> Option<Status>
        ensures { MatchOption result (is_own words.now ≡ false)
            (λ s. (is_own words.now ≡ true) × (was_said s ≡ true)) }
    {
        match words {
            [word] if word.as_str() == "--help" => Some(said(println!(rt; "{}", self.usage))),
            [word] if word.as_str() == "--version" => {
                Some(said(println!(rt; "{} {}", self.name, self.version)))
            }
            _ => None,
        }
    }

    /// The words after the program's name, or, where they are none for the command, how the program ends. Those that are
    /// not UTF-8 are answered by `Usage`.
    pub fn words<R: AllocGlobal + Env + Print>(&self, rt: &R) -> Result<Vec<String>, Status>
        ensures { MatchResult result (λ v. is_own v.items ≡ false)
            (λ s. ends_wordless s ≡ true) }
    {
        let args = match env::args(rt) {
            Ok(args) => args,
            Err(error) if error.kind() == ErrorKind::OutOfMemory => return Err(Status::NoMemory),
            Err(_) => return Err(Status::Usage),
        };
        let Ok(words) = args.skip(1).collect::<Vec<String>>(rt.alloc()) else {
            return Err(Status::NoMemory);
        };
        match self.answer(rt, words.as_slice()) {
            Some(status) => Err(status),
            None => Ok(words),
        }
    }

    /// Says on standard error why a run was not done, and gives the status to exit with.
    pub fn end<R: Eprint>(&self, rt: &R, status: Status) -> ExitCode
        ensures { exit_status result ≡ code_of status }
    {
        if status != Status::Ok {
            let line = FaultLine {
                usage: self.usage,
                status,
            };
            let _ = eprintln!(rt; "{}: {line}", self.name);
        }
        ExitCode::from(status.code())
    }
}
