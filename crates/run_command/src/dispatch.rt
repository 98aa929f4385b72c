//! The top call: the commands `run` and `split`.
ghost use Rattle.std.specs.Prelude.{◌≡◌, true, map};
ghost use Rattle.set_input.specs.Ends.{TellsFaults, reading, writing};
ghost use Rattle.set_input.specs.Answers.{IsUnwritten};
ghost use Rattle.run_command.specs.Run as commands;
ghost use Rattle.run_command.specs.RunAnswers.{RunAnswers};
ghost use Rattle.run_command.specs.SplitAnswers.{SplitAnswers};

use crate::play_set::play_set;
use crate::play_split::play_split;
use crate::words::{is_run, is_split};
use cpu_site::Gate;
use rt_fault::{Sink, Source, Status};
use std::alloc::Global;
use std::sync::Wait;
use std::thread::Threads;
use trace_tools::TraceTool;

/// Runs the command that the words name, those after the program's name.
///
/// `run` reads a set, plays each processor's steps or turns in a thread of its own, the groups beside each other, and writes
/// the trace of the histories that come about, in format 2, with the count lines of the tools behind the line `end`. The gate
/// is asked before each play.
///
/// `split` reads a set, and where it can be run split, plays each processor's partition in a thread of its own and writes the
/// text of what comes about. The tools are shown nothing. The gate is asked before each step.
///
/// Nothing is written before all input was read, nor where it is refused. The call may wait, and what it promises holds
/// if it returns.
pub fn run<R: Threads + Wait + Sync, S: Source, K: Sink, T: TraceTool, G: Gate + Sync>(
    rt: &R,
    alloc: Global,
    words: &[String],
    src: &mut S,
    out: &mut K,
    tools: Vec<T>,
    gate: &G,
) -> Status
    // Usage is the answer exactly where the words are no command, and then nothing is read or written.
    ensures usage { commands.IsNoCommand words.now → result ≡ Status.Usage }
    ensures no_command { result ≡ Status.Usage → commands.IsNoCommand words.now }
    ensures unread { result ≡ Status.Usage → src.new ≡ src.old }
    ensures unwritten { IsUnwritten result → out.new ≡ out.old }

    // A fault is answered exactly where a read or a write of this call failed.
    ensures faults { TellsFaults (reading S.left S.faults src.old src.new)
        (writing K.held K.faults out.old out.new) result }

    // What each command answers, and what it read and wrote.
    ensures run { commands.is_run words.now ≡ true → RunAnswers (map T.tool tools.items)
        (reading S.left S.faults src.old src.new) (writing K.held K.faults out.old out.new) result }
    ensures split { commands.is_split words.now ≡ true → SplitAnswers
        (reading S.left S.faults src.old src.new) (writing K.held K.faults out.old out.new) result }
{
    if is_run(words) {
        return play_set(rt, alloc, src, out, tools, gate);
    }
    if is_split(words) {
        return play_split(rt, alloc, src, out, gate);
    }
    Status::Usage
}
