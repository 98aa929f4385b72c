//! The top call: the commands `sim`, `check`, `upgrade` and `load`.
ghost use Rattle.std.specs.Prelude.{◌≡◌, ℕ, true, map};
ghost use Rattle.set_input.specs.Ends.{TellsFaults, reading, writing};
ghost use Rattle.sim_commands.specs.Sim as commands;
ghost use Rattle.sim_commands.specs.Sim.{IsCommand, IsLoad};
ghost use Rattle.set_input.specs.Answers.{IsUnwritten};
ghost use Rattle.sim_commands.specs.SimAnswers.{SimAnswers};
ghost use Rattle.sim_commands.specs.CheckAnswers.{CheckAnswers};
ghost use Rattle.sim_commands.specs.UpgradeAnswers.{UpgradeAnswers};
ghost use Rattle.sim_commands.specs.LoadAnswers.{LoadAnswers};

use crate::check::check;
use crate::load::load;
use crate::play_set::play_set;
use crate::upgrade::upgrade;
use crate::words::{is_check, is_sim, is_upgrade, load_number};
use rt_fault::{Sink, Source, Status};
use std::alloc::Global;
use trace_tools::TraceTool;

/// Runs the command that the words name, those after the program's name.
///
/// `sim` reads a set, plays its steps in the given order or its turns, and writes the trace of the histories that come about, in
/// format 2, with the count lines of the tools behind the line `end`. `check` reads a trace of either format, and writes one line:
/// `valid` with the number of its entries, or `invalid` with the number of the first line that is wrong. `upgrade` reads a trace of
/// either format too, and where it is valid writes the text in format 2 of its set and histories, with the count lines of the tools.
/// `load` with a number reads nothing, plays the set that is generated for the number, and writes what its histories come to and
/// the tools' count lines.
///
/// Nothing is written before all input was read, nor where it is refused.
pub fn sim<S: Source, K: Sink, T: TraceTool>(
    alloc: Global,
    words: &[String],
    src: &mut S,
    out: &mut K,
    tools: Vec<T>,
) -> Status
    // Usage is the answer exactly where the words are no command, and then nothing is read or written.
    ensures usage { ¬ (IsCommand words.now) → result ≡ Status.Usage }
    ensures no_command { result ≡ Status.Usage → ¬ (IsCommand words.now) }
    ensures unread { result ≡ Status.Usage → src.new ≡ src.old }
    ensures load_unread { (n : ℕ) → IsLoad words.now n → src.new ≡ src.old }
    ensures unwritten { IsUnwritten result → out.new ≡ out.old }
    ensures wrong_unwritten { (line : ℕ) → commands.is_upgrade words.now ≡ true
        → result ≡ Status.Invalid line → out.new ≡ out.old }

    // A fault is answered exactly where a read or a write of this call failed.
    ensures faults { TellsFaults (reading S.left S.faults src.old src.new)
        (writing K.held K.faults out.old out.new) result }

    // What each command answers, and what it read and wrote.
    ensures sim { commands.is_sim words.now ≡ true → SimAnswers (map T.tool tools.items)
        (reading S.left S.faults src.old src.new) (writing K.held K.faults out.old out.new) result }
    ensures check { commands.is_check words.now ≡ true → CheckAnswers (map T.tool tools.items)
        (reading S.left S.faults src.old src.new) (writing K.held K.faults out.old out.new) result }
    ensures upgrade { commands.is_upgrade words.now ≡ true → UpgradeAnswers (map T.tool tools.items)
        (reading S.left S.faults src.old src.new) (writing K.held K.faults out.old out.new) result }
    ensures load { (n : ℕ) → IsLoad words.now n → LoadAnswers (map T.tool tools.items) n
        (writing K.held K.faults out.old out.new) result }
{
    if is_sim(words) {
        return play_set(alloc, src, out, tools);
    }
    if is_check(words) {
        return check(alloc, src, out, tools);
    }
    if is_upgrade(words) {
        return upgrade(alloc, src, out, tools);
    }
    match load_number(words) {
        Some(n) => load(alloc, n, out, tools),
        None => Status::Usage,
    }
}
