//! The calls that the tests make of the commands.
ghost use Rattle.std.specs.Prelude.{◌≡◌, IfOk, map, string_bytes};

use rt_fault::{Sink, Source, Status};
use sim_commands::sim;
use std::alloc::Global;
use std::test::Fail;
use trace_tools::shipped_tools;

/// The words of a command line.
pub(crate) fn words(alloc: Global, texts: &[&str]) -> Result<Vec<String>, Fail>
    ensures { IfOk result (λ v. map string_bytes v.items ≡ map (λ text. text.now) texts.now) }
{
    let mut words = Vec::new(alloc);
    for text in texts {
        words.push(String::from_str(alloc, text)?)?;
    }
    Ok(words)
}

/// Runs the command `sim` with the tools of the program.
pub(crate) fn play<S: Source, K: Sink>(
    alloc: Global,
    src: &mut S,
    out: &mut K,
) -> Result<Status, Fail> {
    let words = words(alloc, &["sim"])?;
    let tools = shipped_tools(alloc)?;
    Ok(sim(alloc, words.as_slice(), src, out, tools))
}
