//! The canonical text of a set: a JSON value with no blanks and with every member, in rising order of names.
#![tactic(auto)]

ghost use Rattle.std.specs.Prelude.{◌≡◌, IfOk};
ghost use Rattle.set_canonical.specs.Canonical as spec;

mod bodies;
mod elements;
mod names;
mod operations;
mod put;
mod sets;
mod tasks;
mod words;

use rt_base::NoMemory;
use rt_task::{Parts, Setup};
use std::alloc::Global;
pub use words::{plugin_word, protocol_word};

/// The canonical text of a setup, without a newline: the compact text of the JSON value that has all members, with defaults
/// filled in, members in rising order of their names' bytes, and each run of Work as one piece. A task has `early` only
/// where it is true, and of `steps` and `horizon` the set has the one that was given.
pub fn canonical(alloc: Global, setup: &Setup) -> Result<Vec<u8>, NoMemory>
    ensures { IfOk result (λ v. v.items ≡ spec.canonical setup.now) }
{
    canonical_of_parts(alloc, setup.parts())
}

/// The canonical text of a set's parts, valid or not. The name of a number that stands for nothing is the empty one.
#[tactic(auto, unfolding(crate::specs::Canonical::canonical))]
pub fn canonical_of_parts(alloc: Global, parts: &Parts) -> Result<Vec<u8>, NoMemory>
    ensures { IfOk result (λ v. v.items ≡ spec.canonical parts.now) }
{
    let mut out = Vec::new(alloc);
    sets::put_set(alloc, &mut out, parts)?;
    Ok(out)
}
