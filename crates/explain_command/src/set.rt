//! Why a set is refused.
ghost use Rattle.std.specs.Prelude.{◌≡◌, Err, IfOk};
ghost use Rattle.set_read.specs.Sets.{set};
ghost use Rattle.explain_command.specs.Explaining.{SetIsExplained};

use crate::outcome::{Explained, Outcome};
use crate::put::put;
use rt_base::NoMemory;
use rt_task::{BadSet, SetStop};
use set_explain::{cause_of, explanation};
use set_read::read_set;
use std::alloc::Global;

/// What is said where nothing is refused.
pub(crate) fn fine(alloc: Global, text: &str) -> Result<Explained, NoMemory>
    ensures { IfOk result (λ x. (x.outcome ≡ Outcome.Fine) × (x.text.items ≡ text.now)) }
{
    let mut out = Vec::new(alloc);
    put(&mut out, text)?;
    Ok(Explained {
        outcome: Outcome::Fine,
        text: out,
    })
}

fn refused(alloc: Global, bytes: &[u8], bad: BadSet) -> Result<Explained, NoMemory>
    requires { set bytes.now ≡ Err bad }
    ensures { IfOk result (λ x. SetIsExplained bytes.now x.outcome x.text.items) }
{
    let cause = cause_of(alloc, bytes, bad)?;
    let text = explanation(alloc, bad, cause)?;
    Ok(Explained {
        outcome: Outcome::Refused(bad),
        text,
    })
}

/// What the bytes come to as a set.
pub(crate) fn set_explained(alloc: Global, bytes: &[u8]) -> Result<Explained, NoMemory>
    ensures { IfOk result (λ x. SetIsExplained bytes.now x.outcome x.text.items) }
{
    match read_set(alloc, bytes) {
        Ok(_) => fine(alloc, "nothing is refused: a valid set\n"),
        Err(SetStop::Bad(bad)) => refused(alloc, bytes, bad),
        Err(SetStop::NoMemory) => Err(NoMemory),
    }
}
