//! Names and numbers met so far.
ghost use Rattle.std.specs.Prelude.{◌≡◌, ◌||◌, ◌==◌, not, ℕ, List, IfOk, OnOk, bytes_eq};
ghost use Rattle.set_rules.specs.inside.NamesSeen.{has_name, has_number};

use rt_task::Name;
use std::alloc::AllocError;
use std::collections::HashSet;

/// Adds a name, and says whether none of those before is equal to it.
pub(super) fn add_name<'a>(
    names: &mut HashSet<&'a [u8]>,
    name: &'a Name,
) -> Result<bool, AllocError>
    ensures new { IfOk result (λ is_new. is_new ≡ not (has_name names.old name.now)) }
    ensures added { OnOk result ((w : List ℕ)
        → has_name names.new w ≡ (bytes_eq name.now w || has_name names.old w)) }
{
    let is_new = names.insert(name.as_slice())?;
    Ok(is_new)
}

/// Adds a number, and says whether it was not there before.
pub(super) fn add_number(numbers: &mut HashSet<u32>, number: u32) -> Result<bool, AllocError>
    ensures new { IfOk result (λ is_new. is_new ≡ not (has_number numbers.old number)) }
    ensures added { OnOk result ((n : ℕ)
        → has_number numbers.new n ≡ (number == n || has_number numbers.old n)) }
{
    let is_new = numbers.insert(number)?;
    Ok(is_new)
}
