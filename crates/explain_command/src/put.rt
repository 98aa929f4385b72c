//! Putting texts behind one another.
ghost use Rattle.std.specs.Prelude.{◌≡◌, ◌++◌, [], ◌∷◌, OnOk};

use std::alloc::AllocError;

pub(crate) fn put(out: &mut Vec<u8>, text: &str) -> Result<(), AllocError>
    ensures { OnOk result (out.new.items ≡ out.old.items ++ text.now) }
{
    out.extend_from_slice(text.as_bytes())
}

/// A line of a word, and bytes as they stand.
#[tactic(auto, using(std::proofs::Common::append_assoc))]
pub(crate) fn put_said(out: &mut Vec<u8>, word: &str, bytes: &[u8]) -> Result<(), AllocError>
    ensures { OnOk result (out.new.items
        ≡ out.old.items ++ (word.now ++ bytes.now ++ 10 ∷ [])) }
{
    put(out, word)?;
    out.extend_from_slice(bytes)?;
    put(out, "\n")
}
