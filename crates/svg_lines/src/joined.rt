//! Words with a separator between them.
ghost use Rattle.std.specs.List.{join_with_byte};
ghost use Rattle.std.specs.Prelude.{◌≡◌, IfOk};
ghost use Rattle.svg_lines.specs.Words.{word_items};

use crate::put::put;
use std::alloc::{AllocError, Global};

/// The words with the separator between them.
#[tactic(auto, using(std::proofs::Common::append_assoc))]
pub fn joined(alloc: Global, separator: u8, words: &[Vec<u8>]) -> Result<Vec<u8>, AllocError>
    ensures { IfOk result (λ v. v.items ≡ join_with_byte separator (word_items words.now)) }
{
    let mut text = Vec::new(alloc);
    if words.is_empty() {
        return Ok(text);
    }
    put(&mut text, &words[0])?;
    for i in 1..words.len() {
        put(&mut text, &[separator])?;
        put(&mut text, &words[i])?;
    }
    Ok(text)
}
