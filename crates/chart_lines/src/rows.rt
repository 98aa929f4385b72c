//! Rows of characters, and what they are made of.
ghost use Rattle.std.specs.Prelude.{◌≡◌, ◌∷◌, ◌++◌, [], IfOk, OnOk, decimal};
ghost use Rattle.chart_texts.specs.Rows as rows;

use decimals::put_decimal;
use rt_base::NoMemory;
use std::alloc::{AllocError, Global};

pub fn put(out: &mut Vec<u8>, bytes: &[u8]) -> Result<(), AllocError>
    ensures { OnOk result (out.new.items ≡ out.old.items ++ bytes.now) }
{
    out.extend_from_slice(bytes)
}

pub fn put_number(out: &mut Vec<u8>, n: u64) -> Result<(), AllocError>
    ensures { OnOk result (out.new.items ≡ out.old.items ++ decimal n) }
{
    put_decimal(out, n)
}

/// Two characters.
pub fn put_two(out: &mut Vec<u8>, first: u8, second: u8) -> Result<(), AllocError>
    ensures { OnOk result (out.new.items ≡ out.old.items ++ first ∷ second ∷ []) }
{
    put(out, &[first, second])
}

/// Blanks up to a length.
pub fn fill(out: &mut Vec<u8>, width: usize) -> Result<(), AllocError>
    ensures { OnOk result (out.new.items ≡ rows.filled width out.old.items) }
{
    while out.len() < width {
        out.push(b' ')?;
    }
    Ok(())
}

/// The text up to the blanks at its end.
fn trimmed(text: &[u8]) -> &[u8]
    ensures { result.now ≡ rows.trimmed text.now }
{
    let mut end = text.len();
    while end > 0 && text[end - 1] == b' ' {
        end -= 1;
    }
    &text[..end]
}

#[tactic(auto, using(std::proofs::Common::append_assoc))]
fn characters(alloc: Global, width: usize, label: &[u8], body: &[u8]) -> Result<Vec<u8>, AllocError>
    ensures { IfOk result (λ v. v.items ≡ rows.characters width label.now body.now) }
{
    let mut line = Vec::from_slice(alloc, label)?;
    fill(&mut line, width)?;
    put(&mut line, b" ")?;
    put(&mut line, body)?;
    Ok(line)
}

/// A row of characters.
#[tactic(auto, using(std::proofs::Common::append_assoc), unfolding(chart_texts::specs::Rows::row))]
pub fn put_row(
    alloc: Global,
    out: &mut Vec<u8>,
    width: usize,
    label: &[u8],
    body: &[u8],
) -> Result<(), NoMemory>
    ensures { OnOk result (out.new.items ≡ out.old.items ++ rows.row width label.now body.now) }
{
    let line = characters(alloc, width, label, body)?;
    put(out, trimmed(&line))?;
    put(out, b"\n")?;
    Ok(())
}
