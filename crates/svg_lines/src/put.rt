//! Bytes, numbers and attributes at the end of a text.
ghost use Rattle.std.specs.Prelude.{◌≡◌, ◌++◌, OnOk, decimal};
ghost use Rattle.svg_texts.specs.Shapes as spec;

use itoa::Buffer;
use std::alloc::AllocError;

/// A position or a size, in pixels. No sum of those of a picture wraps.
pub type Pixels = u128;

pub fn put(out: &mut Vec<u8>, bytes: &[u8]) -> Result<(), AllocError>
    ensures { OnOk result (out.new.items ≡ out.old.items ++ bytes.now) }
{
    out.extend_from_slice(bytes)
}

pub fn put_number(out: &mut Vec<u8>, n: Pixels) -> Result<(), AllocError>
    ensures { OnOk result (out.new.items ≡ out.old.items ++ decimal n) }
{
    let mut buffer = Buffer::new();
    put(out, buffer.format(n).as_bytes())
}

/// A blank, a name, and a value in quotes.
#[tactic(auto, using(std::proofs::Common::append_assoc))]
pub fn put_attribute(out: &mut Vec<u8>, name: &[u8], value: &[u8]) -> Result<(), AllocError>
    ensures { OnOk result (out.new.items ≡ out.old.items ++ spec.attribute name.now value.now) }
{
    put(out, b" ")?;
    put(out, name)?;
    put(out, b"=\"")?;
    put(out, value)?;
    put(out, b"\"")
}

#[tactic(auto, using(std::proofs::Common::append_assoc))]
pub fn put_pixels(out: &mut Vec<u8>, name: &[u8], n: Pixels) -> Result<(), AllocError>
    ensures { OnOk result (out.new.items ≡ out.old.items ++ spec.number name.now n) }
{
    put(out, b" ")?;
    put(out, name)?;
    put(out, b"=\"")?;
    put_number(out, n)?;
    put(out, b"\"")
}
