//! Fields of a line, with the byte behind each.
ghost use Rattle.std.specs.Prelude.{◌≡◌, ◌∷◌, ◌++◌, [], OnOk, decimal};
ghost use Rattle.table_texts.specs.Fields.{integer_or_none, number_or_none};

use itoa::Buffer;
use rt_base::NoMemory;

/// A text and a byte.
#[tactic(auto, using(std::proofs::Common::append_assoc))]
pub(crate) fn put_text(text: &mut Vec<u8>, field: &[u8], behind: u8) -> Result<(), NoMemory>
    ensures { OnOk result (text.new.items ≡ text.old.items ++ (field.now ++ behind ∷ [])) }
{
    text.extend_from_slice(field)?;
    text.push(behind)?;
    Ok(())
}

/// A number and a byte.
pub(crate) fn put_number(text: &mut Vec<u8>, number: u64, behind: u8) -> Result<(), NoMemory>
    ensures { OnOk result (text.new.items ≡ text.old.items ++ (decimal number ++ behind ∷ [])) }
{
    let mut buffer = Buffer::new();
    put_text(text, buffer.format(number).as_bytes(), behind)
}

/// A number, where there is one, and a comma.
pub(crate) fn put_number_or_none(text: &mut Vec<u8>, number: Option<u64>) -> Result<(), NoMemory>
    ensures { OnOk result
        (text.new.items ≡ text.old.items ++ (number_or_none number ++ 44 ∷ [])) }
{
    match number {
        Some(number) => put_number(text, number, b','),
        None => put_text(text, b"", b','),
    }
}

/// A number that may be below 0, where there is one, and a comma.
pub(crate) fn put_integer_or_none(text: &mut Vec<u8>, number: Option<i64>) -> Result<(), NoMemory>
    ensures { OnOk result
        (text.new.items ≡ text.old.items ++ (integer_or_none number ++ 44 ∷ [])) }
{
    let mut buffer = Buffer::new();
    match number {
        Some(number) => put_text(text, buffer.format(number).as_bytes(), b','),
        None => put_text(text, b"", b','),
    }
}

/// A sum of such numbers, where there is one, and a comma.
pub(crate) fn put_sum_or_none(text: &mut Vec<u8>, sum: Option<i128>) -> Result<(), NoMemory>
    ensures { OnOk result
        (text.new.items ≡ text.old.items ++ (integer_or_none sum ++ 44 ∷ [])) }
{
    let mut buffer = Buffer::new();
    match sum {
        Some(sum) => put_text(text, buffer.format(sum).as_bytes(), b','),
        None => put_text(text, b"", b','),
    }
}
