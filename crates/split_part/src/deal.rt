//! Rows that are dealt out.
ghost use Rattle.std.specs.Prelude.{◌≡◌, ◌<◌, All, IfOk, length, reverse};
ghost use Rattle.split_part.specs.inside.Deals.{IsPopped, lists};

use rt_base::NoMemory;
use std::alloc::Global;

/// What is left of the rows, and the last element of each, in order.
pub(crate) fn pop_each<T: Drop>(
    alloc: Global,
    rows: Vec<Vec<T>>,
) -> Result<(Vec<Vec<T>>, Vec<T>), NoMemory>
    requires { All (λ row. 0 < length row.items) rows.items }
    ensures { IfOk result (λ r. IsPopped (lists rows.items) (lists r.0.items) r.1.items) }
{
    let mut rests = Vec::new(alloc);
    let mut hand = Vec::new(alloc);
    for mut row in rows {
        match row.pop() {
            Some(x) => hand.push(x)?,
            None => unreachable!(),
        }
        rests.push(row)?;
    }
    Ok((rests, hand))
}

/// The same items from the last to the first.
pub(crate) fn turn_round<T>(items: &mut Vec<T>)
    ensures { items.new.items ≡ reverse items.old.items }
{
    items.as_mut_slice().reverse();
}
