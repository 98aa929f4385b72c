//! Names and their numbers, by look-up.
ghost use Rattle.std.specs.Prelude.{◌≡◌, ◌+◌, ◌<◌, ◌^◌, ℕ, List, map, length, vec_len, bytes_eq, unwrap_or, IfOk, OnOk};
ghost use Rattle.indexmap.specs.IndexMap.{get_by};
ghost use Rattle.set_read.specs.Document as document;

use indexmap::IndexMap;
use std::alloc::{AllocError, AllocFailed, Global};
use std::marker::Model;

/// The names of an array's elements in order, with the number of each: its first position, from 1.
#[derive(Drop)]
pub struct Names<'a> {
    names: Vec<&'a str>,
    numbers: IndexMap<&'a str, u32>,
}

impl<'a> Model for Names<'a> {
    ghost use Rattle.std.specs.Prelude.{◌≡◌, ℕ, List, map, bytes_eq, unwrap_or};
    ghost use Rattle.indexmap.specs.IndexMap.{get_by};
    ghost use Rattle.set_read.specs.Document as document;

    ghost Value = { List (List ℕ) };

    ghost view = { λ a. map (λ w. w.now) a.names.items };

    ghost invariant = { λ a. (w : List ℕ) →
        unwrap_or (get_by (λ k. bytes_eq w k.now) a.numbers) 0
        ≡ document.position_from 1 (map (λ k. k.now) a.names.items) w };
}

impl<'a> Names<'a> {
    /// These names with their numbers, of which the index is made once.
    pub fn of(alloc: Global, names: Vec<&'a str>) -> Result<Names<'a>, AllocError>
        requires { vec_len names + 1 < 2 ^ 32 }
        ensures { IfOk result (λ n. n ≡ map (λ w. w.now) names.entry.items) }
    {
        let numbers = numbers_of(alloc, names.as_slice())?;
        Ok(Names { names, numbers })
    }

    /// The number of a name, and 0 where it is unknown.
    pub fn number(&self, word: &str) -> u32
        ensures { result ≡ document.position_from 1 self.now word.now }
    {
        number_at(&self.numbers, word)
    }
}

/// The number of a name, and 0 where it has none.
fn number_at(index: &IndexMap<&str, u32>, word: &str) -> u32
    ensures { result ≡ unwrap_or (get_by (λ k. bytes_eq word.now k.now) index.now) 0 }
{
    match index.get(word) {
        Some(n) => *n,
        None => 0,
    }
}

/// Each name with its first position, from 1.
fn numbers_of<'a>(
    alloc: Global,
    names: &[&'a str],
) -> Result<IndexMap<&'a str, u32>, AllocFailed<(&'a str, u32)>>
    requires { length names.now + 1 < 2 ^ 32 }
    ensures { IfOk result (λ m. (w : List ℕ)
        → unwrap_or (get_by (λ k. bytes_eq w k.now) m) 0
        ≡ document.position_from 1 (map (λ k. k.now) names.now) w) }
{
    let mut index: IndexMap<&'a str, u32> = IndexMap::new(alloc);
    for (i, name) in names.iter().enumerate() {
        if number_at(&index, *name) == 0 {
            index.insert(*name, i as u32 + 1)?;
        }
    }
    Ok(index)
}
