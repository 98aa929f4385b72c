//! A list that only proofs read. It takes no memory, and its calls do nothing at run time.
#![tactic(auto)]

ghost use Rattle.std.specs.Prelude.{◌≡◌, List, [], ◌∷◌, ◌++◌};
ghost use Rattle.std.specs.Borrow.{ftrue};

use std::marker::{Model, PhantomData};

/// A list that only proofs read, as `items`: what code no longer needs, and a contract still speaks of.
#[derive(Drop)]
pub struct GhostList<T> {
    of: PhantomData<T>,
    pub ghost items: { List T },
}

impl<T> Model for GhostList<T> {
    ghost also_owns = { λ _. ftrue };
}

// It owns nothing.
unsafe impl<T: Send> Send for GhostList<T> {}

impl<T> GhostList<T> {
    /// The empty list.
    pub fn new() -> GhostList<T>
        ensures { result.items ≡ [] }
    {
        GhostList { of: PhantomData }
    }

    /// The list with one item more, behind the others.
    pub fn with(&self, item: &T) -> GhostList<T>
        ensures { result.items ≡ self.now.items ++ item.now ∷ [] }
    {
        GhostList { of: PhantomData }
    }
}
