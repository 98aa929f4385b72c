//! The clusters whose links were placed in a step.
ghost use Rattle.std.specs.Prelude.{◌≡◌, ◌<◌, ℕ, IfOk, false, length, replicate, slice_index_or, slice_set, true};

use rt_base::NoMemory;
use std::alloc::Global;
use std::marker::Model;

/// By the number of each cluster of a set, whether its links were placed.
#[derive(Drop)]
pub(crate) struct PlacedClusters {
    marks: Vec<bool>,
    // Whether there is a mark.
    any: bool,
}

impl Model for PlacedClusters {
    ghost use Rattle.std.specs.Prelude.{◌≡◌, ℕ, Bool, List, false, slice_index_or};

    ghost Value = { List Bool };

    ghost view = { λ a. a.marks.items };

    ghost invariant = { λ a. a.any ≡ false → (c : ℕ) → slice_index_or a.marks.items c false ≡ false };
}

impl PlacedClusters {
    /// None of `count` clusters.
    pub(crate) fn new(alloc: Global, count: usize) -> Result<PlacedClusters, NoMemory>
        ensures { IfOk result (λ p. p ≡ replicate count false) }
    {
        Ok(PlacedClusters {
            marks: vec![in alloc; false; count]?,
            any: false,
        })
    }

    /// Whether there are some.
    pub(crate) fn has_any(&self) -> bool
        ensures { result ≡ false → (c : ℕ) → slice_index_or self.now c false ≡ false }
    {
        self.any
    }

    /// Whether the cluster is one of them.
    pub(crate) fn has(&self, cluster: usize) -> bool
        requires { cluster < length self.now }
        ensures { result ≡ slice_index_or self.now cluster false }
    {
        self.marks[cluster]
    }

    /// Forgets them.
    pub(crate) fn clear(&mut self)
        ensures { length self.new ≡ length self.old }
    {
        if self.any {
            self.marks.as_mut_slice().fill(false);
            self.any = false;
        }
    }

    /// Adds the cluster.
    pub(crate) fn add(&mut self, cluster: usize)
        requires { cluster < length self.old }
        ensures { self.new ≡ slice_set self.old cluster true }
    {
        self.marks[cluster] = true;
        self.any = true;
    }
}
