//! Which clusters were placed anew.
ghost use Rattle.std.specs.Prelude.{◌≡◌, false, true, IfOk, length, replicate, slice_set};
ghost use Rattle.cluster_table.specs.declared.marks.Marked.TheVariants as kinds;
ghost use Rattle.cluster_table.specs.Marks.{has_any, has_mark, is_several, only_one, with_mark};

use rt_base::{ClusterNo, NoMemory};
use std::alloc::Global;
use std::marker::Model;

/// Which clusters have a mark.
#[derive(Clone, Copy)]
pub enum Marked {
    /// None has one.
    Nothing,
    /// This one alone.
    Only(ClusterNo),
    /// Several have one.
    Several,
}

impl Marked {
    fn is_several(self) -> bool
        ensures { result ≡ is_several self }
    {
        matches!(self, Marked::Several)
    }
}

/// The clusters of a set whose links were placed anew since the marks were taken away last.
#[derive(Drop)]
pub struct PlacedMarks {
    // By the number of each cluster whether it has a mark. It is written only where several have one, so that in the
    // frequent case of one cluster nothing has to be taken away.
    marks: Vec<bool>,
    marked: Marked,
}

impl Model for PlacedMarks {
    ghost use Rattle.std.specs.Prelude.{◌≡◌, false, length, replicate};
    ghost use Rattle.cluster_table.specs.Marks as seen;

    ghost Value = { seen.Marks };

    ghost view = { λ a. record { marks = a.marks.items; marked = a.marked } };

    ghost invariant = { λ a. seen.is_several a.marked ≡ false
        → a.marks.items ≡ replicate (length a.marks.items) false };
}

impl PlacedMarks {
    /// No mark, for `count` clusters.
    pub fn new(alloc: Global, count: usize) -> Result<PlacedMarks, NoMemory>
        ensures { IfOk result (λ m. m
            ≡ record { marks = replicate count false; marked = kinds.Nothing }) }
    {
        Ok(PlacedMarks {
            marks: vec![in alloc; false; count]?,
            marked: Marked::Nothing,
        })
    }

    /// Marks a cluster. One that is none of the set has a mark while it alone has one, and while several have one.
    pub fn mark(&mut self, c: ClusterNo)
        ensures { self.new ≡ with_mark c self.old }
    {
        match self.marked {
            Marked::Nothing => self.marked = Marked::Only(c),
            Marked::Only(d) => {
                if c.0 != d.0 {
                    put_mark(self.marks.as_mut_slice(), d);
                    put_mark(self.marks.as_mut_slice(), c);
                    self.marked = Marked::Several;
                }
            }
            Marked::Several => put_mark(self.marks.as_mut_slice(), c),
        }
    }

    /// Takes all marks away.
    pub fn clear(&mut self)
        ensures { self.new ≡ record {
          marks = replicate (length self.old.marks) false;
          marked = kinds.Nothing;
        } }
    {
        if self.marked.is_several() {
            self.marks.as_mut_slice().fill(false);
        }
        self.marked = Marked::Nothing;
    }

    /// Whether a cluster has a mark.
    pub fn has_any(&self) -> bool
        ensures { result ≡ has_any self.now }
    {
        !matches!(self.marked, Marked::Nothing)
    }

    /// The only cluster with a mark; `None` where none has one, and where several may have one.
    pub fn only(&self) -> Option<ClusterNo>
        ensures { result ≡ only_one self.now }
    {
        match self.marked {
            Marked::Only(c) => Some(c),
            _ => None,
        }
    }

    /// Whether the cluster has a mark, or is none of the set while several have one.
    pub fn has(&self, c: ClusterNo) -> bool
        ensures { result ≡ has_mark self.now c.0 }
    {
        match self.marked {
            Marked::Nothing => false,
            Marked::Only(d) => c.0 == d.0,
            Marked::Several => match self.marks.get(c.0 as usize) {
                Some(mark) => *mark,
                None => true,
            },
        }
    }
}

/// Writes that a cluster has a mark, if it is one of the set.
fn put_mark(marks: &mut [bool], c: ClusterNo)
    ensures { marks.new ≡ slice_set marks.old c.0 true }
{
    let place = c.0 as usize;
    if place < marks.len() {
        marks[place] = true;
    }
}
