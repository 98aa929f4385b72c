//! The row of a reservation while columns go on.
ghost use Rattle.std.specs.Prelude.{◌≡◌, [], ◌∷◌, ◌++◌, None, OnOk, unwrap_or};
ghost use Rattle.chart_cells.specs.KeptFirstLaws.{unless_kept};

use rt_base::{NoMemory, ResvNo};
use std::alloc::Global;
use std::marker::Model;

/// A reservation: what is left of it in the columns that are over, and before the first unit of a client in the column that goes
/// on, if there was one.
#[derive(Drop)]
pub struct ResvFeed {
    pub resv: ResvNo,
    pub closed: Vec<u64>,
    pub kept: Option<u64>,
}

impl Model for ResvFeed {
    ghost use Rattle.chart_rows.specs.Rows.{ResvKept};

    ghost Value = { ResvKept };

    ghost view = { λ a. record { resv = a.resv.0; left = a.closed.items; kept = a.kept } };
}

impl ResvFeed {
    /// Before the first column.
    pub(crate) fn new(alloc: Global, resv: ResvNo) -> ResvFeed
        ensures { result ≡ record { resv = resv.0; left = []; kept = None } }
    {
        ResvFeed {
            resv,
            closed: Vec::new(alloc),
            kept: None,
        }
    }

    /// The number of the reservation.
    pub(crate) fn resv(&self) -> ResvNo
        ensures { result.0 ≡ self.now.resv }
    {
        self.resv
    }

    /// Takes a unit of a client, before which this was left.
    pub(crate) fn work(&mut self, left: u64)
        ensures { self.new ≡ record self.old { kept = unless_kept self.old.kept left } }
    {
        if self.kept.is_none() {
            self.kept = Some(left);
        }
    }

    /// Ends the column, where this is left.
    pub(crate) fn close(&mut self, left: u64) -> Result<(), NoMemory>
        ensures { OnOk result (self.new ≡ record {
          resv = self.old.resv;
          left = self.old.left ++ unwrap_or self.old.kept left ∷ [];
          kept = None;
        }) }
    {
        let ends = self.kept.unwrap_or(left);
        self.kept = None;
        self.closed.push(ends)?;
        Ok(())
    }
}
