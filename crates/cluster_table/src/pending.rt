//! What has become of the first of a cluster's eligible tasks since its links were placed.
ghost use Rattle.std.specs.Prelude.{◌≡◌};
ghost use Rattle.cluster_table.specs.Pending.{after_change, is_nothing};

use ready_queue::TopChange;

/// What has become of the first of a cluster's eligible tasks since its links were placed.
#[derive(Clone, Copy)]
pub(crate) enum Pending {
    /// They are the same ones, in whatever order.
    Nothing,
    /// One change took a task from them and brought one to them, or did one of both.
    One(TopChange),
    /// Several changes did.
    Several,
}

impl Pending {
    pub(crate) fn is_nothing(self) -> bool
        ensures { result ≡ is_nothing self }
    {
        matches!(self, Pending::Nothing)
    }

    /// What it is after one more change.
    pub(crate) fn after(self, change: TopChange) -> Pending
        ensures { result ≡ after_change change self }
    {
        if change.is_none() {
            self
        } else if self.is_nothing() {
            Pending::One(change)
        } else {
            Pending::Several
        }
    }
}
