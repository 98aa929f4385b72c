//! Keys of tasks and their order, replies and entries of histories, and the rules of scheduling and locking on plain lists:
//! queues, walks and placing, with no setup and no past.
#![tactic(auto)]

ghost use Rattle.std.specs.Prelude.{◌≡◌};
ghost use Rattle.rt_rules.specs.KeyOrder.{higher};

mod history;
mod order;
mod plugin;
mod steps;

pub use history::{Entry, Reply, Situation};
pub use order::{ByKey, Order, Ordered};
pub use plugin::Plugin;
pub use steps::Steps;

/// A priority. Of two keys the one with the smaller (band, major, minor) is the higher, compared in that order.
#[derive(Clone, Copy, Debug, PartialEq, Eq)]
pub struct Key {
    pub band: u32,
    pub major: u64,
    pub minor: u32,
}

impl Key {
    /// The lowest of all keys.
    pub const LOWEST: Key = Key {
        band: u32::MAX,
        major: u64::MAX,
        minor: u32::MAX,
    };

    /// Whether this key is higher than the other.
    pub fn is_higher(self, other: Key) -> bool
        ensures { result ≡ higher self other }
    {
        self.band < other.band
            || self.band == other.band
                && (self.major < other.major
                    || self.major == other.major && self.minor < other.minor)
    }
}
