//! Tools that count over the entries of a trace, and the bus that feeds them.
//!
//! The entries are shown in the order in which they are printed, group by group. A tool is fed each of them up to the one
//! after which it has ended. Its totals make its count line.
#![tactic(auto)]

ghost use Rattle.trace_tools.specs.Laws.{BusesKeepTools};

mod bus;
mod first_miss;
mod migrations;
mod misses;
mod occupancy;
mod shipped;
mod shown;
mod switches;
mod tool;
mod tool_counter;
mod totals;

pub use bus::Bus;
pub use first_miss::FirstMiss;
pub use migrations::Migrations;
pub use misses::Misses;
pub use occupancy::Occupancy;
pub use shipped::{ShippedTool, shipped_tools};
pub use shown::Shown;
pub use switches::Switches;
pub use tool::TraceTool;

/// The lines of a bus are those of its tools, each fed every entry in order up to the one after which it ended.
pub fn buses_keep_tools()
    ensures { BusesKeepTools }
{}
