//! What a tool is.
ghost use Rattle.std.specs.Prelude.{◌≡◌};
ghost use Rattle.trace_tools.specs.Tools.{Tool, fed, total_of, has_ended};

use crate::shown::Shown;

/// Counts something of the entries of a trace.
///
/// Contracts see a tool as a state of numbers with four rules: the state after an entry, each total of a state, whether a
/// state has ended, and the tool's name. No call takes memory.
pub trait TraceTool: Drop {
    /// What the tool is to contracts: its rules, and its state.
    ghost tool: { Self → Tool };

    /// Takes one entry. The state changes by its rule, and the rules stay as they are.
    fn feed(&mut self, e: &Shown)
        ensures { tool self.new ≡ fed e.now (tool self.old) };

    /// The total with this number, from 0 on; `None` where there is none.
    fn total(&self, i: u32) -> Option<u64>
        ensures { result ≡ total_of (tool self.now) i };

    /// Whether the tool has ended: it is fed no more entries.
    fn ended(&self) -> bool
        ensures { result ≡ has_ended (tool self.now) };

    /// The letter of ASCII that its count line begins with.
    fn name(&self) -> u8
        ensures { let t = tool self.now in result ≡ t.rules.name };
}
