//! A list of tools, each fed up to the entry after which it ends.
ghost use Rattle.std.specs.Prelude.{◌≡◌, ◌<◌, ◌^◌, map, length, slice_get, IfOk, IfSome};
ghost use Rattle.trace_lines.specs.Grammar.{line_text};
ghost use Rattle.trace_lines.specs.Known.{Known};
ghost use Rattle.trace_tools.specs.Counters.{counter_of, counter_after, counter_line};
ghost use Rattle.trace_tools.specs.BusCounters.{counters};

use crate::shown::Shown;
use crate::tool::TraceTool;
use crate::tool_counter::ToolCounter;
use rt_base::NoMemory;
use std::alloc::Global;

/// The tools of a trace, in the order in which they were handed in.
///
/// Contracts see a counter for each: its tool as long as that counts, and from then on its name and totals. Only `open` and
/// `line` take memory.
#[derive(Drop)]
pub struct Bus<T> {
    counters: Vec<ToolCounter<T>>,
}

impl<T: TraceTool> Bus<T> {
    /// A bus of these tools. One that has ended already is dropped, and its totals are kept.
    pub fn open(alloc: Global, tools: Vec<T>) -> Result<Bus<T>, NoMemory>
        ensures { IfOk result (λ b. counters T.tool b ≡ map (λ t. counter_of (T.tool t)) tools.items) }
    {
        let mut counters = Vec::new(alloc);
        for tool in tools {
            counters.push(ToolCounter::of(tool))?;
        }
        Ok(Bus { counters })
    }

    /// How many tools were handed in.
    pub fn count(&self) -> usize
        ensures { result ≡ length (counters T.tool self.now) }
    {
        self.counters.len()
    }

    /// Feeds the entry to each tool that has not ended. One that now has ended is dropped, and its totals are kept.
    #[inline(always)]
    pub fn feed(&mut self, e: &Shown)
        ensures { counters T.tool self.new ≡ map (counter_after e.now) (counters T.tool self.old) }
    {
        for i in 0..self.counters.len() {
            self.counters[i].feed(e);
        }
    }

    /// The count line of the tool with this number, from 0 on, with its line feed.
    pub fn line(&self, alloc: Global, i: u32) -> Result<Vec<u8>, NoMemory>
        requires { i < length (counters T.tool self.now) }
        ensures { (k : Known)
            → IfOk result (λ v. IfSome (slice_get (counters T.tool self.now) i) (λ s. v.items
            ≡ line_text k (counter_line s))) }
    {
        self.counters[i as usize].line(alloc)
    }
}
