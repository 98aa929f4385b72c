//! A tool's counter in a bus.
ghost use Rattle.std.specs.Prelude.{◌≡◌, ◌≤◌, IfOk};
ghost use Rattle.rt_base.specs.declared.TheConstants.{MOST_TOTALS};

use crate::shown::Shown;
use crate::tool::TraceTool;
use crate::totals::put_totals;
use rt_base::{MOST_TOTALS, NoMemory};
use std::alloc::Global;
use trace_lines::put_count_line;

const TOTALS: usize = MOST_TOTALS as usize;

/// A tool that counts, or the name and the totals of one that has ended and was dropped.
#[derive(Drop)]
pub struct ToolCounter<T> {
    tool: Option<T>,
    name: u8,
    totals: [u64; TOTALS],
    count: usize,
    ghost within: { count ≤ MOST_TOTALS },
}

impl<T: TraceTool> ToolCounter<T> {
    ghost use Rattle.trace_lines.specs.Grammar.{line_text};
    ghost use Rattle.trace_lines.specs.Known.{Known};
    ghost use Rattle.trace_tools.specs.Counters.{counter_of, counter_after, counter_line, closed, fed_counter};
    ghost use Rattle.trace_tools.specs.BusCounters.{counter};

    pub fn of(tool: T) -> ToolCounter<T>
        ensures { counter T.tool result ≡ counter_of (T.tool tool) }
    {
        let mut counter = ToolCounter {
            tool: Some(tool),
            name: 0,
            totals: [0; TOTALS],
            count: 0,
        };
        counter.close_ended();
        counter
    }

    fn close_ended(&mut self)
        ensures { counter T.tool self.new ≡ closed (counter T.tool self.old) }
    {
        let Some(tool) = &self.tool else {
            return;
        };
        if !tool.ended() {
            return;
        }
        self.name = tool.name();
        self.count = put_totals(tool, &mut self.totals);
        self.tool = None;
    }

    #[inline(always)]
    pub fn feed(&mut self, e: &Shown)
        ensures { counter T.tool self.new ≡ counter_after e.now (counter T.tool self.old) }
    {
        let Some(tool) = &mut self.tool else {
            return;
        };
        tool.feed(e);
        if tool.ended() {
            self.close_ended();
        }
    }

    pub fn line(&self, alloc: Global) -> Result<Vec<u8>, NoMemory>
        ensures { (k : Known)
            → IfOk result (λ v. v.items ≡ line_text k (counter_line (counter T.tool self.now))) }
    {
        let mut line = Vec::new(alloc);
        match &self.tool {
            Some(tool) => {
                let mut totals = [0; TOTALS];
                let count = put_totals(tool, &mut totals);
                put_count_line(&mut line, tool.name(), &totals[..count])?;
            }
            None => put_count_line(&mut line, self.name, &self.totals[..self.count])?,
        }
        Ok(line)
    }
}
