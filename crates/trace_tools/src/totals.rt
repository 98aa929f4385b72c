//! The totals of a tool, up to the first that there is none of.
ghost use Rattle.std.specs.Prelude.{◌≡◌, ◌≤◌, length, take};
ghost use Rattle.rt_base.specs.declared.TheConstants.{MOST_TOTALS};
ghost use Rattle.trace_tools.specs.Tools.{totals};

use crate::tool::TraceTool;
use rt_base::MOST_TOTALS;

/// Writes the totals of a tool in front, and says how many there are.
pub(crate) fn put_totals<T: TraceTool>(tool: &T, numbers: &mut [u64]) -> usize
    requires { length numbers.old ≡ MOST_TOTALS }
    ensures count { result ≤ MOST_TOTALS }
    ensures totals { take result numbers.new ≡ totals (T.tool tool.now) }
{
    for i in 0..MOST_TOTALS {
        match tool.total(i) {
            Some(n) => numbers[i as usize] = n,
            None => return i as usize,
        }
    }
    MOST_TOTALS as usize
}
