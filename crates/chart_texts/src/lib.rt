//! What a chart of a trace shows, and the text of a chart in characters, to the byte. Definitions over the pasts of groups, and their laws.
#![tactic(auto)]

ghost use Rattle.chart_texts.specs.BarLaws.{BarsAgree};
ghost use Rattle.chart_texts.specs.WidthLaws.{RowsFillWindow};

mod window;

pub use window::{Axis, Window};

/// In each column a processor stands in a task's bar of work exactly where the task stands in the processor's.
pub fn bars_agree()
    ensures { BarsAgree }
{}

/// Each row of a group has a cell for each column of the group in the window, and two characters for each cell.
pub fn rows_fill_window()
    ensures { RowsFillWindow }
{}
