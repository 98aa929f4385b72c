//! The text of trace events, from what they tell of each group as data.
#![tactic(auto)]

ghost use Rattle.event_lines.specs.TrackLaws.{TracksTellEvents};

mod budgets;
mod cpu_spans;
mod elements;
mod groups;
mod job_marks;
mod names;
mod put;
mod records;
mod task_spans;
mod text_pieces;
mod texts;
mod threads;
mod tracks;

pub use texts::event_text;
pub use tracks::{
    BudgetSpan, CpuSpan, CpuTrack, Due, GroupTracks, JobMarks, ResvTrack, TaskSpan, TaskTrack,
};

/// The tracks of the groups of a set, after their histories, tell the trace events of those.
pub fn tracks_tell_events()
    ensures { TracksTellEvents }
{}
