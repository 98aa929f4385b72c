//! What is shown of a trace: the jobs and the tasks of a group in tables, and what tasks, processors and reservations do in the columns of
//! a picture, by ticks or by entries. Definitions over the past of a group, and their laws. Each function has a law as its contract, and
//! does nothing.
#![tactic(auto)]

ghost use Rattle.trace_views.specs.SpanLaws.{SpansAreExpanded, SpansAreSideBySide};
ghost use Rattle.trace_views.specs.TableLaws.{LateEndedLate, RowsCountAll};

/// The spans of a row, written out, are its values.
pub fn spans_are_expanded<T>()
    ensures { SpansAreExpanded T }
{}

/// The spans of a row stand side by side and fill it, so that no two overlap; neighbours have different values.
pub fn spans_are_side_by_side<T>()
    ensures { SpansAreSideBySide T }
{}

/// The lines of the jobs of a task count each of its units, preemptions, moves and requests, and each once.
pub fn rows_count_all()
    ensures { RowsCountAll }
{}

/// The late jobs of a task are those that ended when the clock was past their deadline.
pub fn late_ended_late()
    ensures { LateEndedLate }
{}
