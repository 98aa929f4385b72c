//! Laws of traces, whose contracts are the statements.
#![tactic(auto)]

ghost use Rattle.trace_laws.specs.TraceLaws.{CountedTraceIsRead, NamesTellTasksApart, OneThreadTraceIsValid};
ghost use Rattle.trace_laws.specs.TraceLaws.{TraceIsNotRefused, TraceIsRead, TracesTellApart, VersionsTellApart};
ghost use Rattle.trace_laws.specs.Upgrades.{UpgradeIsKept, UpgradeIsThere, UpgradeIsValid};

/// What is read of the text of plays of a set is the format, the set and all the lines, and no line is left.
pub fn trace_is_read()
    ensures { TraceIsRead }
{}

/// The same of the text with the count lines of tools behind it, where these are lines of the grammar: each tool's name is
/// a letter, and its totals fit 64 bits.
pub fn counted_trace_is_read()
    ensures { CountedTraceIsRead }
{}

/// Such a text, with count lines or without, is not refused.
pub fn trace_is_not_refused()
    ensures { TraceIsNotRefused }
{}

/// Different plays of one set have different texts in each format, whatever tools counted behind them.
pub fn traces_tell_apart()
    ensures { TracesTellApart }
{}

/// Texts of different formats differ.
pub fn versions_tell_apart()
    ensures { VersionsTellApart }
{}

/// Each task of a valid set has a name by the rules of sets, and no other task has it. A name has no space and no line
/// feed by these rules, so that a line of format 2 names its tasks in one way.
pub fn names_tell_tasks_apart()
    ensures { NamesTellTasksApart }
{}

/// The trace of the histories that one thread gives of a set is a valid one of it in each format, with the count lines of
/// all tools or without. So `check`, where it checks traces of the set, has to find valid what `sim` writes.
pub fn one_thread_trace_is_valid()
    ensures { OneThreadTraceIsValid }
{}

/// A valid text of either format has exactly one upgrade: the text in format 2 of the same set and histories, with the
/// count lines of all the tools behind it.
pub fn upgrade_is_there()
    ensures { UpgradeIsThere }
{}

/// The upgrade of a valid text is a valid text of the same set, with the same number of entries.
pub fn upgrade_is_valid()
    ensures { UpgradeIsValid }
{}

/// Upgrading again gives the same text.
pub fn upgrade_is_kept()
    ensures { UpgradeIsKept }
{}
