//! The laws of what is shown of a trace beside what its tools count. Each function has a law as its contract, and does nothing.
#![tactic(auto)]

ghost use Rattle.view_laws.specs.Moves.{MovesAreCounted};
ghost use Rattle.view_laws.specs.Sets.{SetTotalsAreCounts};
ghost use Rattle.view_laws.specs.Totals.{TotalsAreCounts};

/// Of a group: the late jobs and the units in the table of tasks are as many as the tools count of its entries.
pub fn totals_are_counts()
    ensures { TotalsAreCounts }
{}

/// Of a set: the late jobs in all tables together are what the tool for misses says of the trace, and the units all accepted Works.
pub fn set_totals_are_counts()
    ensures { SetTotalsAreCounts }
{}

/// Of a group: the moves in the table of tasks are as many as the tool for migrations counts of its entries.
pub fn moves_are_counted()
    ensures { MovesAreCounted }
{}
