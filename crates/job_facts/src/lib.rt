//! What is kept of the jobs of a group as its history goes on, and what each move makes of it. Definitions and laws; each function
//! has a law as its contract, and does nothing.
#![tactic(auto)]

ghost use Rattle.job_facts.specs.JobLaws.{JobsAreKept, RowsAreKept, SumsAreKept, TalliesAreFew};

/// What is kept of the jobs of a task goes by its deeds, move by move.
pub fn jobs_are_kept()
    ensures { JobsAreKept }
{}

/// No count of a job is above the number of entries.
pub fn tallies_are_few()
    ensures { TalliesAreFew }
{}

/// The lines of the table of jobs are read off what is kept.
pub fn rows_are_kept()
    ensures { RowsAreKept }
{}

/// The lines of the table of tasks are read off what the lines of jobs come to.
pub fn sums_are_kept()
    ensures { SumsAreKept }
{}
