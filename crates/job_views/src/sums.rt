//! What lines of jobs come to.
ghost use Rattle.std.specs.Prelude.{◌≡◌, ◌+◌, ◌*◌, ◌<◌, ◌≤◌, ◌^◌, ℕ, pos, neg_ℤ, ◌≤ℤ◌, unwrap_or, if◌then◌else◌};
ghost use Rattle.trace_views.specs.TaskRows.{greater, is_late};
ghost use Rattle.job_facts.specs.Sums as facts;
ghost use Rattle.job_views.specs.RowsShown.{outcome_shown, row_shown};
ghost use Rattle.job_views.specs.inside.SumsShown.{FitsRows, sums_shown};

use crate::row::{JobRow, Outcome};

/// What lines of jobs of a task come to.
#[derive(Clone, Copy)]
pub(crate) struct Sums {
    pub(crate) late: u32,
    pub(crate) units: u64,
    pub(crate) response_max: Option<i64>,
    pub(crate) response_sum: Option<i128>,
    pub(crate) lateness_max: Option<i64>,
    pub(crate) preemptions: u64,
    pub(crate) migrations: u64,
    pub(crate) moves: u64,
    pub(crate) requests: u64,
    pub(crate) queued: u64,
}

/// The greater of two numbers, where each may be missing.
fn greater(a: Option<i64>, b: Option<i64>) -> Option<i64>
    ensures { result ≡ facts.with_number greater a b }
{
    match (a, b) {
        (Some(a), Some(b)) if a < b => Some(b),
        (None, b) => b,
        (a, _) => a,
    }
}

/// The sum of two numbers, where each may be missing.
fn plus(a: Option<i128>, b: Option<i64>) -> Option<i128>
    requires low { neg_ℤ (pos (2 ^ 100)) ≤ℤ unwrap_or a (pos 0) }
    requires high { unwrap_or a (pos 0) ≤ℤ pos (2 ^ 100) }
    ensures sum { result ≡ facts.with_number facts.plus a b }
    ensures low { (m : ℕ) → neg_ℤ (pos m) ≤ℤ unwrap_or a (pos 0)
        → neg_ℤ (pos (m + 2 ^ 64)) ≤ℤ unwrap_or result (pos 0) }
    ensures high { (m : ℕ) → unwrap_or a (pos 0) ≤ℤ pos m
        → unwrap_or result (pos 0) ≤ℤ pos (m + 2 ^ 64) }
{
    match (a, b) {
        (Some(a), Some(b)) => Some(a + i128::from(b)),
        (None, Some(b)) => Some(i128::from(b)),
        (a, None) => a,
    }
}

/// How many jobs are late with one more.
fn late_with(late: u32, outcome: Outcome) -> u32
    requires { late < 2 ^ 21 }
    ensures late { result
        ≡ (if is_late (outcome_shown outcome) then late + 1 else late) }
    ensures few { result ≤ late + 1 }
{
    match outcome {
        Outcome::Late => late + 1,
        _ => late,
    }
}

impl Sums {
    /// Of no lines.
    pub(crate) fn new() -> Sums
        ensures none { sums_shown result ≡ facts.no_sums }
        ensures fits { FitsRows 0 result }
    {
        Sums {
            late: 0,
            units: 0,
            response_max: None,
            response_sum: None,
            lateness_max: None,
            preemptions: 0,
            migrations: 0,
            moves: 0,
            requests: 0,
            queued: 0,
        }
    }

    /// With one more line.
    pub(crate) fn add(&mut self, row: &JobRow)
        requires { (n : ℕ) × (n < 2 ^ 21) × FitsRows n self.old }
        ensures added { sums_shown self.new ≡ facts.added (row_shown row.now) (sums_shown self.old) }
        ensures fits { (n : ℕ) → FitsRows n self.old → FitsRows (n + 1) self.new }
    {
        self.late = late_with(self.late, row.outcome);
        self.units += u64::from(row.units);
        self.response_max = greater(self.response_max, row.response);
        self.response_sum = plus(self.response_sum, row.response);
        self.lateness_max = greater(self.lateness_max, row.lateness);
        self.preemptions += u64::from(row.preemptions);
        self.migrations += u64::from(row.migrations);
        self.moves += u64::from(row.moves);
        self.requests += u64::from(row.requests);
        self.queued += u64::from(row.queued);
    }
}
