//! The clocks of a window's columns.
ghost use Rattle.std.specs.Prelude.{◌≡◌, ◌+◌, ◌-◌, ◌^◌, ◌<◌, ◌∷◌, ◌++◌, [], ℕ, IfOk, List, OnOk, Some, if◌then◌else◌, min, nat_lt, ◌==◌};
ghost use Rattle.rt_base.specs.declared.TheConstants.{TICK_END};
ghost use Rattle.rt_rules.specs.Numbers.{numbers_from};
ghost use Rattle.chart_feed.specs.EntryClocks.{clocks_in};
ghost use Rattle.chart_feed.specs.Over as over;
ghost use Rattle.chart_feed.specs.WindowStrips.{is_in};

use chart_texts::Window;
use rt_base::NoMemory;
use std::alloc::Global;
use std::marker::Model;

/// Whether a column is in the window.
pub(crate) fn is_in(window: Window, column: u64) -> bool
    ensures { result ≡ is_in window column }
{
    window.from <= column && column < window.to
}

/// Whether there is an other clock, and it is before this one.
pub(crate) fn is_before(clock: u64, other: Option<u64>) -> bool
    ensures { result ≡ over.is_before clock other }
{
    match other {
        Some(other) => other < clock,
        None => false,
    }
}

/// The columns of a window that has so many, from 0 on.
pub(crate) fn numbers_in(alloc: Global, window: Window, count: u64) -> Result<Vec<u64>, NoMemory>
    ensures { IfOk result
        (λ v. v.items ≡ numbers_from window.from (min count window.to - window.from)) }
{
    let mut numbers = Vec::new(alloc);
    for column in window.from..count.min(window.to) {
        numbers.push(column)?;
    }
    Ok(numbers)
}

/// Where the window's first column begins, after an entry.
fn first_after(window: Window, entry: u64, first: u64, clock: u64) -> u64
    requires { clock < TICK_END }
    ensures { result ≡ (if nat_lt entry window.from then clock + 1 else first) }
{
    if entry < window.from {
        clock + 1
    } else {
        first
    }
}

/// The clock behind the window, after an entry.
fn after_window(window: Window, entry: u64, after: Option<u64>, clock: u64) -> Option<u64>
    ensures { result ≡ (if entry == window.to then Some clock else after) }
{
    if entry == window.to {
        Some(clock)
    } else {
        after
    }
}

/// How many entries there were, and the clocks of those in a window: where its first column begins, the clocks after each, and that
/// after the entry behind the window.
#[derive(Drop)]
pub(crate) struct EntryClocks {
    pub(crate) count: u64,
    pub(crate) first: u64,
    pub(crate) clocks: Vec<u64>,
    pub(crate) after: Option<u64>,
}

impl Model for EntryClocks {
    ghost use Rattle.chart_feed.specs.EntryClocks.{EntriesKept};

    ghost Value = { EntriesKept };

    ghost view = { λ a. record {
      count = a.count;
      first = a.first;
      clocks = a.clocks.items;
      after = a.after;
    } };
}

impl EntryClocks {
    /// Before the first entry.
    pub(crate) fn new(alloc: Global) -> EntryClocks
        ensures { (w : Window) → result ≡ clocks_in w [] }
    {
        EntryClocks {
            count: 0,
            first: 0,
            clocks: Vec::new(alloc),
            after: None,
        }
    }

    /// Takes the clock after an entry.
    pub(crate) fn note(&mut self, window: Window, clock: u64) -> Result<(), NoMemory>
        requires count { self.old.count < 2 ^ 32 }
        requires clock { clock < TICK_END }
        ensures { OnOk result ((cs : List ℕ) → self.old ≡ clocks_in window cs
            → self.new ≡ clocks_in window (cs ++ clock ∷ [])) }
    {
        let entry = self.count;
        self.count += 1;
        self.first = first_after(window, entry, self.first, clock);
        self.after = after_window(window, entry, self.after, clock);
        if is_in(window, entry) {
            self.clocks.push(clock)?;
        }
        Ok(())
    }
}
