//! The moments that tasks wait for.
ghost use Rattle.std.specs.Prelude.{◌≡◌, ◌<◌, ◌≤◌, ◌^◌, ℕ, IfOk, length, replicate, slice_set, vec_capacity};
ghost use Rattle.rt_model.specs.Releases.{has_come};
ghost use Rattle.rt_base.specs.TaskNos.{numbers};
ghost use Rattle.rank_afresh.specs.Moments.{AreTakenOut, due_in};

use rt_base::{NoMemory, TaskNo};
use std::alloc::Global;
use std::marker::Model;

/// By each task's number the moment that it waits for, if any.
#[derive(Drop)]
pub(crate) struct Moments {
    ticks: Vec<Option<u64>>,
    // No task waits for a moment before this one.
    next: u64,
}

impl Model for Moments {
    ghost use Rattle.std.specs.Prelude.{ℕ, List, Option};
    ghost use Rattle.rank_afresh.specs.Moments.{IsLeast};

    ghost Value = { List (Option ℕ) };

    ghost view = { λ a. a.ticks.items };

    ghost invariant = { λ a. IsLeast a.next a.ticks.items };
}

/// Whether the moment, if there is one, has come.
fn is_due(moment: Option<u64>, clock: u64) -> bool
    ensures { result ≡ has_come clock moment }
{
    match moment {
        None => false,
        Some(tick) => tick <= clock,
    }
}

/// The earlier of a moment, if there is one, and another.
fn earlier(moment: Option<u64>, other: u64) -> u64
    ensures low { result ≤ other }
    ensures least { (n : ℕ) → moment ≡ Some n → result ≤ n }
{
    match moment {
        None => other,
        Some(tick) => other.min(tick),
    }
}

impl Moments {
    /// No task waits for a moment; there is room for this many numbers.
    pub(crate) fn new(alloc: Global, count: usize) -> Result<Moments, NoMemory>
        ensures { IfOk result (λ m. m ≡ replicate count None) }
    {
        Ok(Moments {
            ticks: vec![in alloc; None; count]?,
            next: u64::MAX,
        })
    }

    /// The task waits for this moment now, or for none.
    pub(crate) fn put(&mut self, task: TaskNo, moment: Option<u64>)
        requires { task.0 < length self.old }
        ensures { self.new ≡ slice_set self.old task.0 moment }
    {
        self.ticks[task.0 as usize] = moment;
        self.next = earlier(moment, self.next);
    }

    /// Lists the tasks whose moment has come, and forgets their moments.
    pub(crate) fn take_due(&mut self, clock: u64, due: &mut Vec<TaskNo>)
        requires some { 1 ≤ length self.old }
        requires few { length self.old < 2 ^ 32 }
        requires room { length self.old ≤ vec_capacity due.old }
        ensures due { numbers due.new.items ≡ due_in clock self.old }
        ensures taken_out { AreTakenOut (due_in clock self.old) self.old self.new }
        ensures capacity { vec_capacity due.old ≤ vec_capacity due.new }
    {
        due.clear();
        if clock < self.next {
            return;
        }
        let mut next = u64::MAX;
        for i in 1..self.ticks.len() {
            let moment = self.ticks[i];
            if is_due(moment, clock) {
                self.ticks[i] = None;
                due.push_reserved(TaskNo(i as u32));
            } else {
                next = earlier(moment, next);
            }
        }
        self.next = next;
    }
}
