//! The clusters that the end of a move goes to.
ghost use Rattle.std.specs.Prelude.{◌≡◌, ℕ, ◌<◌, [], IfOk, Option, Some, true};
ghost use Rattle.rt_base.specs.TaskNos.{numbers};
ghost use Rattle.rt_rules.specs.Distinct.{IsDistinct};
ghost use Rattle.rt_rules.specs.Numbers.{has};
ghost use Rattle.rank_afresh.specs.Visits.{AreAllVisited, AreVisited, HasMore, IsHome, IsRanVisited, IsVisited};

use crate::ran::Ran;
use crate::room::with_room;
use rt_base::{NoMemory, TaskNo};
use std::alloc::Global;
use std::marker::Model;

/// The positions of the clusters to go to, each once; and where each task and processor is at home, by which they are found.
#[derive(Drop)]
pub(crate) struct Visits {
    // How many clusters there are.
    count: usize,
    // By a task's number the position of its cluster.
    task_homes: Vec<usize>,
    // By a processor's number the position of its cluster.
    cpu_homes: Vec<usize>,
    positions: Vec<usize>,
}

impl Model for Visits {
    ghost use Rattle.std.specs.Prelude.{◌≡◌, ◌<◌, ◌≤◌, ℕ, true, vec_capacity};
    ghost use Rattle.rt_rules.specs.Distinct.{IsDistinct};
    ghost use Rattle.rt_rules.specs.Numbers.{has};
    ghost use Rattle.rank_afresh.specs.Visits.{VisitFacts};

    ghost Value = { VisitFacts };

    ghost view = { λ a. record {
      count = a.count;
      task_homes = a.task_homes.items;
      cpu_homes = a.cpu_homes.items;
      positions = a.positions.items;
    } };

    ghost invariant = { λ a. IsDistinct a.positions.items
        × ((n : ℕ) → has n a.positions.items ≡ true → n < a.count)
        × (a.count ≤ vec_capacity a.positions) };
}

/// The position at the number, if there is one.
fn home_at(homes: &[usize], number: u32) -> Option<usize>
    ensures { (n : ℕ) → IsHome homes.now number n → result ≡ Some n }
{
    match homes.get(number as usize) {
        Some(home) => Some(*home),
        None => None,
    }
}

impl Visits {
    /// Of `count` clusters, none of which is to be gone to.
    pub(crate) fn new(
        alloc: Global,
        count: usize,
        task_homes: Vec<usize>,
        cpu_homes: Vec<usize>,
    ) -> Result<Visits, NoMemory>
        ensures { IfOk result (λ v. v ≡ record {
          count = count;
          task_homes = task_homes.items;
          cpu_homes = cpu_homes.items;
          positions = [];
        }) }
    {
        Ok(Visits {
            count,
            task_homes,
            cpu_homes,
            positions: with_room(alloc, count)?,
        })
    }

    /// The positions of the clusters to go to.
    pub(crate) fn positions(&self) -> &[usize]
        ensures positions { result.now ≡ self.now.positions }
        ensures once { IsDistinct result.now }
        ensures inside { (n : ℕ) → has n result.now ≡ true → n < self.now.count }
    {
        self.positions.as_slice()
    }

    /// Whether the cluster at the position is to be gone to.
    fn has(&self, position: usize) -> bool
        ensures { result ≡ has position self.now.positions }
    {
        for other in self.positions.as_slice() {
            if position == *other {
                return true;
            }
        }
        false
    }

    /// Adds the cluster at the position, if there is one.
    fn add(&mut self, position: Option<usize>)
        ensures more { HasMore self.old self.new }
        ensures added { (n : ℕ) → position ≡ Some n → n < self.old.count → has n self.new.positions ≡ true }
    {
        let Some(position) = position else {
            return;
        };
        if position < self.count && !self.has(position) {
            self.positions.push_reserved(position);
        }
    }

    /// Adds the clusters of the tasks.
    fn add_homes(&mut self, tasks: &[TaskNo])
        ensures more { HasMore self.old self.new }
        ensures homes { (t : ℕ) → has t (numbers tasks.now) ≡ true
            → IsVisited self.new self.new.task_homes t }
    {
        for task in tasks {
            let home = home_at(self.task_homes.as_slice(), task.0);
            self.add(home);
        }
    }

    /// Adds all clusters.
    fn add_all(&mut self)
        ensures more { HasMore self.old self.new }
        ensures all { AreAllVisited self.new }
    {
        for position in 0..self.count {
            self.add(Some(position));
        }
    }

    /// Adds the clusters on whose processors what runs may be another.
    fn add_ran(&mut self, ran: Ran)
        ensures more { HasMore self.old self.new }
        ensures ran { IsRanVisited self.new ran }
    {
        match ran {
            Ran::Nowhere => {}
            Ran::At(cpu) => {
                let home = home_at(self.cpu_homes.as_slice(), cpu.0);
                self.add(home);
            }
            Ran::Anywhere => self.add_all(),
        }
    }

    /// Lists the clusters of these tasks, and those on whose processors what runs may be another. One that is alone
    /// stays listed.
    pub(crate) fn list(&mut self, touched: &[TaskNo], changed: &[TaskNo], ran: Ran)
        ensures visited { AreVisited (numbers touched.now) (numbers changed.now) ran self.new }
        ensures rest { self.new ≡ record self.old { positions = self.new.positions } }
    {
        if self.count == 1 && self.positions.len() == 1 {
            return;
        }
        self.positions.clear();
        self.add_homes(touched);
        self.add_homes(changed);
        self.add_ran(ran);
    }
}
