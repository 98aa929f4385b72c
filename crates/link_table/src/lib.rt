//! Links of one cluster and what its processors run: link-based scheduling, where a processor may run another task
//! than its link until it takes an interrupt (Brandenburg, dissertation, University of North Carolina, 2011).
#![tactic(auto)]

ghost use Rattle.std.specs.Prelude.{◌≡◌, ℕ, ◌-◌, ◌<◌, ◌≤◌, IfOk, List, false, length, true};
ghost use Rattle.rt_base.specs.TaskNos.{number_of_task, numbers};
ghost use Rattle.rt_rules.specs.Distinct.{IsDistinct};
ghost use Rattle.rt_rules.specs.Numbers.{has, is};
ghost use Rattle.rt_rules.specs.Placing.{placed, tasks_in};
ghost use Rattle.ready_queue.specs.Exchanges.{IsExchanged};
ghost use Rattle.link_table.specs.Linked.{after_irq, irq_reply, is_pending, link_of, runs_on, unlinked, with_run, CanExchange, IsAmong, IsOfCluster, IsPlacedFor, IsSound, LinkedTopStays, LinksAreOfProcessors, PlacedLinksStay, RunsAreOfProcessors, StaysAmong, StaysAmongWith};

mod marks;
mod places;

use marks::TaskMarks;
use rt_base::{CpuNo, NoMemory, TaskNo};
use rt_rules::Reply;
use std::alloc::Global;
use std::marker::Model;

/// The links of one cluster's processors, and what each of them runs.
///
/// A task runs on at most one processor and is linked to at most one, and one that is linked runs on no other.
#[derive(Drop)]
pub struct Links {
    first: u32,
    runs: Vec<Option<TaskNo>>,
    links: Vec<Option<TaskNo>>,
    // What runs.
    run_marks: TaskMarks,
    // All clear between calls.
    top_marks: TaskMarks,
}

impl Model for Links {
    ghost use Rattle.std.specs.Prelude.{[]};
    ghost use Rattle.rt_base.specs.TaskNos.{numbers_of_tasks};
    ghost use Rattle.rt_rules.specs.Placing.{tasks_in};
    ghost use Rattle.link_table.specs.Linked.{Linked, IsSound};
    ghost use Rattle.link_table.specs.Marks.{AreMarks};

    ghost Value = { Linked };

    ghost view = { λ a. record {
      first = a.first;
      runs = numbers_of_tasks a.runs.items;
      links = numbers_of_tasks a.links.items;
    } };

    ghost invariant = { λ a. IsSound (record {
      first = a.first;
      runs = numbers_of_tasks a.runs.items;
      links = numbers_of_tasks a.links.items;
    }) × AreMarks a.top_marks [] × AreMarks a.run_marks (tasks_in (numbers_of_tasks a.runs.items)) };
}

impl Links {
    /// The links of `cpus` processors, numbered from `first` on, that run nothing and are linked to none.
    ///
    /// Example: `Links::new(alloc, CpuNo(2), 4)` has the links of processors 2 to 5.
    pub fn new(alloc: Global, first: CpuNo, cpus: u32) -> Result<Links, NoMemory>
        ensures unlinked { IfOk result (λ links. links ≡ unlinked first.0 cpus) }
        ensures among { IfOk result (λ links. (ts : List ℕ) → IsAmong ts links) }
        ensures sound { IfOk result IsSound }
    {
        let runs = vec![in alloc; None; cpus as usize]?;
        let links = vec![in alloc; None; cpus as usize]?;
        let run_marks = TaskMarks::new(alloc)?;
        let top_marks = TaskMarks::new(alloc)?;
        Ok(Links {
            first: first.0,
            runs,
            links,
            run_marks,
            top_marks,
        })
    }

    /// Whether the processor is one of the cluster's.
    ///
    /// Example: `Links::new(alloc, CpuNo(2), 4)` has processors 2 to 5.
    #[inline(always)]
    pub fn has(&self, q: CpuNo) -> bool
        ensures here { result ≡ true → IsOfCluster self.now q.0 }
        ensures elsewhere { result ≡ false → IsOfCluster self.now q.0 → ⊥ }
    {
        q.0 >= self.first && ((q.0 - self.first) as usize) < self.runs.len()
    }

    /// The task that the processor is linked to.
    ///
    /// Example: `links.linked(CpuNo(2))` is `None` in a new table.
    pub fn linked(&self, q: CpuNo) -> Option<TaskNo>
        requires { IsOfCluster self.now q.0 }
        ensures link { number_of_task result ≡ link_of self.now q.0 }
        ensures sound { IsSound self.now }
    {
        self.links[self.position_of(q)]
    }

    /// The task that the processor runs.
    ///
    /// Example: `links.runs(CpuNo(2))` is `None` in a new table.
    pub fn runs(&self, q: CpuNo) -> Option<TaskNo>
        requires { IsOfCluster self.now q.0 }
        ensures runs { number_of_task result ≡ runs_on self.now q.0 }
        ensures sound { IsSound self.now }
    {
        self.runs[self.position_of(q)]
    }

    /// Whether an interrupt is pending: the processor runs another task than its link, or one of them is none.
    ///
    /// Example: `links.pending(CpuNo(2))` is true after a placing has linked processor 2 to its first task.
    pub fn pending(&self, q: CpuNo) -> bool
        requires { IsOfCluster self.now q.0 }
        ensures { result ≡ is_pending self.now q.0 }
    {
        self.linked(q) != self.runs(q)
    }

    /// Links the cluster's top tasks, which are given highest first. It takes no memory.
    ///
    /// A task that runs on a processor is linked to it. One that runs nowhere keeps its link, unless that processor
    /// went to a task that runs there. The others take the free processors, lowest number first.
    ///
    /// It goes twice over the processors of the cluster and twice over the top, at most. Only a task whose number is
    /// above `MOST_TASKS` is searched in the lists.
    ///
    /// Example: `links.place(&[TaskNo(3), TaskNo(1)])` links a new table's first two processors to tasks 3 and 1.
    pub fn place(&mut self, top: &[TaskNo])
        requires distinct { IsDistinct (numbers top.now) }
        requires fits { length top.now ≤ length self.old.runs }
        ensures placed { self.new ≡ record self.old {
          links = placed (numbers top.now) self.old.runs self.old.links;
        } }
        ensures among { StaysAmongWith (numbers top.now) self.old self.new }
        ensures sound { IsSound self.new }
    {
        places::place(
            top,
            self.runs.as_slice(),
            self.links.as_mut_slice(),
            &mut self.top_marks,
            &self.run_marks,
        );
    }

    /// Links the task that came into the top in place of the one that left it, where the links were placed for the
    /// old top. What came runs nowhere.
    ///
    /// It looks once at each processor, at most, and takes no memory. The links are then those that placing the new
    /// top would give.
    ///
    /// Example: after the placing above, `links.exchange(Some(TaskNo(3)), Some(TaskNo(7)))` links task 7 where task 3
    /// was.
    pub fn exchange(&mut self, left: Option<TaskNo>, came: Option<TaskNo>)
        requires placed { CanExchange self.old (number_of_task left) (number_of_task came) }
        ensures placed { (old new : List ℕ) →
            IsExchanged old new (number_of_task left) (number_of_task came) →
            IsPlacedFor old self.old → length new ≤ length self.old.runs → IsDistinct new →
            self.new ≡ record self.old { links = placed new self.old.runs self.old.links } }
        ensures among { (ts : List ℕ) →
            ((t : ℕ) → is t (number_of_task came) ≡ true → has t ts ≡ true) →
            IsAmong ts self.old → IsAmong ts self.new }
        ensures sound { IsSound self.new }
    {
        places::exchange(self.links.as_mut_slice(), left, came);
    }

    /// Whether a processor of the cluster runs the task.
    ///
    /// Example: `links.is_running(TaskNo(3))` is true from the interrupt that is answered `Reply::Runs(TaskNo(3))` on.
    pub fn is_running(&self, task: TaskNo) -> bool
        ensures { result ≡ has task.0 (tasks_in self.now.runs) }
    {
        self.run_marks.is_linked(self.runs.as_slice(), task)
    }

    /// Takes an interrupt at the processor, where `np` says whether what it runs is non-preemptive.
    ///
    /// It is `Quiet` where none is pending, `Deferred` where what runs is non-preemptive, and else `Runs` or `Idles`:
    /// the processor then runs its link.
    ///
    /// Example: after that, `links.take_irq(first, false)` is `Reply::Runs(TaskNo(3))`.
    pub fn take_irq(&mut self, q: CpuNo, np: bool) -> Reply
        requires { IsOfCluster self.old q.0 }
        ensures reply { result ≡ irq_reply self.old q.0 np }
        ensures runs { self.new ≡ after_irq self.old q.0 np }
        ensures among { StaysAmong self.old self.new }
        ensures sound { IsSound self.new }
    {
        let link = self.linked(q);
        let runs = self.runs(q);
        if link == runs {
            return Reply::Quiet;
        }
        if runs.is_some() && np {
            return Reply::Deferred;
        }
        self.run(q, link);
        match link {
            Some(task) => Reply::Runs(task),
            None => Reply::Idles,
        }
    }

    /// Has the processor run nothing.
    ///
    /// Example: `links.leave(first)` at the end of a job: `links.runs(first)` is then `None`.
    pub fn leave(&mut self, q: CpuNo)
        requires { IsOfCluster self.old q.0 }
        ensures runs { self.new ≡ with_run self.old q.0 None }
        ensures among { StaysAmong self.old self.new }
        ensures sound { IsSound self.new }
    {
        self.run(q, None);
    }

    // Runs the processor's link, or nothing.
    fn run(&mut self, q: CpuNo, task: Option<TaskNo>)
        requires of_cluster { IsOfCluster self.old q.0 }
        requires of_link { (t : ℕ) → is t (number_of_task task) ≡ true →
            is t (link_of self.old q.0) ≡ true }
        ensures runs { self.new ≡ with_run self.old q.0 (number_of_task task) }
        ensures among { StaysAmong self.old self.new }
        ensures sound { IsSound self.new }
    {
        let place = self.position_of(q);
        self.run_marks.set_of(self.runs[place], false);
        self.run_marks.set_of(task, true);
        self.runs[place] = task;
    }

    // The processor's position in the cluster, from 0.
    fn position_of(&self, q: CpuNo) -> usize
        requires { IsOfCluster self.now q.0 }
        ensures place { result ≡ q.0 - self.now.first }
        ensures runs { result < length self.now.runs }
        ensures links { result < length self.now.links }
    {
        (q.0 - self.first) as usize
    }
}

/// A task is in a cluster's links exactly where some processor of the cluster is linked to it.
pub fn links_are_of_processors()
    ensures { LinksAreOfProcessors }
{}

/// A task is in what a cluster runs exactly where some processor of the cluster runs it.
pub fn runs_are_of_processors()
    ensures { RunsAreOfProcessors }
{}

/// Links that are placed stay so as a processor takes an interrupt, and as it comes to run nothing.
pub fn placed_links_stay()
    ensures { PlacedLinksStay }
{}

/// Links that are placed for a top are placed for each other top of the same tasks.
pub fn linked_top_stays()
    ensures { LinkedTopStays }
{}
