//! The book of a semaphore: its history, with the semaphore as it stands.
ghost use Rattle.std.specs.Prelude.{◌≡◌, ◌<◌, ◌≤◌, ◌^◌, ◌++◌, ◌∷◌, [], false, length, Some, None, IfOk, ◌↔◌};
ghost use Rattle.rt_rules.specs.Numbers.{has, is};
ghost use Rattle.split_inbox.specs.Books.{entry, sem_state, IsHistory, MayAdd};
ghost use Rattle.split_inbox.specs.Sums.{sum_of};

use crate::queue::{Queue, ask, new_queue, release};
use crate::subject::SemRule;
use rt_base::{Ask, CpuNo, NoMemory, SemNo, TaskNo};
use split_rules::{SemAct, SemEntry};
use std::alloc::Global;
use std::marker::Model;
use std::snapshot::Snapshot;

/// The history of a semaphore that processors share, and the semaphore as it stands after it. Contracts see what the
/// history is about, and its entries.
#[derive(Drop)]
pub struct SemBook {
    sem: SemNo,
    queue: Queue,
    prios: Vec<u32>,
    entries: Vec<SemEntry>,
    homes: Snapshot<Vec<u32>>,
    quotas: Snapshot<Vec<u32>>,
}

impl Model for SemBook {
    ghost use Rattle.std.specs.Prelude.{vec_capacity};
    ghost use Rattle.split_inbox.specs.Books.{BookOf};
    ghost use Rattle.split_inbox.specs.Kept.{about_of, IsKept};

    ghost Value = { BookOf };

    ghost view = { λ a. record {
      about = about_of a.sem a.queue a.homes.value.items a.prios.items a.quotas.value.items;
      entries = a.entries.items;
    } };

    ghost invariant = { λ a. IsKept a.sem a.queue a.homes.value.items a.prios.items
        a.quotas.value.items a.entries.items (vec_capacity a.entries) };
}

impl SemBook {
    /// The book of a semaphore that nobody has asked for, under a rule, with the processor and the priority of each
    /// task and the number of entries of each processor, which are `room` in all at most. No later call takes memory.
    pub fn open(
        alloc: Global,
        sem: SemNo,
        rule: SemRule,
        homes: &Vec<u32>,
        prios: Vec<u32>,
        quotas: &Vec<u32>,
        room: u32,
    ) -> Result<SemBook, NoMemory>
        requires tasks { (length homes.now.items ≡ length prios.items)
            × (length prios.items < 2 ^ 32) }
        requires room { sum_of quotas.now.items ≤ room }
        ensures about { IfOk result (λ b. b.about ≡ record {
          sem = sem;
          rule = rule;
          homes = homes.now.items;
          prios = prios.items;
          quotas = quotas.now.items;
        }) }
        ensures empty { IfOk result (λ b. b.entries ≡ []) }
    {
        let queue = new_queue(alloc, rule, prios.as_slice())?;
        let entries = Vec::with_capacity(alloc, room as usize)?;
        Ok(SemBook {
            sem,
            queue,
            prios,
            entries,
            homes: Snapshot::of(homes),
            quotas: Snapshot::of(quotas),
        })
    }

    /// A task of a processor asks for the semaphore, and the answer is added to the history.
    pub fn ask(&mut self, cpu: CpuNo, task: TaskNo) -> Ask
        requires add { MayAdd self.old.about self.old.entries cpu.0 task.0 }
        requires free_hands { is task.0 (sem_state self.old.about self.old.entries).holder ≡ false }
        requires outside { has task.0 (sem_state self.old.about self.old.entries).waiting ≡ false }
        ensures { self.new ≡ record self.old {
          entries =
              self.old.entries ++ entry cpu task (SemAct.Ask result) ∷ [];
        } }
    {
        let answer = ask(&mut self.queue, self.prios.as_slice(), task);
        self.entries.push_reserved(SemEntry {
            cpu,
            task,
            act: SemAct::Ask(answer),
        });
        answer
    }

    /// A task of a processor, which holds the semaphore, frees it. The answer is the next task that holds it, and is
    /// added to the history; it is none exactly where nobody waited.
    pub fn release(&mut self, cpu: CpuNo, task: TaskNo) -> Option<TaskNo>
        requires add { MayAdd self.old.about self.old.entries cpu.0 task.0 }
        requires holds { (sem_state self.old.about self.old.entries).holder ≡ Some task.0 }
        ensures entry { self.new ≡ record self.old {
          entries =
              self.old.entries ++ entry cpu task (SemAct.Release result) ∷ [];
        } }
        ensures nobody { (result ≡ None)
            ↔ ((sem_state self.old.about self.old.entries).waiting ≡ []) }
    {
        let next = release(&mut self.queue, self.prios.as_slice(), task);
        self.entries.push_reserved(SemEntry {
            cpu,
            task,
            act: SemAct::Release(next),
        });
        next
    }

    /// The history: legal, and with no more entries of a processor than it may make.
    pub fn entries(&self) -> &[SemEntry]
        ensures entries { result.now ≡ self.now.entries }
        ensures kept { IsHistory self.now.about self.now.entries }
    {
        self.entries.as_slice()
    }

    /// How many entries the history has.
    pub fn len(&self) -> u64
        ensures { result ≡ length self.now.entries }
    {
        self.entries.len() as u64
    }
}
