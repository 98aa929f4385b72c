//! What is kept of a task.
ghost use Rattle.std.specs.Prelude.{◌≡◌, true, false, None, Some};
ghost use Rattle.rt_base.specs.TaskNos.{number_of_task};
ghost use Rattle.sem_table.specs.Asked.{row_asked};
ghost use Rattle.sem_table.specs.Released.{row_freed, row_served, rows_served};

use rt_base::{Ask, ClusterNo, SemNo, TaskNo};

/// The cluster of a task, the semaphore that it waits for, and how many it holds.
#[derive(Clone, Copy)]
pub struct Row {
    pub home: ClusterNo,
    pub awaits: Option<SemNo>,
    pub held: u32,
}

impl Row {
    /// The row of a task of that cluster, which holds nothing and waits for nothing.
    pub fn new(home: ClusterNo) -> Row
        ensures { result ≡ record { home = home; awaits = None; held = 0 } }
    {
        Row {
            home,
            awaits: None,
            held: 0,
        }
    }

    /// The task was granted a semaphore, or waits for it.
    pub fn note_ask(&mut self, answer: &Ask, sem: SemNo)
        ensures granted { answer.now ≡ Ask.Granted → self.new ≡ row_asked true sem.0 self.old }
        ensures queued { answer.now ≡ Ask.Queued → self.new ≡ row_asked false sem.0 self.old }
    {
        match answer {
            Ask::Granted => self.held = self.held.saturating_add(1),
            Ask::Queued => self.awaits = Some(sem),
        }
    }

    /// The task freed a semaphore.
    pub fn note_release(&mut self)
        ensures { self.new ≡ row_freed self.old }
    {
        self.held = self.held.saturating_sub(1);
    }

    /// The task was granted what it waited for.
    pub fn note_grant(&mut self)
        ensures { self.new ≡ row_served self.old }
    {
        self.awaits = None;
        self.held = self.held.saturating_add(1);
    }
}

/// The task, if any, was granted what it waited for.
#[tactic(auto, using(std::proofs::lemmas::List::set_past))]
pub fn note_served(rows: &mut [Row], served: Option<TaskNo>)
    ensures { rows.new ≡ rows_served (number_of_task served) rows.old }
{
    if let Some(next) = served {
        let position = next.0 as usize;
        if position < rows.len() {
            rows[position].note_grant();
        }
    }
}
