//! The ceilings of MPCP semaphores (Rajkumar, ICDCS 1990), told in constant time.
#![tactic(auto)]

ghost use Rattle.std.specs.Prelude.{◌≡◌, ◌<◌, ◌≤◌, IfOk, length};
ghost use Rattle.rt_plays.specs.Plays.{group_with};
ghost use Rattle.rt_task.specs.Validity.{IsValid};
ghost use Rattle.mpcp_ceilings.specs.Ceilings.{AreCeilings, CeilingsAreTold, ceiling_in};

mod noting;
mod user_prios;

use noting::noted_rows;
use rt_base::{GroupNo, NoMemory, SemNo, TaskNo};
use rt_task::Parts;
use std::alloc::Global;
use std::marker::Model;
use user_prios::{UserPrios, smallest_outside};

/// The ceilings of a group's semaphores, whatever their protocols, by the priority numbers of the tasks that declare them.
///
/// Contracts see what is kept of the users of each semaphore. After `open` no call takes memory.
#[derive(Drop)]
pub struct MpcpCeilings {
    rows: Vec<Option<UserPrios>>,
}

impl Model for MpcpCeilings {
    ghost use Rattle.mpcp_ceilings.specs.Ceilings.{CeilingTable};

    ghost Value = { CeilingTable };

    ghost view = { λ a. record { rows = a.rows.items } };
}

impl MpcpCeilings {
    /// The ceilings in a group of a valid set. It takes all the memory that the value ever has, and goes once over what each
    /// task declares.
    pub fn open(alloc: Global, parts: &Parts, group: GroupNo) -> Result<MpcpCeilings, NoMemory>
        requires { IsValid parts.now }
        ensures { IfOk result (λ c. AreCeilings (group_with parts.now group.0) c) }
    {
        let rows = noted_rows(alloc, parts, group)?;
        Ok(MpcpCeilings { rows })
    }

    /// The ceiling of the semaphore for the task, a priority number: the smallest among the users of other clusters than
    /// the task's, or the task's own where there are none. The parts are those of `open`.
    pub fn ceiling(&self, parts: &Parts, sem: SemNo, task: TaskNo) -> u32
        requires sem { sem.0 < length self.now.rows }
        requires low { 1 ≤ task.0 }
        requires high { task.0 ≤ length parts.now.tasks }
        ensures { result ≡ ceiling_in parts.now self.now sem.0 task.0 }
    {
        let row = &parts.tasks.as_slice()[task.0 as usize - 1];
        let others = smallest_outside(self.rows[sem.0 as usize], row.cluster);
        others.unwrap_or(row.prio)
    }
}

/// The ceilings of the table are MPCP's, of each semaphore and for each task.
pub fn ceilings_are_told()
    ensures { CeilingsAreTold }
{}
