//! The semaphores that are kept by cluster.
ghost use Rattle.std.specs.Prelude.{◌≡◌};
ghost use Rattle.sem_table.specs.Told.{last_at, passes_at};

use pcp_sem::PcpSet;
use rt_base::{ClusterNo, TaskNo};
use srp_sem::SrpSet;
use std::marker::Model;

/// The PCP semaphores and the SRP semaphores of each cluster, by its number.
#[derive(Drop)]
pub struct Sets {
    pub pcp: Vec<PcpSet>,
    pub srp: Vec<SrpSet>,
}

impl Model for Sets {
    ghost use Rattle.sem_table.specs.SemTable.{ClusterSets};

    ghost Value = { ClusterSets };

    ghost view = { λ a. record {
      pcp = a.pcp.items;
      srp = a.srp.items;
    } };
}

impl Sets {
    /// The SRP semaphore of the cluster that the task was granted last among those that it holds; where it holds none of
    /// these, the PCP semaphore.
    pub fn last_of(&self, c: ClusterNo, task: TaskNo) -> Option<u32>
        ensures { result ≡ last_at self.now c.0 task.0 }
    {
        if let Some(set) = self.srp.get(c.0 as usize)
            && let Some(last) = set.last_of(task)
        {
            return Some(last);
        }
        let set = self.pcp.get(c.0 as usize)?;
        set.last_of(task)
    }

    /// Whether the number is below the ceilings of all SRP semaphores of the cluster that other tasks hold.
    pub fn passes(&self, c: ClusterNo, task: TaskNo, rel_deadline: u64) -> bool
        ensures { result ≡ passes_at self.now c.0 task.0 rel_deadline }
    {
        match self.srp.get(c.0 as usize) {
            Some(set) => set.passes(task, rel_deadline),
            None => true,
        }
    }
}
