//! What is read off the state of a partition: whether a task may run, its key, and the link of the processor.
ghost use Rattle.std.specs.Prelude.{◌≡◌, ◌+◌, true, length};
ghost use Rattle.rt_base.specs.TaskNos.{number_of_task, numbers};
ghost use Rattle.rt_rules.specs.Keys.{ahead};
ghost use Rattle.rt_rules.specs.Numbers.{has};
ghost use Rattle.part_state.specs.inside.Candidates.{ranked, ranked_best};
ghost use Rattle.part_state.specs.Reads as words;
ghost use Rattle.part_state.specs.Reads.{CanRead};

use crate::state::PartState;
use mpcp_ceilings::MpcpCeilings;
use rt_base::TaskNo;
use rt_rules::Key;
use rt_task::{Parts, Protocol};

/// A task that may run, with its key.
#[derive(Clone, Copy)]
pub(crate) struct Candidate {
    pub(crate) key: Key,
    pub(crate) task: TaskNo,
}

impl Candidate {
    /// Whether this task goes ahead of the other: by key, and then by lower number.
    fn goes_ahead(self, other: Candidate) -> bool
        ensures { result ≡ ahead (ranked self) (ranked other) }
    {
        self.key.is_higher(other.key) || self.key == other.key && self.task.0 < other.task.0
    }
}

impl PartState {
    /// Whether the task's job is there and the task waits for no semaphore.
    fn may_run(&self, parts: &Parts, task: TaskNo) -> bool
        requires { CanRead parts.now self.now task.0 }
        ensures { (ceilings : _) → result ≡ words.may_run parts.now ceilings self.now task.0 }
    {
        let is_free = self.lock(task).waits.is_none();
        self.jobs.is_ready(parts.tasks.as_slice(), task) && is_free
    }

    /// The key by which the task is boosted, where it holds a semaphore.
    fn boost(&self, parts: &Parts, ceilings: &MpcpCeilings, task: TaskNo) -> Option<Key>
        requires read { CanRead parts.now self.now task.0 }
        requires ceilings { length ceilings.now.rows ≡ length parts.now.sems + 1 }
        ensures { result ≡ words.boost_in parts.now ceilings.now self.now task.0 }
    {
        let lock = self.lock(task);
        let sem = lock.holds?;
        let minor = task.0;
        match parts.sems.as_slice()[sem.0 as usize - 1].protocol {
            Protocol::Fmlp => Some(Key {
                band: 0,
                major: lock.since,
                minor,
            }),
            Protocol::Mpcp => Some(Key {
                band: 1,
                major: u64::from(ceilings.ceiling(parts, sem, task)),
                minor,
            }),
            _ => None,
        }
    }

    /// The key of the task: its boost, or else the base key of its current job.
    pub fn key(&self, parts: &Parts, ceilings: &MpcpCeilings, task: TaskNo) -> Key
        requires read { CanRead parts.now self.now task.0 }
        requires ceilings { length ceilings.now.rows ≡ length parts.now.sems + 1 }
        ensures { result ≡ words.key_in parts.now ceilings.now self.now task.0 }
    {
        match self.boost(parts, ceilings, task) {
            Some(boost) => boost,
            None => self.jobs.base_key(parts, task),
        }
    }

    /// The better of the task, if it may run, and the best of others.
    fn better(
        &self,
        parts: &Parts,
        ceilings: &MpcpCeilings,
        task: TaskNo,
        best: Option<Candidate>,
    ) -> Option<Candidate>
        requires read { CanRead parts.now self.now task.0 }
        requires ceilings { length ceilings.now.rows ≡ length parts.now.sems + 1 }
        ensures { ranked_best result
            ≡ words.better_with parts.now ceilings.now self.now task.0 (ranked_best best) }
    {
        if !self.may_run(parts, task) {
            return best;
        }
        let key = self.key(parts, ceilings, task);
        let new = Candidate { key, task };
        match best {
            Some(best) if !new.goes_ahead(best) => Some(best),
            _ => Some(new),
        }
    }

    /// The task that the processor is to run: of these tasks, which are those of the partition, the first of those that may
    /// run, by their keys.
    pub fn linked(&self, parts: &Parts, ceilings: &MpcpCeilings, tasks: &[TaskNo]) -> Option<TaskNo>
        requires read { (t : _) → has t (numbers tasks.now) ≡ true → CanRead parts.now self.now t }
        requires ceilings { length ceilings.now.rows ≡ length parts.now.sems + 1 }
        ensures { number_of_task result
            ≡ words.link_in parts.now ceilings.now self.now (numbers tasks.now) }
    {
        let mut best = None;
        for i in (0..tasks.len()).rev() {
            best = self.better(parts, ceilings, tasks[i], best);
        }
        match best {
            Some(best) => Some(best.task),
            None => None,
        }
    }
}
