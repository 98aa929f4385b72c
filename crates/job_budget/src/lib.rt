//! Budgets of jobs: how much of its cost the running job of each task has used, and what is owed at the end of it.
#![tactic(auto)]

ghost use Rattle.std.specs.Prelude.{◌≡◌, ℕ, IfOk, IfSome, IsSome};
ghost use Rattle.std.specs.FinMap as map;
ghost use Rattle.rt_rules.specs.Distinct.{IsDistinct};
ghost use Rattle.rt_rules.specs.Numbers.{has};
ghost use Rattle.job_budget.specs.Accounts.{accounts_of, charged, owed_by, renewed, task_numbers};

use rt_base::{NoMemory, TaskNo};
use rt_task::Task;
use std::alloc::Global;
use std::collections::BTreeMap;
use std::marker::Model;

/// What the running job of a task may use, and has used.
#[derive(Clone, Copy, PartialEq, Eq)]
pub struct Account {
    /// The task's cost, in units of work.
    pub cost: u64,
    /// Whether a job ends by force once it has used its cost.
    pub enforced: bool,
    /// The units of work that the running job has used.
    pub used: u64,
}

/// What a job owes after an act of its processor.
#[derive(Clone, Copy, Debug, PartialEq, Eq)]
pub enum Owed {
    /// Nothing: the task is not enforced, or its job has used less than its cost.
    Within,
    /// The job has used up its cost and goes on, since it holds a semaphore or is not preemptive.
    PutOff,
    /// The job has used up its cost and ends by force.
    Forced,
}

/// The budgets of a set's tasks, seen as the map from each task's number to its account.
#[derive(Drop)]
pub struct Budgets {
    accounts: BTreeMap<u32, Account>,
}

impl Model for Budgets {
    ghost use Rattle.std.specs.Ordering.{nat_cmp};
    ghost use Rattle.std.specs.FinMap as map;
    ghost use Rattle.job_budget.specs.declared.Account.{Account};
    ghost use Rattle.std.specs.Coded.{coded_ℕ};
    ghost use Rattle.job_budget.specs.contracts.Account as account;

    ghost Value = { map.FinMap nat_cmp Account };

    ghost coded = { map.code coded_ℕ account.the_row.coded };

    ghost view = { λ b. map.from_entries b.accounts.entries };
}

impl Budgets {
    /// Opens an account for each of the tasks, whose numbers differ, with nothing used.
    ///
    /// Example: `Budgets::new(alloc, &tasks)` opens an account with `used: 0` for each of them.
    pub fn new(alloc: Global, tasks: &[Task]) -> Result<Budgets, NoMemory>
        requires { IsDistinct (task_numbers tasks.now) }
        ensures accounts { IfOk result (λ budgets. budgets ≡ accounts_of tasks.now) }
        ensures tasks { IfOk result (λ budgets. (t : ℕ) → map.contains_key budgets t ≡
            has t (task_numbers tasks.now)) }
    {
        let mut accounts = BTreeMap::new(alloc);
        for task in tasks {
            let account = Account {
                cost: task.cost,
                enforced: task.enforce,
                used: 0,
            };
            accounts.insert(task.number.0, account)?;
        }
        Ok(Budgets { accounts })
    }

    /// Adds one unit of use to the task's job. A use of 2^64-1 stays as it is.
    ///
    /// Example: `budgets.charge(TaskNo(1))` at each unit of work of task 1.
    pub fn charge(&mut self, task: TaskNo)
        requires { IsSome (map.get self.old task.0) }
        ensures account { IfSome (map.get self.old task.0) (λ account. self.new ≡
            map.insert self.old task.0 (charged account)) }
        ensures same_tasks { (t : ℕ) → map.contains_key self.new t ≡ map.contains_key self.old t }
    {
        if let Some(account) = self.accounts.get_mut(&task.0) {
            account.used = account.used.saturating_add(1);
        }
    }

    /// Begins the task's next job: it has used nothing.
    ///
    /// Example: `budgets.renew(TaskNo(1))` where a job of task 1 ended.
    pub fn renew(&mut self, task: TaskNo)
        requires { IsSome (map.get self.old task.0) }
        ensures account { IfSome (map.get self.old task.0) (λ account. self.new ≡
            map.insert self.old task.0 (renewed account)) }
        ensures same_tasks { (t : ℕ) → map.contains_key self.new t ≡ map.contains_key self.old t }
    {
        if let Some(account) = self.accounts.get_mut(&task.0) {
            account.used = 0;
        }
    }

    /// What the task's job owes, given whether it holds a semaphore and whether it is not preemptive.
    ///
    /// A forced end is put off while the job holds a semaphore, so that none is left locked, and while it is not
    /// preemptive. That a held semaphore puts it off is this project's choice.
    ///
    /// Example: an enforced task of cost 2 that was charged twice owes `Forced`, and `PutOff` while it holds.
    pub fn owed(&self, task: TaskNo, holds: bool, np: bool) -> Owed
        requires { IsSome (map.get self.now task.0) }
        ensures { IfSome (map.get self.now task.0) (λ account. result ≡ owed_by account holds np) }
    {
        match self.accounts.get(&task.0) {
            Some(account) => account.owed(holds, np),
            None => Owed::Within,
        }
    }
}

impl Account {
    /// What the job owes, as `Budgets::owed` says.
    pub fn owed(self, holds: bool, np: bool) -> Owed
        ensures { result ≡ owed_by self holds np }
    {
        if !self.enforced || self.used < self.cost {
            Owed::Within
        } else if holds || np {
            Owed::PutOff
        } else {
            Owed::Forced
        }
    }
}
