//! A semaphore of any of the five protocols.
ghost use Rattle.std.specs.Prelude.{◌≡◌, ◌↔◌, ◌+◌, ◌≤◌, ◌++◌, true, None, Some, length, slice_index_or, vec_len, vec_capacity};
ghost use Rattle.rt_base.specs.TaskNos.{number_of_task, numbers};
ghost use Rattle.rt_rules.specs.Numbers.{first};
ghost use Rattle.rt_rules.specs.Pcp.{pcp_sem_state};
ghost use Rattle.rt_rules.specs.Srp.{srp_sem_state};
ghost use Rattle.pcp_sem.specs.Pairs.{tasks_of};
ghost use Rattle.pcp_sem.specs.PcpKept.{blocker_of};
ghost use Rattle.sem_table.specs.SemTable.{set_at, srp_set_at};
ghost use Rattle.sem_table.specs.declared.any_sem.AnySem.TheVariants as any;
ghost use Rattle.sem_table.specs.Told.{state_by, owner_by, next_by, waiters_by};
ghost use Rattle.sem_table.specs.Asked.{asked, sets_asked, set_asked, set_passes, srp_asked, is_granted_by};
ghost use Rattle.sem_table.specs.Released.{freed, sets_freed, set_freed, set_served, srp_freed, served_by};
ghost use Rattle.sem_table.specs.Conditions.{MayAskBy, MayReleaseBy, IsPcpRequest, IsPcpLast, IsSrpRequest, IsSrpLast};

use crate::sets::Sets;
use fmlp_sem::FmlpSem;
use mpcp_sem::MpcpSem;
use omlp_sem::OmlpSem;
use pcp_sem::PcpSet;
use rt_base::{Ask, ClusterNo, SemNo, TaskNo};
use rt_rules::Key;
use srp_sem::SrpSet;

/// A semaphore of one of the five protocols. The PCP semaphores of a cluster are kept in one set, where each has its
/// own number, and so are its SRP semaphores.
#[derive(Drop)]
pub enum AnySem {
    Fmlp(FmlpSem),
    Omlp(OmlpSem),
    Mpcp(MpcpSem),
    Pcp(ClusterNo),
    Srp(ClusterNo),
}

fn ask_set(set: &mut PcpSet, task: TaskNo, key: Key, sem: SemNo) -> Ask
    requires { IsPcpRequest set.old task.0 key sem.0 }
    ensures after { set.new ≡ set_asked task.0 key sem.0 set.old }
    ensures granted { (result ≡ Ask.Granted) ↔ (set_passes task.0 key set.old ≡ true) }
{
    set.ask(task, key, sem.0)
}

fn ask_pcp(sets: &mut Sets, c: ClusterNo, task: TaskNo, key: Key, sem: SemNo) -> Ask
    requires { IsPcpRequest (set_at sets.old c.0) task.0 key sem.0 }
    ensures after { sets.new ≡ sets_asked task.0 key sem.0 (any.Pcp c) sets.old }
    ensures granted { (result ≡ Ask.Granted)
        ↔ (set_passes task.0 key (set_at sets.old c.0) ≡ true) }
{
    ask_set(&mut sets.pcp[c.0 as usize], task, key, sem)
}

fn release_set(set: &mut PcpSet, task: TaskNo, sem: SemNo) -> Option<TaskNo>
    requires { IsPcpLast set.old task.0 sem.0 }
    ensures after { set.new ≡ set_freed task.0 sem.0 set.old }
    ensures served { number_of_task result ≡ set_served task.0 sem.0 set.old }
{
    let count = set.release(task, sem.0);
    if count == 0 { None } else { set.granted(0) }
}

fn ask_srp(set: &mut SrpSet, task: TaskNo, sem: SemNo) -> Ask
    requires { IsSrpRequest set.old task.0 sem.0 }
    ensures after { set.new ≡ srp_asked task.0 sem.0 set.old }
    ensures granted { result ≡ Ask.Granted }
{
    set.ask(task, sem.0);
    Ask::Granted
}

fn release_srp(set: &mut SrpSet, task: TaskNo, sem: SemNo) -> Option<TaskNo>
    requires { IsSrpLast set.old task.0 sem.0 }
    ensures after { set.new ≡ srp_freed task.0 sem.0 set.old }
    ensures served { result ≡ None }
{
    set.release(task, sem.0);
    None
}

// The task that holds an SRP semaphore of the cluster.
fn holder_of_srp(sets: &Sets, c: ClusterNo, sem: SemNo) -> Option<TaskNo>
    ensures { number_of_task result
        ≡ (srp_sem_state sem.0 (srp_set_at sets.now c.0).held).holder }
{
    let set = sets.srp.get(c.0 as usize)?;
    set.holder(sem.0)
}

// Adds the tasks that wait for a PCP semaphore of the cluster, if it has any.
fn list_of_set(sets: &Sets, c: ClusterNo, sem: SemNo, into: &mut Vec<TaskNo>)
    requires { vec_len into.old + length (pcp_sem_state sem.0 (set_at sets.now c.0).state).waiting ≤
        vec_capacity into.old }
    ensures tasks { numbers into.new.items ≡
        numbers into.old.items ++ (pcp_sem_state sem.0 (set_at sets.now c.0).state).waiting }
    ensures capacity { vec_capacity into.new ≡ vec_capacity into.old }
{
    if let Some(set) = sets.pcp.get(c.0 as usize) {
        set.list_waiting(sem.0, into);
    }
}

// Adds the tasks that wait for any PCP semaphore of the cluster, if it has any.
fn list_all_of_set(sets: &Sets, c: ClusterNo, into: &mut Vec<TaskNo>)
    requires { vec_len into.old + length (tasks_of (set_at sets.now c.0).state.waiting) ≤
        vec_capacity into.old }
    ensures tasks { numbers into.new.items ≡
        numbers into.old.items ++ tasks_of (set_at sets.now c.0).state.waiting }
    ensures capacity { vec_capacity into.new ≡ vec_capacity into.old }
{
    if let Some(set) = sets.pcp.get(c.0 as usize) {
        set.list_all_waiting(into);
    }
}

impl AnySem {
    /// The task asks for the semaphore.
    pub fn ask(&mut self, sets: &mut Sets, task: TaskNo, key: Key, sem: SemNo) -> Ask
        requires { MayAskBy task.0 key sem.0 sets.old self.old }
        ensures sem { self.new ≡ asked task.0 key self.old }
        ensures sets { sets.new ≡ sets_asked task.0 key sem.0 self.old sets.old }
        ensures granted { (result ≡ Ask.Granted) ↔
            (is_granted_by task.0 key sets.old self.old ≡ true) }
    {
        match self {
            AnySem::Fmlp(one) => one.ask(task, key),
            AnySem::Omlp(one) => one.ask(task, key),
            AnySem::Mpcp(one) => one.ask(task, key),
            AnySem::Pcp(c) => ask_pcp(sets, *c, task, key, sem),
            AnySem::Srp(c) => ask_srp(&mut sets.srp[c.0 as usize], task, sem),
        }
    }

    /// The task frees the semaphore. The answer is the task that is granted one.
    pub fn release(&mut self, sets: &mut Sets, task: TaskNo, sem: SemNo) -> Option<TaskNo>
        requires { MayReleaseBy task.0 sem.0 sets.old self.old }
        ensures sem { self.new ≡ freed task.0 self.old }
        ensures sets { sets.new ≡ sets_freed task.0 sem.0 self.old sets.old }
        ensures served { number_of_task result ≡ served_by task.0 sem.0 sets.old self.old }
    {
        match self {
            AnySem::Fmlp(one) => one.release(task),
            AnySem::Omlp(one) => one.release(task),
            AnySem::Mpcp(one) => one.release(task),
            AnySem::Pcp(c) => release_set(&mut sets.pcp[c.0 as usize], task, sem),
            AnySem::Srp(c) => release_srp(&mut sets.srp[c.0 as usize], task, sem),
        }
    }

    /// The task that holds the semaphore.
    pub fn holder(&self, sets: &Sets, sem: SemNo) -> Option<TaskNo>
        ensures { number_of_task result ≡ (state_by sets.now sem.0 self.now).holder }
    {
        match self {
            AnySem::Fmlp(one) => one.holder(),
            AnySem::Omlp(one) => one.holder(),
            AnySem::Mpcp(one) => one.holder(),
            AnySem::Pcp(c) => {
                let set = sets.pcp.get(c.0 as usize)?;
                set.holder(sem.0)
            }
            AnySem::Srp(c) => holder_of_srp(sets, *c, sem),
        }
    }

    /// The task for which all wait that wait for the semaphore.
    pub fn owner(&self, sets: &Sets, sem: SemNo) -> Option<TaskNo>
        ensures { number_of_task result ≡ owner_by sets.now sem.0 self.now }
    {
        match self {
            AnySem::Fmlp(one) => one.holder(),
            AnySem::Omlp(one) => one.holder(),
            AnySem::Mpcp(one) => one.holder(),
            AnySem::Pcp(c) => {
                let set = sets.pcp.get(c.0 as usize)?;
                set.newest()
            }
            AnySem::Srp(c) => holder_of_srp(sets, *c, sem),
        }
    }

    /// The task for which that task waits, where it waits for the semaphore.
    pub fn next(&self, sets: &Sets, sem: SemNo, task: TaskNo) -> Option<TaskNo>
        ensures { number_of_task result ≡ next_by sets.now sem.0 task.0 self.now }
    {
        match self {
            AnySem::Fmlp(one) => one.holder(),
            AnySem::Omlp(one) => one.holder(),
            AnySem::Mpcp(one) => one.holder(),
            AnySem::Pcp(c) => {
                let set = sets.pcp.get(c.0 as usize)?;
                set.blocker(task)
            }
            AnySem::Srp(c) => holder_of_srp(sets, *c, sem),
        }
    }

    /// Adds the tasks that wait for the semaphore behind what `into` holds, which has room for them.
    pub fn list_waiting(&self, sets: &Sets, sem: SemNo, into: &mut Vec<TaskNo>)
        requires { vec_len into.old + length (state_by sets.now sem.0 self.now).waiting ≤
            vec_capacity into.old }
        ensures tasks { numbers into.new.items ≡
            numbers into.old.items ++ (state_by sets.now sem.0 self.now).waiting }
        ensures capacity { vec_capacity into.new ≡ vec_capacity into.old }
    {
        match self {
            AnySem::Fmlp(one) => one.list_waiting(into),
            AnySem::Omlp(one) => one.list_waiting(into),
            AnySem::Mpcp(one) => one.list_waiting(into),
            AnySem::Pcp(c) => list_of_set(sets, *c, sem, into),
            AnySem::Srp(_) => {}
        }
    }

    /// Adds the tasks that wait for the owner of the semaphore behind what `into` holds, which has room for them.
    pub fn list_waiters(&self, sets: &Sets, sem: SemNo, into: &mut Vec<TaskNo>)
        requires { vec_len into.old + length (waiters_by sets.now sem.0 self.now) ≤
            vec_capacity into.old }
        ensures tasks { numbers into.new.items ≡
            numbers into.old.items ++ waiters_by sets.now sem.0 self.now }
        ensures capacity { vec_capacity into.new ≡ vec_capacity into.old }
    {
        match self {
            AnySem::Fmlp(one) => one.list_waiting(into),
            AnySem::Omlp(one) => one.list_waiting(into),
            AnySem::Mpcp(one) => one.list_waiting(into),
            AnySem::Pcp(c) => list_all_of_set(sets, *c, into),
            AnySem::Srp(_) => {}
        }
    }
}
