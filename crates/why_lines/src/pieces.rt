//! The pieces of lines: names of tasks and of semaphores, numbers and keys.
ghost use Rattle.std.specs.Prelude.{◌≡◌, ◌++◌, OnOk, decimal};
ghost use Rattle.rt_base.specs.TaskNos.{number_of_task, numbers};
ghost use Rattle.rt_model.specs.Group as groups;
ghost use Rattle.why_texts.specs.Pieces as texts;
ghost use Rattle.why_lines.specs.GroupSets.{group_in};
ghost use Rattle.why_lines.specs.SemNos.{number_of_sem, sem_numbers};

use rt_base::{GroupNo, NoMemory, SemNo, TaskNo};
use rt_rules::Key;
use rt_task::{Parts, Protocol};
use trace_lines::put_number as put_decimal;

/// A group of a set, whose tasks and semaphores lines name.
#[derive(Clone, Copy)]
pub struct GroupSet<'a> {
    pub parts: &'a Parts,
    pub group: GroupNo,
}

/// Bytes at the end of a text.
pub fn put(out: &mut Vec<u8>, bytes: &[u8]) -> Result<(), NoMemory>
    ensures { OnOk result (out.new.items ≡ out.old.items ++ bytes.now) }
{
    Ok(out.extend_from_slice(bytes)?)
}

/// A number in decimal digits.
pub fn put_number(out: &mut Vec<u8>, n: u64) -> Result<(), NoMemory>
    ensures { OnOk result (out.new.items ≡ out.old.items ++ decimal n) }
{
    Ok(put_decimal(out, n)?)
}

#[tactic(auto, unfolding(rt_model::specs::Group::task))]
fn task_name<'a>(set: &GroupSet<'a>, task: TaskNo) -> &'a [u8]
    ensures { result.now ≡ texts.task_name (group_in set.now) task.0 }
{
    match set
        .parts
        .tasks
        .as_slice()
        .get(task.0.saturating_sub(1) as usize)
    {
        Some(task) => task.name.as_slice(),
        None => &[],
    }
}

#[tactic(auto, unfolding(rt_model::specs::Group::sem))]
fn sem_name<'a>(set: &GroupSet<'a>, sem: SemNo) -> &'a [u8]
    ensures { result.now ≡ texts.sem_name (group_in set.now) sem.0 }
{
    match set
        .parts
        .sems
        .as_slice()
        .get(sem.0.saturating_sub(1) as usize)
    {
        Some(sem) => sem.name.as_slice(),
        None => &[],
    }
}

/// The protocol of a semaphore.
#[tactic(auto, unfolding(rt_model::specs::Group::protocol, rt_model::specs::Group::sem))]
pub fn protocol_of(set: &GroupSet, sem: SemNo) -> Protocol
    ensures { result ≡ groups.protocol (group_in set.now) sem.0 }
{
    match set
        .parts
        .sems
        .as_slice()
        .get(sem.0.saturating_sub(1) as usize)
    {
        Some(sem) => sem.protocol,
        None => Protocol::Fmlp,
    }
}

/// The name of a task.
pub(crate) fn put_task(out: &mut Vec<u8>, set: &GroupSet, task: TaskNo) -> Result<(), NoMemory>
    ensures { OnOk result (out.new.items
        ≡ out.old.items ++ texts.task_name (group_in set.now) task.0) }
{
    put(out, task_name(set, task))
}

/// The name of a task, or a dash for none.
pub fn put_task_or_dash(
    out: &mut Vec<u8>,
    set: &GroupSet,
    task: Option<TaskNo>,
) -> Result<(), NoMemory>
    ensures { OnOk result (out.new.items
        ≡ out.old.items ++ texts.task_or_dash (group_in set.now) (number_of_task task)) }
{
    match task {
        Some(task) => put_task(out, set, task),
        None => put(out, b"-"),
    }
}

/// The names of tasks, each after a blank.
#[tactic(auto, using(std::proofs::Common::append_assoc))]
pub(crate) fn put_tasks(out: &mut Vec<u8>, set: &GroupSet, tasks: &[TaskNo]) -> Result<(), NoMemory>
    ensures { OnOk result (out.new.items
        ≡ out.old.items ++ texts.task_names (group_in set.now) (numbers tasks.now)) }
{
    for task in tasks {
        put(out, b" ")?;
        put_task(out, set, *task)?;
    }
    Ok(())
}

/// The name of a semaphore.
pub(crate) fn put_sem(out: &mut Vec<u8>, set: &GroupSet, sem: SemNo) -> Result<(), NoMemory>
    ensures { OnOk result (out.new.items
        ≡ out.old.items ++ texts.sem_name (group_in set.now) sem.0) }
{
    put(out, sem_name(set, sem))
}

/// The name of a semaphore, or a dash for none.
pub fn put_sem_or_dash(
    out: &mut Vec<u8>,
    set: &GroupSet,
    sem: Option<SemNo>,
) -> Result<(), NoMemory>
    ensures { OnOk result (out.new.items
        ≡ out.old.items ++ texts.sem_or_dash (group_in set.now) (number_of_sem sem)) }
{
    match sem {
        Some(sem) => put_sem(out, set, sem),
        None => put(out, b"-"),
    }
}

/// The names of semaphores, each after a blank.
#[tactic(auto, using(std::proofs::Common::append_assoc))]
pub(crate) fn put_sems(out: &mut Vec<u8>, set: &GroupSet, sems: &[SemNo]) -> Result<(), NoMemory>
    ensures { OnOk result (out.new.items
        ≡ out.old.items ++ texts.sem_names (group_in set.now) (sem_numbers sems.now)) }
{
    for sem in sems {
        put(out, b" ")?;
        put_sem(out, set, *sem)?;
    }
    Ok(())
}

/// A key: its band, major and minor part.
#[tactic(auto, using(std::proofs::Common::append_assoc, crate::proofs::Writing::nothing_behind))]
pub(crate) fn put_key(out: &mut Vec<u8>, key: Key) -> Result<(), NoMemory>
    ensures { OnOk result (out.new.items ≡ out.old.items ++ texts.key_piece key) }
{
    put_number(out, u64::from(key.band))?;
    put(out, b"/")?;
    put_number(out, key.major)?;
    put(out, b"/")?;
    put_number(out, u64::from(key.minor))
}
