//! The elements of a set by their numbers, and the processes of a group.
ghost use Rattle.std.specs.Prelude.{◌≡◌, ◌-◌, slice_index_or};
ghost use Rattle.rt_model.specs.Group.{no_resv, no_sem, no_task};
ghost use Rattle.event_lines.specs.TrackEvents as spec;

use rt_base::{GroupNo, ResvNo, SemNo, TaskNo};
use rt_task::{Resv, Sem, Task};

pub(crate) fn task_name(tasks: &[Task], task: TaskNo) -> &[u8]
    ensures { result.now ≡ (slice_index_or tasks.now (task.0 - 1) no_task).name }
{
    match tasks.get(task.0.saturating_sub(1) as usize) {
        Some(task) => task.name.as_slice(),
        None => &[],
    }
}

pub(crate) fn sem_name(sems: &[Sem], sem: SemNo) -> &[u8]
    ensures { result.now ≡ (slice_index_or sems.now (sem.0 - 1) no_sem).name }
{
    match sems.get(sem.0.saturating_sub(1) as usize) {
        Some(sem) => sem.name.as_slice(),
        None => &[],
    }
}

pub(crate) fn resv_name(resvs: &[Resv], resv: ResvNo) -> &[u8]
    ensures { result.now ≡ (slice_index_or resvs.now (resv.0 - 1) no_resv).name }
{
    match resvs.get(resv.0.saturating_sub(1) as usize) {
        Some(resv) => resv.name.as_slice(),
        None => &[],
    }
}

/// The process of a group's tasks.
pub(crate) fn task_process(group: GroupNo) -> u64
    ensures { result ≡ spec.task_process group.0 }
{
    3 * u64::from(group.0) + 1
}

/// The process of a group's processors.
pub(crate) fn cpu_process(group: GroupNo) -> u64
    ensures { result ≡ spec.cpu_process group.0 }
{
    3 * u64::from(group.0) + 2
}

/// The process of a group's reservations.
pub(crate) fn resv_process(group: GroupNo) -> u64
    ensures { result ≡ spec.resv_process group.0 }
{
    3 * u64::from(group.0) + 3
}
