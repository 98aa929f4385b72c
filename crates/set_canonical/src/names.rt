//! Names by the numbers of what they name, from 1; a number that stands for nothing has the empty name.
ghost use Rattle.std.specs.Option.{option_copied};
ghost use Rattle.std.specs.Prelude.{◌≡◌, ◌-◌, ◌==◌, None, slice_get, if◌then◌else◌};
ghost use Rattle.set_canonical.specs.Values.{name_at, sem_names, resv_names, task_names};

use rt_base::{ResvNo, SemNo, TaskNo};
use rt_task::{Resv, Sem, Task};

/// The element of a number from 1, if there is one.
fn element<T>(elements: &[T], number: u32) -> Option<&T>
    ensures { option_copied result
        ≡ (if number == 0 then None else slice_get elements.now (number - 1)) }
{
    elements.get(number.checked_sub(1)? as usize)
}

pub fn sem_name(sems: &[Sem], number: SemNo) -> &[u8]
    ensures { result.now ≡ name_at (sem_names sems.now) number.0 }
{
    match element(sems, number.0) {
        Some(sem) => sem.name.as_slice(),
        None => &[],
    }
}

pub fn resv_name(resvs: &[Resv], number: ResvNo) -> &[u8]
    ensures { result.now ≡ name_at (resv_names resvs.now) number.0 }
{
    match element(resvs, number.0) {
        Some(resv) => resv.name.as_slice(),
        None => &[],
    }
}

pub fn task_name(tasks: &[Task], number: TaskNo) -> &[u8]
    ensures { result.now ≡ name_at (task_names tasks.now) number.0 }
{
    match element(tasks, number.0) {
        Some(task) => task.name.as_slice(),
        None => &[],
    }
}
