//! Marks of tasks, by their numbers.
ghost use Rattle.std.specs.Prelude.{◌≡◌, ℕ, ◌<◌, ◌||◌, false, length, slice_index_or};
ghost use Rattle.rt_base.specs.TaskNos.{number_of_task, numbers, numbers_of_tasks};
ghost use Rattle.rt_rules.specs.Numbers.{has, is};
ghost use Rattle.rt_rules.specs.Placing.{tasks_in};

use rt_base::TaskNo;

/// Whether the task is marked.
pub(crate) fn is_marked(marks: &[bool], task: TaskNo) -> bool
    ensures { result ≡ slice_index_or marks.now task.0 false }
{
    match marks.get(task.0 as usize) {
        Some(mark) => *mark,
        None => false,
    }
}

/// Marks the task, if there is one, and it is among those that have marks.
fn mark(marks: &mut [bool], task: Option<TaskNo>)
    ensures { (t : ℕ) → t < length marks.old → slice_index_or marks.new t false
        ≡ is t (number_of_task task) || slice_index_or marks.old t false }
{
    let Some(task) = task else {
        return;
    };
    let position = task.0 as usize;
    if position >= marks.len() {
        return;
    }
    marks[position] = true;
}

/// Marks these tasks, and no others.
pub(crate) fn mark_tasks(marks: &mut [bool], tasks: &[TaskNo])
    ensures { (t : ℕ) → t < length marks.old → slice_index_or marks.new t false
        ≡ has t (numbers tasks.now) }
{
    marks.fill(false);
    for task in tasks {
        mark(marks, Some(*task));
    }
}

/// Marks the tasks that these processors are linked to or run, and no others.
pub(crate) fn mark_linked(marks: &mut [bool], positions: &[Option<TaskNo>])
    ensures { (t : ℕ) → t < length marks.old → slice_index_or marks.new t false
        ≡ has t (tasks_in (numbers_of_tasks positions.now)) }
{
    marks.fill(false);
    for task in positions {
        mark(marks, *task);
    }
}
