//! The clients that reservations have ceased or begun to serve.
ghost use Rattle.std.specs.Prelude.{◌≡◌, ◌≤◌, ◌+◌, [], ◌∷◌, ◌++◌, length, vec_capacity, vec_len};
ghost use Rattle.rt_base.specs.TaskNos.{number_of_task, numbers, numbers_of_tasks};
ghost use Rattle.group_resvs.specs.GroupResvs.{all_changed, changed_of};
ghost use Rattle.rt_rules.specs.Placing.{tasks_in};

use rt_base::TaskNo;

/// Adds the task, if there is one, in room that was taken before.
fn put_any(into: &mut Vec<TaskNo>, task: Option<TaskNo>)
    requires room { vec_len into.old + 1 ≤ vec_capacity into.old }
    ensures items { numbers into.new.items
        ≡ numbers into.old.items ++ tasks_in (number_of_task task ∷ []) }
    ensures len { vec_len into.new ≤ vec_len into.old + 1 }
    ensures capacity { vec_capacity into.old ≤ vec_capacity into.new }
{
    if let Some(task) = task {
        into.push_reserved(task);
    }
}

/// Adds the client that a reservation served before and the one that it serves now, where they differ.
pub(crate) fn put_changed(into: &mut Vec<TaskNo>, before: Option<TaskNo>, now: Option<TaskNo>)
    requires room { vec_len into.old + 2 ≤ vec_capacity into.old }
    ensures items { numbers into.new.items
        ≡ numbers into.old.items ++ changed_of (number_of_task before) (number_of_task now) }
    ensures len { vec_len into.new ≤ vec_len into.old + 2 }
    ensures capacity { vec_capacity into.old ≤ vec_capacity into.new }
{
    if before != now {
        put_any(into, before);
        put_any(into, now);
    }
}

/// Lists the clients that the reservations served before or serve now and not both, in room that was taken before.
pub(crate) fn list_changed(
    before: &[Option<TaskNo>],
    now: &[Option<TaskNo>],
    into: &mut Vec<TaskNo>,
)
    requires same { length before.now ≡ length now.now }
    requires room { length now.now + length now.now ≤ vec_capacity into.old }
    ensures items { numbers into.new.items
        ≡ all_changed (numbers_of_tasks before.now) (numbers_of_tasks now.now) }
    ensures capacity { vec_capacity into.old ≤ vec_capacity into.new }
{
    into.clear();
    for (i, now) in now.iter().enumerate() {
        put_changed(into, before[i], *now);
    }
}
