//! Listing tasks that wait behind a holder.
ghost use Rattle.std.specs.Prelude.{◌≡◌, ◌+◌, ◌≤◌, ◌++◌, length, vec_len, vec_capacity};
ghost use Rattle.rt_base.specs.TaskNos.{numbers};
ghost use Rattle.rt_rules.specs.Numbers.{rest};

use rt_base::TaskNo;
use std::collections::VecDeque;

/// Adds the tasks of a line but the first, in order, behind what `into` holds, which has room for them. It takes no
/// memory.
///
/// Example: where `into` is empty and the line is 1, 4, 2, `into` is 4, 2 afterwards.
pub fn list_behind_first(line: &VecDeque<TaskNo>, into: &mut Vec<TaskNo>)
    requires room { vec_len into.old + length (rest (numbers line.now.items)) ≤
        vec_capacity into.old }
    ensures tasks { numbers into.new.items ≡
        numbers into.old.items ++ rest (numbers line.now.items) }
    ensures capacity { vec_capacity into.new ≡ vec_capacity into.old }
{
    for i in 1..line.len() {
        into.push_reserved(line[i]);
    }
}
