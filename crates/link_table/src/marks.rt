//! Marks of tasks: whether a task is in a list, without a search.
ghost use Rattle.std.specs.Prelude.{◌≡◌, ◌<◌, ◌≤◌, IfNone, IfOk, IfSome, false, length, slice_index_or, not, true, [], ◌∷◌, slice_set};
ghost use Rattle.rt_base.specs.TaskNos.{number_of_task, numbers, numbers_of_tasks};
ghost use Rattle.rt_rules.specs.Numbers.{has};
ghost use Rattle.rt_rules.specs.Placing.{tasks_in};
ghost use Rattle.link_table.specs.Marks.{AreMarks, Says, with_mark};

use rt_base::{MOST_TASKS, NoMemory, TaskNo};
use std::alloc::Global;
use std::marker::Model;

/// A mark for each task number up to `MOST_TASKS`: whether the task is in a list.
///
/// A task with a greater number has no mark, and is looked for in the list itself.
#[derive(Drop)]
pub(crate) struct TaskMarks {
    marks: Vec<bool>,
}

impl Model for TaskMarks {
    ghost use Rattle.std.specs.Prelude.{◌≡◌, ◌+◌, Bool, List, length};
    ghost use Rattle.rt_base.specs.declared.TheConstants.{MOST_TASKS};

    ghost Value = { List Bool };

    ghost view = { λ a. a.marks.items };

    ghost invariant = { λ a. length a.marks.items ≡ MOST_TASKS + 1 };
}

impl TaskMarks {
    /// Marks that are all clear.
    pub(crate) fn new(alloc: Global) -> Result<TaskMarks, NoMemory>
        ensures { IfOk result (λ marks. AreMarks marks []) }
    {
        let marks = vec![in alloc; false; MOST_TASKS as usize + 1]?;
        Ok(TaskMarks { marks })
    }

    // Whether the task is marked, if it has a mark.
    fn get(&self, t: TaskNo) -> Option<bool>
        ensures some { IfSome result (λ marked. (t.0 < length self.now) ×
            (slice_index_or self.now t.0 false ≡ marked)) }
        ensures none { IfNone result (length self.now ≤ t.0) }
    {
        self.marks.get(t.0 as usize).copied()
    }

    /// Marks the task or clears its mark, if it has one.
    pub(crate) fn set(&mut self, t: TaskNo, marked: bool)
        ensures { self.new ≡ slice_set self.old t.0 marked }
    {
        if let Some(mark) = self.marks.get_mut(t.0 as usize) {
            *mark = marked;
        }
    }

    /// Marks the tasks, where all marks are clear.
    pub(crate) fn mark_tasks(&mut self, ts: &[TaskNo])
        requires { AreMarks self.old [] }
        ensures { AreMarks self.new (numbers ts.now) }
    {
        for t in ts {
            self.set(*t, true);
        }
    }

    /// Marks the task or clears its mark, where there is one.
    pub(crate) fn set_of(&mut self, o: Option<TaskNo>, marked: bool)
        ensures { self.new ≡ with_mark self.old (number_of_task o) marked }
    {
        if let Some(t) = o {
            self.set(t, marked);
        }
    }

    /// Whether the task is in the list, where its mark says so.
    pub(crate) fn is_among(&self, ts: &[TaskNo], t: TaskNo) -> bool
        requires { Says self.now t.0 (has t.0 (numbers ts.now)) }
        ensures { result ≡ has t.0 (numbers ts.now) }
    {
        match self.get(t) {
            Some(marked) => marked,
            None => is_among(ts, t),
        }
    }

    /// Whether the task is among those of the processors, where its mark says so.
    pub(crate) fn is_linked(&self, links: &[Option<TaskNo>], t: TaskNo) -> bool
        requires { Says self.now t.0 (has t.0 (tasks_in (numbers_of_tasks links.now))) }
        ensures { result ≡ has t.0 (tasks_in (numbers_of_tasks links.now)) }
    {
        match self.get(t) {
            Some(marked) => marked,
            None => is_linked(links, t),
        }
    }

    /// Whether the task is none of those of the processors, where its mark says so.
    pub(crate) fn is_left(&self, links: &[Option<TaskNo>], t: TaskNo) -> bool
        requires { Says self.now t.0 (not (has t.0 (tasks_in (numbers_of_tasks links.now)))) }
        ensures { result ≡ not (has t.0 (tasks_in (numbers_of_tasks links.now))) }
    {
        match self.get(t) {
            Some(marked) => marked,
            None => !is_linked(links, t),
        }
    }
}

fn is_among(ts: &[TaskNo], t: TaskNo) -> bool
    ensures { result ≡ has t.0 (numbers ts.now) }
{
    for u in ts {
        if t.0 == u.0 {
            return true;
        }
    }
    false
}

fn is_linked(links: &[Option<TaskNo>], t: TaskNo) -> bool
    ensures { result ≡ has t.0 (tasks_in (numbers_of_tasks links.now)) }
{
    for o in links {
        if let Some(u) = o {
            if t.0 == u.0 {
                return true;
            }
        }
    }
    false
}
