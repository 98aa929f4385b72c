//! Placing: which of the top tasks goes to which processor of the cluster.
ghost use Rattle.std.specs.Prelude.{◌≡◌, ℕ, ◌<◌, [], IsSome, None, false, filter, length, not, slice_index_or, true};
ghost use Rattle.rt_base.specs.TaskNos.{number_of_task, numbers, numbers_of_tasks};
ghost use Rattle.rt_rules.specs.Distinct.{IsDistinct};
ghost use Rattle.rt_rules.specs.Numbers.{has, is};
ghost use Rattle.rt_rules.specs.Placing.{filled_with, kept, kept_link, placed, tasks_in};
ghost use Rattle.link_table.specs.Linked.{exchanged, first_taken};
ghost use Rattle.link_table.specs.Marks.{AreMarks, Says};

use crate::marks::TaskMarks;
use rt_base::TaskNo;

/// Links the tasks of the top, which are given highest first. The marks of the top are clear before and after, and those
/// of the runs mark what runs.
///
/// Each loop goes once over the processors or over the top.
pub(crate) fn place(
    top: &[TaskNo],
    runs: &[Option<TaskNo>],
    links: &mut [Option<TaskNo>],
    top_marks: &mut TaskMarks,
    run_marks: &TaskMarks,
)
    requires length { length runs.now ≡ length links.old }
    requires distinct { IsDistinct (numbers top.now) }
    requires runs_once { IsDistinct (tasks_in (numbers_of_tasks runs.now)) }
    requires linked_once { IsDistinct (tasks_in (numbers_of_tasks links.old)) }
    requires top_clear { AreMarks top_marks.old [] }
    requires runs { AreMarks run_marks.now (tasks_in (numbers_of_tasks runs.now)) }
    ensures placed { numbers_of_tasks links.new ≡
        placed (numbers top.now) (numbers_of_tasks runs.now) (numbers_of_tasks links.old) }
    ensures top_clear { AreMarks top_marks.new [] }
{
    top_marks.mark_tasks(top);
    keep(top, runs, links, top_marks, run_marks);
    fill(top, links, top_marks);
}

/// Takes the link from the task that left, and links the first processor that is left then to the one that came.
///
/// It goes once over the processors, as far as the later of the two places.
pub(crate) fn exchange(links: &mut [Option<TaskNo>], left: Option<TaskNo>, came: Option<TaskNo>)
    ensures { numbers_of_tasks links.new ≡
        exchanged (number_of_task left) (number_of_task came) (numbers_of_tasks links.old) }
{
    let mut waiting = came;
    for q in 0..links.len() {
        if links[q] == left {
            links[q] = waiting;
            return;
        }
        if links[q].is_none() {
            links[q] = waiting;
            waiting = None;
        }
    }
}

// The link that a processor keeps, where the marks tell of its run and of its link.
fn kept_at(
    top: &[TaskNo],
    all: &[Option<TaskNo>],
    runs: Option<TaskNo>,
    link: Option<TaskNo>,
    top_marks: &TaskMarks,
    run_marks: &TaskMarks,
) -> Option<TaskNo>
    requires run { (t : ℕ) → is t (number_of_task runs) ≡ true →
        Says top_marks.now t (has t (numbers top.now)) }
    requires link { (t : ℕ) → is t (number_of_task link) ≡ true →
        has t (tasks_in (numbers_of_tasks all.now)) ≡ false →
        Says top_marks.now t (has t (numbers top.now)) }
    requires runs { AreMarks run_marks.now (tasks_in (numbers_of_tasks all.now)) }
    ensures { number_of_task result ≡ kept_link (numbers top.now)
        (tasks_in (numbers_of_tasks all.now)) (number_of_task runs) (number_of_task link) }
{
    if let Some(t) = runs {
        if top_marks.is_among(top, t) {
            return runs;
        }
    }
    match link {
        Some(t) => {
            if !run_marks.is_linked(all, t) && top_marks.is_among(top, t) {
                link
            } else {
                None
            }
        }
        None => None,
    }
}

// Each processor keeps its link or loses it. The marks of the top are cleared of the tasks that are linked.
fn keep(
    top: &[TaskNo],
    runs: &[Option<TaskNo>],
    links: &mut [Option<TaskNo>],
    top_marks: &mut TaskMarks,
    run_marks: &TaskMarks,
)
    requires length { length runs.now ≡ length links.old }
    requires runs_once { IsDistinct (tasks_in (numbers_of_tasks runs.now)) }
    requires linked_once { IsDistinct (tasks_in (numbers_of_tasks links.old)) }
    requires top { AreMarks top_marks.old (numbers top.now) }
    requires runs { AreMarks run_marks.now (tasks_in (numbers_of_tasks runs.now)) }
    ensures kept { numbers_of_tasks links.new ≡
        kept (numbers top.now) (tasks_in (numbers_of_tasks runs.now)) (numbers_of_tasks runs.now)
        (numbers_of_tasks links.old) }
    ensures left { AreMarks top_marks.new
        (filter (λ (t : ℕ). not (has t (tasks_in (numbers_of_tasks links.new))))
        (numbers top.now)) }
{
    for q in 0..links.len() {
        let link = kept_at(top, runs, runs[q], links[q], top_marks, run_marks);
        links[q] = link;
        top_marks.set_of(link, false);
    }
}

// The first processor that is left takes the task, where all below `from` are taken. It gives the place from which
// the next one is to be looked for.
fn put(links: &mut [Option<TaskNo>], t: TaskNo, from: usize) -> usize
    requires { (k : ℕ) → k < from → IsSome (slice_index_or links.old k None) }
    ensures put { numbers_of_tasks links.new ≡ first_taken t.0 (numbers_of_tasks links.old) }
    ensures taken { (k : ℕ) → k < result → IsSome (slice_index_or links.new k None) }
{
    for q in from..links.len() {
        if links[q].is_none() {
            links[q] = Some(t);
            return q + 1;
        }
    }
    links.len()
}

// The tasks of the top that are marked take the processors that are left, and their marks are cleared.
fn fill(top: &[TaskNo], links: &mut [Option<TaskNo>], top_marks: &mut TaskMarks)
    requires distinct { IsDistinct (numbers top.now) }
    requires left { AreMarks top_marks.old
        (filter (λ (t : ℕ). not (has t (tasks_in (numbers_of_tasks links.old))))
        (numbers top.now)) }
    ensures filled { numbers_of_tasks links.new ≡
        filled_with (numbers top.now) (numbers_of_tasks links.old) }
    ensures clear { AreMarks top_marks.new [] }
{
    let mut from = 0;
    for t in top {
        if top_marks.is_left(links, *t) {
            from = put(links, *t, from);
        }
        top_marks.set(*t, false);
    }
}
