//! Spans to which one more is added, by the last of them alone.
ghost use Rattle.std.specs.Prelude.{◌≡◌, OnOk, map};
ghost use Rattle.rt_model.specs.Group.{Group};
ghost use Rattle.chart_cells.specs.Cells.{cpu_cell_shown};
ghost use Rattle.chart_rows.specs.Rows.{task_cleared};
ghost use Rattle.event_texts.specs.Budgets.{same_count};
ghost use Rattle.event_texts.specs.CpuSpans as cpu_texts;
ghost use Rattle.event_texts.specs.TaskSpans as task_texts;
ghost use Rattle.event_lines.specs.Shown.{budget_span_shown, cpu_span_shown, task_span_shown};
ghost use Rattle.span_feed.specs.Extended.{extended};

use crate::same::same_cpu_cell;
use chart_cells::{CpuCell, same_cell};
use chart_rows::TaskFeed;
use event_lines::{BudgetSpan, CpuSpan, TaskSpan};
use rt_base::NoMemory;
use std::alloc::Global;

/// What a task did from one tick up to another, as it is kept of the column that has ended: the next one is begun. Most often it is the
/// same as before, and only the end of the last span is moved.
pub(crate) fn take_task_span(
    spans: &mut Vec<TaskSpan>,
    alloc: Global,
    from: u64,
    to: u64,
    row: &mut TaskFeed,
) -> Result<(), NoMemory>
    ensures row { OnOk result ((g : Group) → row.new ≡ task_cleared g row.old) }
    ensures spans { OnOk result (map task_span_shown spans.new.items ≡ extended
        task_texts.same_cell from to row.old.kept (map task_span_shown spans.old.items)) }
{
    let count = spans.len();
    if count > 0 && same_cell(&spans[count - 1].cell, &row.kept) {
        spans[count - 1].to = to;
        row.clear();
        return Ok(());
    }
    let cell = row.take(alloc);
    spans.push(TaskSpan { from, to, cell })?;
    Ok(())
}

/// What a processor does from one tick up to another.
pub(crate) fn add_cpu_span(
    spans: &mut Vec<CpuSpan>,
    from: u64,
    to: u64,
    cell: CpuCell,
) -> Result<(), NoMemory>
    ensures { OnOk result (map cpu_span_shown spans.new.items ≡ extended
        cpu_texts.same_cell from to (cpu_cell_shown cell) (map cpu_span_shown spans.old.items)) }
{
    let count = spans.len();
    if count > 0 && same_cpu_cell(spans[count - 1].cell, cell) {
        spans[count - 1].to = to;
        return Ok(());
    }
    spans.push(CpuSpan { from, to, cell })?;
    Ok(())
}

/// What is left of a budget from one tick up to another.
pub(crate) fn add_budget_span(
    spans: &mut Vec<BudgetSpan>,
    from: u64,
    to: u64,
    left: u64,
) -> Result<(), NoMemory>
    ensures { OnOk result (map budget_span_shown spans.new.items
        ≡ extended same_count from to left (map budget_span_shown spans.old.items)) }
{
    let count = spans.len();
    if count > 0 && spans[count - 1].left == left {
        spans[count - 1].to = to;
        return Ok(());
    }
    spans.push(BudgetSpan { from, to, left })?;
    Ok(())
}
