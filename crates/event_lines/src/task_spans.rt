//! What tasks do, span by span.
ghost use Rattle.std.specs.List.{join_with_byte};
ghost use Rattle.std.specs.Prelude.{◌≡◌, ◌∷◌, ◌++◌, codes, decimal, flat_map, map, OnOk};
ghost use Rattle.chart_cells.specs.Cells.{cell_shown, cpu_numbers, doing_shown, sem_numbers};
ghost use Rattle.event_texts.specs.Records.{quoted, span_event};
ghost use Rattle.event_texts.specs.TaskSpans as spec;
ghost use Rattle.event_lines.specs.inside.Commas.{with_comma, with_commas};
ghost use Rattle.event_lines.specs.inside.Openings.{category, cell_rest, name_in, object, verb};
ghost use Rattle.event_lines.specs.Shown.{task_span_shown};
ghost use Rattle.event_lines.specs.TrackEvents.{some_group, task_span_events};

use crate::elements::sem_name;
use crate::put::{put, put_number, put_quoted, put_truth};
use crate::records::{END, open_span};
use crate::text_pieces::Pieces;
use crate::threads::Thread;
use crate::tracks::TaskSpan;
use chart_cells::{Cell, Doing};
use decimals::Digits;
use rt_base::{CpuNo, SemNo};
use rt_task::{Parts, Sem};
use std::alloc::{AllocError, Global};

/// The category of a span, and the words with which its name begins.
fn head_of(doing: &Doing) -> &'static [u8]
    ensures { let d = doing_shown doing.now in result.now ≡ category (spec.kind d) ++ verb d }
{
    match doing {
        Doing::Works(_) => b",\"cat\":\"work\",\"name\":\"works on ",
        Doing::Blocked(_) => b",\"cat\":\"blocked\",\"name\":\"blocked at ",
        Doing::Waits(_) => b",\"cat\":\"waits\",\"name\":\"waits for ",
        Doing::Sleeping => b",\"cat\":\"sleeps\",\"name\":\"sleeps",
        Doing::Running(_) => b",\"cat\":\"runs\",\"name\":\"runs on ",
        Doing::Ready => b",\"cat\":\"ready\",\"name\":\"ready",
        Doing::Away => b",\"cat\":\"\",\"name\":\"",
    }
}

/// More processors, a plus before each.
#[tactic(auto, using(crate::proofs::Joins::joins))]
fn put_more_cpus(text: &mut Vec<u8>, cpus: &[CpuNo]) -> Result<(), AllocError>
    ensures { OnOk result (text.new.items ≡ text.old.items
        ++ flat_map (λ w. 43 ∷ w) (map decimal (cpu_numbers cpus.now))) }
{
    for cpu in cpus {
        put(text, b"+")?;
        put_number(text, u64::from(cpu.0))?;
    }
    Ok(())
}

/// Processors, with a plus between them.
#[tactic(auto, using(crate::proofs::Joins::joins))]
fn put_cpus(text: &mut Vec<u8>, cpus: &[CpuNo]) -> Result<(), AllocError>
    ensures { OnOk result (text.new.items
        ≡ text.old.items ++ spec.cpus_text (cpu_numbers cpus.now)) }
{
    match cpus {
        [] => Ok(()),
        [first, more @ ..] => {
            put_number(text, u64::from(first.0))?;
            put_more_cpus(text, more)
        }
    }
}

/// More semaphores by their names in quotes, a comma before each.
#[tactic(auto, using(crate::proofs::Joins::joins))]
fn put_more_held(text: &mut Vec<u8>, sems: &[Sem], held: &[SemNo]) -> Result<(), AllocError>
    ensures { OnOk result (text.new.items ≡ text.old.items
        ++ flat_map (λ w. 44 ∷ w) (map quoted (map (name_in sems.now) (sem_numbers held.now)))) }
{
    for sem in held {
        put(text, b",")?;
        put_quoted(text, sem_name(sems, *sem))?;
    }
    Ok(())
}

/// Semaphores by their names in quotes, with a comma between them.
#[tactic(auto, using(crate::proofs::Joins::joins))]
fn put_held(text: &mut Vec<u8>, sems: &[Sem], held: &[SemNo]) -> Result<(), AllocError>
    ensures { OnOk result (text.new.items ≡ text.old.items
        ++ join_with_byte 44 (map quoted (map (name_in sems.now) (sem_numbers held.now)))) }
{
    match held {
        [] => Ok(()),
        [first, more @ ..] => {
            put_quoted(text, sem_name(sems, *first))?;
            put_more_held(text, sems, more)
        }
    }
}

/// The processors on which a task is, or the semaphore that it waits for.
#[tactic(auto, using(crate::proofs::Joins::joins), unfolding(rt_model::specs::Group::sem))]
fn put_object(text: &mut Vec<u8>, set: &Parts, doing: &Doing) -> Result<(), AllocError>
    ensures { OnOk result (text.new.items ≡ text.old.items
        ++ object (some_group set.now) (doing_shown doing.now)) }
{
    match doing {
        Doing::Works(cpus) | Doing::Running(cpus) => put_cpus(text, cpus),
        Doing::Blocked(sem) | Doing::Waits(sem) => {
            put(text, sem_name(set.sems.as_slice(), *sem))
        }
        Doing::Sleeping | Doing::Ready | Doing::Away => Ok(()),
    }
}

/// What ends a span of a task that holds nothing, is preemptive and has its own key.
const PLAIN: &[u8] = b",\"holds\":[],\"nonpreemptive\":false,\"raised\":false}},\n";

/// What stands behind the number of the job of a span.
fn put_rest(text: &mut Vec<u8>, set: &Parts, cell: &Cell) -> Result<(), AllocError>
    ensures { OnOk result (text.new.items ≡ text.old.items
        ++ cell_rest (some_group set.now) (cell_shown cell.now)) }
{
    put(text, b",\"holds\":[")?;
    put_held(text, set.sems.as_slice(), &cell.held)?;
    put(text, b"],\"nonpreemptive\":")?;
    put_truth(text, cell.non_preemptive)?;
    put(text, b",\"raised\":")?;
    put_truth(text, cell.raised)?;
    put(text, END)
}

/// The same, which of most spans is `PLAIN`.
fn put_cell_rest(text: &mut Vec<u8>, set: &Parts, cell: &Cell) -> Result<(), AllocError>
    ensures { OnOk result (text.new.items ≡ text.old.items
        ++ cell_rest (some_group set.now) (cell_shown cell.now)) }
{
    if cell.held.is_empty() && !cell.non_preemptive && !cell.raised {
        put(text, PLAIN)
    } else {
        put_rest(text, set, cell)
    }
}

/// The arguments of a span of a task, and the end of the event.
#[tactic(auto, using(crate::proofs::Joins::joins))]
fn put_arguments(
    text: &mut Vec<u8>,
    set: &Parts,
    job: &Digits,
    cell: &Cell,
) -> Result<(), AllocError>
    requires { job.now ≡ cell.now.job }
    ensures { OnOk result (text.new.items ≡ text.old.items ++ (codes "\",\"args\":{\"job\":"
        ++ (decimal cell.now.job ++ cell_rest (some_group set.now) (cell_shown cell.now)))) }
{
    put(text, b"\",\"args\":{\"job\":")?;
    job.put(text)?;
    put_cell_rest(text, set, cell)
}

/// A span of a task whose job is there.
fn put_there(
    text: &mut Vec<u8>,
    set: &Parts,
    thread: &Thread,
    job: &Digits,
    span: &TaskSpan,
) -> Result<(), AllocError>
    requires { job.now ≡ span.now.cell.job }
    ensures { let g = some_group set.now in let cell = cell_shown span.now.cell in
        OnOk result (text.new.items ≡ text.old.items ++ with_comma
        (span_event thread.now.process thread.now.number span.now.from span.now.to
        (spec.kind cell.doing)
        (spec.name g cell.doing) (spec.cell_arguments g cell))) }
{
    open_span(text, thread, span.from, span.to)?;
    put(text, head_of(&span.cell.doing))?;
    put_object(text, set, &span.cell.doing)?;
    put_arguments(text, set, job, &span.cell)
}

/// A span of a task, where its job is there.
fn put_span(
    text: &mut Vec<u8>,
    set: &Parts,
    thread: &Thread,
    job: &Digits,
    span: &TaskSpan,
) -> Result<(), AllocError>
    requires { job.now ≡ span.now.cell.job }
    ensures { OnOk result (text.new.items ≡ text.old.items ++ with_commas
        (task_span_events (some_group set.now) thread.now.process thread.now.number
        (task_span_shown span.now))) }
{
    match &span.cell.doing {
        Doing::Away => Ok(()),
        _ => put_there(text, set, thread, job, span),
    }
}

/// The spans of a task.
#[tactic(auto, using(crate::proofs::Joins::loops))]
pub(crate) fn put_task_spans(
    alloc: Global,
    text: &mut Pieces,
    set: &Parts,
    thread: &Thread,
    spans: &[TaskSpan],
) -> Result<(), AllocError>
    ensures { OnOk result (text.new ≡ text.old
        ++ with_commas (flat_map
        (task_span_events (some_group set.now) thread.now.process thread.now.number)
        (map task_span_shown spans.now))) }
{
    let mut job = Digits::zero(alloc)?;
    for span in spans {
        job.set(span.cell.job);
        put_span(&mut text.last, set, thread, &job, span)?;
        text.settle(alloc)?;
    }
    Ok(())
}
