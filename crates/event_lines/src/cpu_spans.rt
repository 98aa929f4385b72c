//! What processors do, span by span.
ghost use Rattle.std.specs.Prelude.{◌≡◌, ◌+◌, ◌++◌, codes, flat_map, map, OnOk};
ghost use Rattle.rt_base.specs.TaskNos.{number_of_task};
ghost use Rattle.event_texts.specs.CpuSpans as spec;
ghost use Rattle.event_texts.specs.Records.{Piece, span_event};
ghost use Rattle.event_lines.specs.inside.Commas.{with_comma, with_commas};
ghost use Rattle.event_lines.specs.inside.Openings.{category};
ghost use Rattle.event_lines.specs.Shown.{cpu_span_shown};
ghost use Rattle.event_lines.specs.TrackEvents.{cpu_span_events, some_group};

use crate::elements::task_name;
use crate::put::put;
use crate::records::open_span;
use crate::text_pieces::Pieces;
use crate::threads::Thread;
use crate::tracks::CpuSpan;
use chart_cells::Playing;
use rt_base::{CpuNo, TaskNo};
use rt_task::Parts;
use std::alloc::{AllocError, Global};

/// The task that the processor is linked to, as the argument of a span, and the end of the event.
#[tactic(auto, using(crate::proofs::Joins::joins), unfolding(rt_model::specs::Group::task))]
fn put_link(text: &mut Vec<u8>, set: &Parts, link: Option<TaskNo>) -> Result<(), AllocError>
    ensures { OnOk result (text.new.items ≡ text.old.items ++ (codes "\",\"args\":{"
        ++ (spec.link_argument (some_group set.now) (number_of_task link) ++ codes "}},\n"))) }
{
    match link {
        Some(task) => {
            put(text, b"\",\"args\":{\"link\":\"")?;
            put(text, task_name(set.tasks.as_slice(), task))?;
            put(text, b"\"}},\n")
        }
        None => put(text, b"\",\"args\":{\"link\":null}},\n"),
    }
}

/// A span of this category, with the name of the task that the processor has.
fn put_busy(
    text: &mut Vec<u8>,
    set: &Parts,
    thread: &Thread,
    span: CpuSpan,
    words: &[u8],
    name: &[u8],
) -> Result<(), AllocError>
    ensures { let link = number_of_task span.cell.link in OnOk result ((kind : Piece)
        → words.now ≡ category kind → text.new.items
        ≡ text.old.items ++ with_comma
        (span_event thread.now.process thread.now.number span.from span.to kind name.now
        (spec.link_argument (some_group set.now) link))) }
{
    open_span(text, thread, span.from, span.to)?;
    put(text, words)?;
    put(text, name)?;
    put_link(text, set, span.cell.link)
}

/// A span of a processor, where it has a task.
fn put_span(
    text: &mut Vec<u8>,
    set: &Parts,
    thread: &Thread,
    cpu: CpuNo,
    span: CpuSpan,
) -> Result<(), AllocError>
    requires { thread.now.number ≡ cpu.0 + 1 }
    ensures { OnOk result (text.new.items ≡ text.old.items ++ with_commas
        (cpu_span_events (some_group set.now) thread.now.process cpu.0 (cpu_span_shown span))) }
{
    let tasks = set.tasks.as_slice();
    match span.cell.playing {
        Playing::WorksFor(task) => {
            put_busy(
                text,
                set,
                thread,
                span,
                b",\"cat\":\"work\",\"name\":\"",
                task_name(tasks, task),
            )
        }
        Playing::RunsTask(task) => {
            put_busy(
                text,
                set,
                thread,
                span,
                b",\"cat\":\"runs\",\"name\":\"",
                task_name(tasks, task),
            )
        }
        Playing::Idle => Ok(()),
    }
}

/// The spans of a processor, on its thread.
#[tactic(auto, using(crate::proofs::Joins::loops))]
fn put_all_spans(
    alloc: Global,
    text: &mut Pieces,
    set: &Parts,
    thread: &Thread,
    cpu: CpuNo,
    spans: &[CpuSpan],
) -> Result<(), AllocError>
    requires { thread.now.number ≡ cpu.0 + 1 }
    ensures { OnOk result (text.new ≡ text.old
        ++ with_commas (flat_map (cpu_span_events (some_group set.now) thread.now.process cpu.0)
        (map cpu_span_shown spans.now))) }
{
    for span in spans {
        put_span(&mut text.last, set, thread, cpu, *span)?;
        text.settle(alloc)?;
    }
    Ok(())
}

/// The spans of a processor. Its thread has the number after its own.
pub(crate) fn put_cpu_spans(
    alloc: Global,
    text: &mut Pieces,
    set: &Parts,
    process: u64,
    cpu: CpuNo,
    spans: &[CpuSpan],
) -> Result<(), AllocError>
    ensures { OnOk result (text.new ≡ text.old
        ++ with_commas (flat_map (cpu_span_events (some_group set.now) process cpu.0)
        (map cpu_span_shown spans.now))) }
{
    let thread = Thread::new(alloc, process, u64::from(cpu.0) + 1)?;
    put_all_spans(alloc, text, set, &thread, cpu, spans)
}
