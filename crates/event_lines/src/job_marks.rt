//! The releases, deadlines and ends of jobs.
ghost use Rattle.std.specs.Prelude.{◌≡◌, ◌≤◌, ◌^◌, ◌++◌, flat_map, map, option_map, OnOk};
ghost use Rattle.event_texts.specs.JobInstants.{deadline_name};
ghost use Rattle.event_texts.specs.Records.{Piece, instant_event};
ghost use Rattle.event_lines.specs.inside.Commas.{with_comma, with_commas};
ghost use Rattle.event_lines.specs.inside.Openings.{instant_words};
ghost use Rattle.event_lines.specs.Shown.{due_shown, job_marks_shown};
ghost use Rattle.event_lines.specs.TrackEvents.{deadline_events, end_events, job_events, release_events};

use crate::put::{put, put_microseconds};
use crate::records::END;
use crate::text_pieces::Pieces;
use crate::threads::Thread;
use crate::tracks::{Due, JobMarks};
use decimals::Digits;
use std::alloc::{AllocError, Global};

const RELEASE: &[u8] = b",\"s\":\"t\",\"name\":\"release\",\"args\":{\"job\":";

const DEADLINE: &[u8] = b",\"s\":\"t\",\"name\":\"deadline\",\"args\":{\"job\":";

const MISSED: &[u8] = b",\"s\":\"t\",\"name\":\"deadline missed\",\"args\":{\"job\":";

const JOB_END: &[u8] = b",\"s\":\"t\",\"name\":\"end\",\"args\":{\"job\":";

/// Something of a job at a tick. The words are its name with what stands before it, and behind it up to the number of the job.
fn put_instant(
    text: &mut Vec<u8>,
    thread: &Thread,
    tick: u128,
    words: &[u8],
    job: &Digits,
) -> Result<(), AllocError>
    requires { tick ≤ 2 ^ 64 }
    ensures { OnOk result ((name : Piece) → words.now ≡ instant_words name → text.new.items
        ≡ text.old.items ++ with_comma
        (instant_event thread.now.process thread.now.number tick name job.now)) }
{
    thread.open_instant(text)?;
    put_microseconds(text, tick)?;
    put(text, words)?;
    job.put(text)?;
    put(text, END)
}

/// A release stands where its tick begins.
#[tactic(auto, using(crate::proofs::Joins::joins), unfolding(crate::specs::TrackEvents::release_events))]
fn put_release(
    text: &mut Vec<u8>,
    thread: &Thread,
    job: &Digits,
    release: Option<u64>,
) -> Result<(), AllocError>
    ensures { OnOk result (text.new.items ≡ text.old.items
        ++ with_commas (release_events thread.now.process thread.now.number job.now release)) }
{
    let Some(tick) = release else {
        return Ok(());
    };
    put_instant(text, thread, u128::from(tick), RELEASE, job)
}

fn deadline_words(missed: bool) -> &'static [u8]
    ensures { result.now ≡ instant_words (deadline_name missed) }
{
    if missed { MISSED } else { DEADLINE }
}

/// A deadline stands where its tick is over.
#[tactic(auto, using(crate::proofs::Joins::joins), unfolding(crate::specs::TrackEvents::deadline_events))]
fn put_deadline(
    text: &mut Vec<u8>,
    thread: &Thread,
    job: &Digits,
    deadline: Option<Due>,
) -> Result<(), AllocError>
    ensures { OnOk result (text.new.items ≡ text.old.items
        ++ with_commas (deadline_events thread.now.process thread.now.number job.now
        (option_map due_shown deadline))) }
{
    let Some(due) = deadline else {
        return Ok(());
    };
    put_instant(
        text,
        thread,
        u128::from(due.tick) + 1,
        deadline_words(due.missed),
        job,
    )
}

/// An end stands where its tick is over.
#[tactic(auto, using(crate::proofs::Joins::joins), unfolding(crate::specs::TrackEvents::end_events))]
fn put_end(
    text: &mut Vec<u8>,
    thread: &Thread,
    job: &Digits,
    end: Option<u64>,
) -> Result<(), AllocError>
    ensures { OnOk result (text.new.items ≡ text.old.items
        ++ with_commas (end_events thread.now.process thread.now.number job.now end)) }
{
    let Some(tick) = end else {
        return Ok(());
    };
    put_instant(text, thread, u128::from(tick) + 1, JOB_END, job)
}

#[tactic(auto, using(crate::proofs::Joins::loops), unfolding(crate::specs::TrackEvents::job_events))]
fn put_marks(
    text: &mut Vec<u8>,
    thread: &Thread,
    job: &Digits,
    marks: &JobMarks,
) -> Result<(), AllocError>
    requires { job.now ≡ marks.now.job }
    ensures { OnOk result (text.new.items ≡ text.old.items
        ++ with_commas
        (job_events thread.now.process thread.now.number (job_marks_shown marks.now))) }
{
    put_release(text, thread, job, marks.release)?;
    put_deadline(text, thread, job, marks.deadline)?;
    put_end(text, thread, job, marks.end)
}

/// The jobs of a task.
#[tactic(auto, using(crate::proofs::Joins::loops))]
pub(crate) fn put_job_marks(
    alloc: Global,
    text: &mut Pieces,
    thread: &Thread,
    jobs: &[JobMarks],
) -> Result<(), AllocError>
    ensures { OnOk result (text.new ≡ text.old
        ++ with_commas (flat_map (job_events thread.now.process thread.now.number)
        (map job_marks_shown jobs.now))) }
{
    let mut job = Digits::zero(alloc)?;
    for marks in jobs {
        job.set(u64::from(marks.job));
        put_marks(&mut text.last, thread, &job, marks)?;
        text.settle(alloc)?;
    }
    Ok(())
}
