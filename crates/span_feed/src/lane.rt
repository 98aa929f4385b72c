//! The spans of a task over the ticks that are over, of which the last is left as it is while the task does the same.
ghost use Rattle.std.specs.Prelude.{◌≡◌, [], IfOk, OnOk, Some, map, slice_index_or, None, true};
ghost use Rattle.rt_model.specs.Group.{Group};
ghost use Rattle.chart_rows.specs.ReadyJobs.{ready_cell};
ghost use Rattle.chart_rows.specs.Rows.{TaskKept};
ghost use Rattle.event_lines.specs.Shown.{task_span_shown, task_track_shown};
ghost use Rattle.span_feed.specs.Begun.{GoesOn, IsHeld, IsLeft, IsRunOrReady};
ghost use Rattle.span_feed.specs.Lane.{EndsWith, last_to, lasting, touched, track_to};
ghost use Rattle.span_feed.specs.Spanned.{task_more};
ghost use Rattle.span_feed.specs.Still.{HasRested, IsStill};

use crate::spans::take_task_span;
use crate::stay::{Stay, is_gone, stay_of};
use chart_cells::Doing;
use chart_rows::{ReadyJob, ReadyJobs, TaskFeed};
use event_lines::{TaskSpan, TaskTrack};
use rt_base::{NoMemory, TaskNo};
use std::alloc::Global;
use std::marker::Model;

/// The spans of a task over the ticks that are over. While it is known what the task goes on to do, its last span is left as it is:
/// it lasts up to the newest of these ticks, whatever its end says.
#[derive(Drop)]
pub(crate) struct TaskLane {
    track: TaskTrack,
    stays: Stay,
}

impl Model for TaskLane {
    ghost use Rattle.event_lines.specs.Shown.{task_track_shown};
    ghost use Rattle.span_feed.specs.Lane as seen;
    ghost use Rattle.span_feed.specs.Lane.{EndsWith, lasting};

    ghost Value = { seen.TaskLane };

    ghost view = { λ a. record { track = task_track_shown a.track; stays = a.stays } };

    ghost invariant = { λ a. EndsWith (lasting a.stays) (task_track_shown a.track).spans };
}

/// Ends the last span, if there is one, at a tick.
fn end_last(spans: &mut [TaskSpan], tick: u64)
    ensures { map task_span_shown spans.new ≡ last_to tick (map task_span_shown spans.old) }
{
    if let Some(last) = spans.last_mut() {
        last.to = tick;
    }
}

/// What the last span shows, if the task may go on so.
fn end_of(spans: &[TaskSpan], known: Option<ReadyJob>) -> Stay
    ensures ends { EndsWith (lasting result) (map task_span_shown spans.now) }
    ensures known { (j : ReadyJob) → result ≡ Stay.Rests j → known ≡ Some j }
{
    match spans.last() {
        Some(last) => stay_of(&last.cell, known),
        None => Stay::Changes,
    }
}

/// Leaves the cell of a ready job in a row that is begun.
fn leave(row: &mut TaskFeed, job: ReadyJob)
    ensures { (k : TaskKept) → k ≡ row.old → row.new ≡ record k { kept = ready_cell job } }
{
    row.kept.doing = Doing::Ready;
    row.kept.job = job.number;
    row.kept.held.clear();
    row.kept.non_preemptive = job.non_preemptive;
    row.kept.raised = false;
}

impl TaskLane {
    /// A task before the first tick, with room for so many spans.
    pub(crate) fn new(alloc: Global, task: TaskNo, room: usize) -> Result<TaskLane, NoMemory>
        ensures { IfOk result (λ l. l ≡ record {
          track = record { task = task.0; spans = []; jobs = [] };
          stays = Stay.Changes;
        }) }
    {
        let spans = Vec::with_capacity(alloc, room)?;
        let track = TaskTrack {
            task,
            spans,
            jobs: Vec::new(alloc),
        };
        Ok(TaskLane {
            track,
            stays: Stay::Changes,
        })
    }

    /// Whether the task goes on as it did in the column of its row, which has ended.
    #[inline(always)]
    fn goes_on(&self, row: &TaskFeed) -> bool
        ensures { result ≡ true → GoesOn self.now row.now }
    {
        if let Stay::Rests(_) = self.stays {
            return matches!(row.kept.doing, Doing::Ready);
        }
        matches!(self.stays, Stay::Away) && is_gone(&row.kept)
    }

    /// Where the task does not go on as it did, its last span ends where the ticks that are over do.
    fn settle(&mut self, over: u64)
        ensures { self.new ≡ record { track = track_to over self.old; stays = Stay.Changes } }
    {
        if !matches!(self.stays, Stay::Changes) {
            self.stays = Stay::Changes;
            end_last(self.track.spans.as_mut_slice(), over);
        }
    }

    /// Finds what the task goes on to do, from what is known of it and from its last span. The cell of a ready job is left in its row,
    /// which is begun.
    fn hold(&mut self, row: &mut TaskFeed, known: Option<ReadyJob>)
        ensures track { self.new.track ≡ self.old.track }
        ensures held { IsHeld known self.new.stays row.old row.new }
    {
        self.stays = end_of(self.track.spans.as_slice(), known);
        if let Stay::Rests(job) = self.stays {
            leave(row, job);
        }
    }

    /// Takes what is kept of the column of a row, where the task may not stay as it was.
    #[inline(never)]
    fn take_anew(
        &mut self,
        alloc: Global,
        row: &mut TaskFeed,
        known: Option<ReadyJob>,
        from: u64,
        to: u64,
    ) -> Result<(), NoMemory>
        ensures row { OnOk result ((g : Group) → IsLeft g known row.old row.new) }
        ensures track { OnOk result (track_to to self.new
            ≡ task_more from to row.old (track_to from self.old)) }
        ensures still { OnOk result (IsStill known self.new row.new) }
    {
        self.settle(from);
        take_task_span(&mut self.track.spans, alloc, from, to, row)?;
        self.hold(row, known);
        Ok(())
    }

    /// Takes what is kept of the column of a row, which has ended and stands for the ticks from one on up to another; the next one is
    /// begun. While the task goes on as it did, nothing is to be done.
    #[inline(always)]
    pub(crate) fn take(
        &mut self,
        alloc: Global,
        row: &mut TaskFeed,
        ready: &ReadyJobs,
        from: u64,
        to: u64,
    ) -> Result<(), NoMemory>
        requires run { IsRunOrReady (slice_index_or ready.now row.old.task None) row.old }
        requires rested { HasRested (slice_index_or ready.now row.old.task None) self.old }
        ensures row { OnOk result ((g : Group)
            → IsLeft g (slice_index_or ready.now row.old.task None) row.old row.new) }
        ensures track { OnOk result (track_to to self.new
            ≡ task_more from to row.old (track_to from self.old)) }
        ensures still { OnOk result
            (IsStill (slice_index_or ready.now row.old.task None) self.new row.new) }
    {
        if self.goes_on(row) {
            row.end = false;
            return Ok(());
        }
        let known = ready.get(row.task);
        self.take_anew(alloc, row, known, from, to)
    }

    /// Whether the task rests.
    #[inline(always)]
    pub(crate) fn is_at_rest(&self) -> bool
        ensures { result ≡ true → (j : ReadyJob) × (self.now.stays ≡ Stay.Rests j) }
    {
        matches!(self.stays, Stay::Rests(_))
    }

    /// An act touches the task, which rests no more.
    pub(crate) fn wake(&mut self)
        ensures { self.new ≡ touched self.old }
    {
        if let Stay::Rests(job) = self.stays {
            self.stays = Stay::Touched(job);
        }
    }

    /// The track, where so many ticks are over.
    pub(crate) fn close(mut self, over: u64) -> TaskTrack
        ensures { task_track_shown result ≡ track_to over self }
    {
        self.settle(over);
        self.track
    }
}
