//! What is kept of a column that has ended, taken out of the rows and put behind their spans.
ghost use Rattle.std.specs.Prelude.{◌≡◌, ◌+◌, ◌-◌, ◌<◌, ◌++◌, ◌∷◌, [], All, IfOk, List, None, OnOk, length, map, replicate, slice_index_or};
ghost use Rattle.rt_model.specs.Group.{Group};
ghost use Rattle.chart_rows.specs.Rows.{TaskKept, task_cleared};
ghost use Rattle.chart_rows.specs.Strips.{Strip, blank};
ghost use Rattle.event_lines.specs.Shown.{cpu_track_shown, group_tracks_shown, resv_track_shown, task_track_shown};
ghost use Rattle.span_feed.specs.Begun.{HasBegun, IsBegun, IsRunOrReady};
ghost use Rattle.span_feed.specs.Feeds.{tracks_to};
ghost use Rattle.span_feed.specs.Lane.{track_to};
ghost use Rattle.span_feed.specs.Spanned.{HasEnded, cpu_cleared, cpu_more, paired, resv_cleared, resv_more, task_more};
ghost use Rattle.span_feed.specs.Still.{AreRested, AreStill};

use crate::lane::TaskLane;
use crate::lanes::GroupLanes;
use crate::spans::{add_budget_span, add_cpu_span};
use chart_rows::{CpuFeed, ReadyJobs, ResvFeed, Rows, TaskFeed};
use event_lines::{CpuTrack, GroupTracks, ResvTrack, TaskTrack};
use rt_base::NoMemory;
use std::alloc::Global;

fn take_cpu(row: &mut CpuFeed, track: &mut CpuTrack, from: u64, to: u64) -> Result<(), NoMemory>
    ensures row { OnOk result (row.new ≡ cpu_cleared row.old) }
    ensures track { OnOk result (cpu_track_shown track.new
        ≡ cpu_more from to row.old (cpu_track_shown track.old)) }
{
    match row.kept.take() {
        Some(cell) => add_cpu_span(&mut track.spans, from, to, cell),
        None => Ok(()),
    }
}

fn take_resv(row: &mut ResvFeed, track: &mut ResvTrack, from: u64, to: u64) -> Result<(), NoMemory>
    ensures row { OnOk result (row.new ≡ resv_cleared row.old) }
    ensures track { OnOk result (resv_track_shown track.new
        ≡ resv_more from to row.old (resv_track_shown track.old)) }
{
    match row.kept.take() {
        Some(left) => add_budget_span(&mut track.spans, from, to, left),
        None => Ok(()),
    }
}

fn take_tasks(
    alloc: Global,
    rows: &mut [TaskFeed],
    lanes: &mut [TaskLane],
    ready: &ReadyJobs,
    from: u64,
    to: u64,
) -> Result<(), NoMemory>
    requires long { length lanes.old ≡ length rows.old }
    requires shown { All (λ (k : TaskKept).
        IsRunOrReady (slice_index_or ready.now k.task None) k) rows.old }
    requires rested { AreRested ready.now lanes.old rows.old }
    ensures cleared { OnOk result ((g : Group)
        → map (task_cleared g) rows.new ≡ map (task_cleared g) rows.old) }
    ensures begun { OnOk result ((g : Group) → All (IsBegun g ready.now) rows.new) }
    ensures lanes { OnOk result (map (track_to to) lanes.new
        ≡ paired (task_more from to) rows.old (map (track_to from) lanes.old)) }
    ensures still { OnOk result ((g : Group) → AreStill ready.now lanes.new rows.new) }
{
    for (i, row) in rows.iter_mut().enumerate() {
        lanes[i].take(alloc, row, ready, from, to)?;
    }
    Ok(())
}

fn take_cpus(
    rows: &mut [CpuFeed],
    tracks: &mut [CpuTrack],
    from: u64,
    to: u64,
) -> Result<(), NoMemory>
    requires { length tracks.old ≡ length rows.old }
    ensures rows { OnOk result (rows.new ≡ map cpu_cleared rows.old) }
    ensures tracks { OnOk result (map cpu_track_shown tracks.new
        ≡ paired (cpu_more from to) rows.old (map cpu_track_shown tracks.old)) }
{
    for (i, row) in rows.iter_mut().enumerate() {
        take_cpu(row, &mut tracks[i], from, to)?;
    }
    Ok(())
}

fn take_resvs(
    rows: &mut [ResvFeed],
    tracks: &mut [ResvTrack],
    from: u64,
    to: u64,
) -> Result<(), NoMemory>
    requires { length tracks.old ≡ length rows.old }
    ensures rows { OnOk result (rows.new ≡ map resv_cleared rows.old) }
    ensures tracks { OnOk result (map resv_track_shown tracks.new
        ≡ paired (resv_more from to) rows.old (map resv_track_shown tracks.old)) }
{
    for (i, row) in rows.iter_mut().enumerate() {
        take_resv(row, &mut tracks[i], from, to)?;
    }
    Ok(())
}

/// The column that has ended stands for the ticks from one on up to another, and the next one is begun, with what is known of tasks
/// that are ready.
pub(crate) fn take_column(
    alloc: Global,
    rows: &mut Rows,
    lanes: &mut GroupLanes,
    ready: &ReadyJobs,
    from: u64,
    to: u64,
) -> Result<(), NoMemory>
    requires ended { (g : Group) × (ss : List Strip) × (s : Strip)
        × HasEnded g ss s rows.old (tracks_to from lanes.old) }
    requires shown { All (λ (k : TaskKept).
        IsRunOrReady (slice_index_or ready.now k.task None) k) rows.old.tasks }
    requires rested { AreRested ready.now lanes.old.tasks.items rows.old.tasks }
    ensures begun { OnOk result ((g : Group) (ss : List Strip) (s : Strip) → from ≡ length ss → from < to
        → HasEnded g ss s rows.old (tracks_to from lanes.old)
        → HasBegun g ready.now (ss ++ replicate (to - from) s) rows.new (tracks_to to lanes.new)) }
    ensures still { OnOk result ((g : Group)
        → AreStill ready.now lanes.new.tasks.items rows.new.tasks) }
{
    take_tasks(
        alloc,
        rows.tasks.as_mut_slice(),
        lanes.tasks.as_mut_slice(),
        ready,
        from,
        to,
    )?;
    take_cpus(
        rows.cpus.as_mut_slice(),
        lanes.cpus.as_mut_slice(),
        from,
        to,
    )?;
    take_resvs(
        rows.resvs.as_mut_slice(),
        lanes.resvs.as_mut_slice(),
        from,
        to,
    )?;
    Ok(())
}

/// The tracks of tasks, where so many ticks are over.
fn close_tasks(alloc: Global, lanes: Vec<TaskLane>, over: u64) -> Result<Vec<TaskTrack>, NoMemory>
    ensures { IfOk result (λ v. map task_track_shown v.items ≡ map (track_to over) lanes.items) }
{
    let mut tracks = Vec::new(alloc);
    for lane in lanes {
        tracks.push(lane.close(over))?;
    }
    Ok(tracks)
}

/// The tracks of a group, where so many ticks are over.
pub(crate) fn close_lanes(
    alloc: Global,
    lanes: GroupLanes,
    over: u64,
) -> Result<GroupTracks, NoMemory>
    ensures { IfOk result (λ x. group_tracks_shown x ≡ tracks_to over lanes) }
{
    let tasks = close_tasks(alloc, lanes.tasks, over)?;
    Ok(GroupTracks {
        group: lanes.group,
        tasks,
        cpus: lanes.cpus,
        resvs: lanes.resvs,
    })
}
