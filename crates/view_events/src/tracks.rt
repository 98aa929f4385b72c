//! The tracks of a group: its spans, with the marks of its jobs.
ghost use Rattle.std.specs.Prelude.{◌≡◌, All, IfOk, OnOk, map};
ghost use Rattle.rt_model.specs.Group.{Group};
ghost use Rattle.rt_model.specs.Past.{Past};
ghost use Rattle.event_lines.specs.Shown.{group_tracks_shown, task_track_shown};
ghost use Rattle.event_lines.specs.TracksOf.{tracks_of};
ghost use Rattle.view_events.specs.inside.JobMarks.{AreJobsOf, HasTaskOf, with_marks};
ghost use Rattle.view_events.specs.inside.Recordings.{IsRecorded, group_of};

use crate::recording::Recording;
use event_lines::{GroupTracks, TaskTrack};
use job_marks::JobTimes;
use rt_base::{NoMemory, Tick};
use rt_task::{Setup, Task};
use std::alloc::Global;

/// Adds the marks of the jobs of its task to a track.
fn mark(
    alloc: Global,
    tasks: &[Task],
    times: &JobTimes,
    clock: Tick,
    track: &mut TaskTrack,
) -> Result<(), NoMemory>
    requires { (g : Group) × (past : Past) × AreJobsOf g past tasks.now times.now clock.0
        × HasTaskOf g (task_track_shown track.old) }
    ensures { OnOk result ((g : Group) (past : Past)
        → AreJobsOf g past tasks.now times.now clock.0
        → HasTaskOf g (task_track_shown track.old)
        → task_track_shown track.new ≡ with_marks g past (task_track_shown track.old)) }
{
    let task = &tasks[track.task.0 as usize - 1];
    track.jobs = times.marks(alloc, task, clock)?;
    Ok(())
}

/// Adds the marks of the jobs of their tasks to tracks.
fn mark_all(
    alloc: Global,
    tasks: &[Task],
    times: &JobTimes,
    clock: Tick,
    tracks: &mut [TaskTrack],
) -> Result<(), NoMemory>
    requires { (g : Group) × (past : Past) × AreJobsOf g past tasks.now times.now clock.0
        × All (HasTaskOf g) (map task_track_shown tracks.old) }
    ensures { OnOk result ((g : Group) (past : Past)
        → AreJobsOf g past tasks.now times.now clock.0
        → All (HasTaskOf g) (map task_track_shown tracks.old)
        → map task_track_shown tracks.new
        ≡ map (with_marks g past) (map task_track_shown tracks.old)) }
{
    for track in tracks.iter_mut() {
        mark(alloc, tasks, times, clock, track)?;
    }
    Ok(())
}

/// The tracks of a group with the marks of the jobs of its tasks.
fn marked(
    alloc: Global,
    tasks: &[Task],
    times: &JobTimes,
    clock: Tick,
    mut tracks: GroupTracks,
) -> Result<GroupTracks, NoMemory>
    requires { (g : Group) × (past : Past) × AreJobsOf g past tasks.now times.now clock.0
        × All (HasTaskOf g) (group_tracks_shown tracks).tasks }
    ensures { let shown = group_tracks_shown tracks in IfOk result (λ x. (g : Group) (past : Past)
        → AreJobsOf g past tasks.now times.now clock.0
        → All (HasTaskOf g) shown.tasks → group_tracks_shown x
        ≡ record shown { tasks = map (with_marks g past) shown.tasks }) }
{
    let rows = tracks.tasks.as_mut_slice();
    mark_all(alloc, tasks, times, clock, rows)?;
    Ok(tracks)
}

/// The tracks of the group of a recording, with the marks of its jobs.
pub(crate) fn tracks_of(
    alloc: Global,
    setup: &Setup,
    recording: Recording,
) -> Result<GroupTracks, NoMemory>
    requires setup { setup.now ≡ (group_of recording).setup }
    requires recorded { (past : Past) × IsRecorded past recording }
    ensures { IfOk result (λ x. (past : Past) → IsRecorded past recording
        → group_tracks_shown x ≡ tracks_of (group_of recording) past) }
{
    let parts = setup.parts();
    let Recording {
        replay,
        feed,
        times,
    } = recording;
    let clock = replay.now();
    let tracks = feed.close(alloc, replay.afresh(), clock)?;
    marked(alloc, parts.tasks.as_slice(), &times, clock, tracks)
}
