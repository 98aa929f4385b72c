//! The events of groups.
ghost use Rattle.std.specs.Prelude.{◌≡◌, ◌++◌, flat_map, map, OnOk};
ghost use Rattle.event_lines.specs.inside.Commas.{with_commas};
ghost use Rattle.event_lines.specs.Shown.{cpu_track_shown, group_tracks_shown, resv_track_shown, task_track_shown};
ghost use Rattle.event_lines.specs.TrackEvents.{cpu_events, resv_events, some_group, task_events, tracks_events};

use crate::budgets::put_budget_spans;
use crate::cpu_spans::put_cpu_spans;
use crate::elements::{cpu_process, resv_process, task_process};
use crate::job_marks::put_job_marks;
use crate::names::{put_cpu_names, put_resv_names, put_task_names};
use crate::task_spans::put_task_spans;
use crate::text_pieces::Pieces;
use crate::threads::Thread;
use crate::tracks::{CpuTrack, GroupTracks, ResvTrack, TaskTrack};
use rt_task::Parts;
use std::alloc::{AllocError, Global};

#[tactic(auto, using(crate::proofs::Joins::loops))]
fn put_task(
    alloc: Global,
    text: &mut Pieces,
    set: &Parts,
    process: u64,
    track: TaskTrack,
) -> Result<(), AllocError>
    ensures { OnOk result (text.new ≡ text.old
        ++ with_commas (task_events (some_group set.now) process (task_track_shown track))) }
{
    let TaskTrack { task, spans, jobs } = track;
    let thread = Thread::new(alloc, process, u64::from(task.0))?;
    put_task_spans(alloc, text, set, &thread, &spans)?;
    // The text of the jobs comes to lie where the spans lay.
    drop(spans);
    put_job_marks(alloc, text, &thread, &jobs)
}

#[tactic(auto, using(crate::proofs::Joins::loops))]
fn put_tasks(
    alloc: Global,
    text: &mut Pieces,
    set: &Parts,
    process: u64,
    tracks: Vec<TaskTrack>,
) -> Result<(), AllocError>
    ensures { OnOk result (text.new ≡ text.old
        ++ with_commas (flat_map (task_events (some_group set.now) process)
        (map task_track_shown tracks.items))) }
{
    for track in tracks {
        put_task(alloc, text, set, process, track)?;
    }
    Ok(())
}

#[tactic(auto, using(crate::proofs::Joins::loops))]
fn put_cpus(
    alloc: Global,
    text: &mut Pieces,
    set: &Parts,
    process: u64,
    tracks: Vec<CpuTrack>,
) -> Result<(), AllocError>
    ensures { OnOk result (text.new ≡ text.old
        ++ with_commas (flat_map (cpu_events (some_group set.now) process)
        (map cpu_track_shown tracks.items))) }
{
    for track in tracks {
        put_cpu_spans(alloc, text, set, process, track.cpu, &track.spans)?;
    }
    Ok(())
}

#[tactic(auto, using(crate::proofs::Joins::loops))]
fn put_resvs(
    alloc: Global,
    text: &mut Pieces,
    set: &Parts,
    process: u64,
    tracks: Vec<ResvTrack>,
) -> Result<(), AllocError>
    ensures { OnOk result (text.new ≡ text.old
        ++ with_commas (flat_map (resv_events (some_group set.now) process)
        (map resv_track_shown tracks.items))) }
{
    for track in tracks {
        put_budget_spans(alloc, text, set, process, track.resv, &track.spans)?;
    }
    Ok(())
}

#[tactic(auto, using(crate::proofs::Joins::loops), unfolding(crate::specs::TrackEvents::tracks_events))]
fn put_group(
    alloc: Global,
    text: &mut Pieces,
    set: &Parts,
    tracks: GroupTracks,
) -> Result<(), AllocError>
    ensures { OnOk result (text.new ≡ text.old
        ++ with_commas (tracks_events (some_group set.now) (group_tracks_shown tracks))) }
{
    let GroupTracks {
        group,
        tasks,
        cpus,
        resvs,
    } = tracks;
    put_task_names(&mut text.last, set, group, &tasks)?;
    put_cpu_names(&mut text.last, group, &cpus)?;
    put_resv_names(&mut text.last, group, &resvs)?;
    put_tasks(alloc, text, set, task_process(group), tasks)?;
    put_cpus(alloc, text, set, cpu_process(group), cpus)?;
    put_resvs(alloc, text, set, resv_process(group), resvs)
}

/// The events of groups, a comma behind each.
#[tactic(auto, using(crate::proofs::Joins::loops))]
pub(crate) fn put_groups(
    alloc: Global,
    text: &mut Pieces,
    set: &Parts,
    groups: Vec<GroupTracks>,
) -> Result<(), AllocError>
    ensures { OnOk result (text.new ≡ text.old
        ++ with_commas (flat_map (tracks_events (some_group set.now))
        (map group_tracks_shown groups.items))) }
{
    for tracks in groups {
        put_group(alloc, text, set, tracks)?;
    }
    Ok(())
}
