//! What a group's tasks, processors and reservations have done before its first tick: nothing.
ghost use Rattle.std.specs.Prelude.{◌≡◌, [], All, IfOk, map};
ghost use Rattle.rt_base.specs.TaskNos.{numbers};
ghost use Rattle.rt_model.specs.Group.{Group};
ghost use Rattle.chart_cells.specs.Cells.{cpu_numbers};
ghost use Rattle.chart_rows.specs.Units.{resv_numbers};
ghost use Rattle.event_lines.specs.Shown.{cpu_track_shown, resv_track_shown};
ghost use Rattle.span_feed.specs.Lane as seen;
ghost use Rattle.span_feed.specs.Lane.{track_to};
ghost use Rattle.span_feed.specs.Spanned.{cpu_spanned, resv_spanned, task_spanned};

use crate::lane::TaskLane;
use crate::stay::Stay;
use event_lines::{CpuTrack, ResvTrack};
use rt_base::{CpuNo, NoMemory, ResvNo, TaskNo};
use std::alloc::Global;

/// The spans of these tasks. Room is kept for as many spans as there are steps, as many for each task.
pub(crate) fn task_lanes(
    alloc: Global,
    tasks: &[TaskNo],
    steps: u32,
) -> Result<Vec<TaskLane>, NoMemory>
    ensures lanes { IfOk result (λ v. (g : Group)
        → map (track_to 0) v.items ≡ map (task_spanned g []) (numbers tasks.now)) }
    ensures none_rests { IfOk result
        (λ v. All (λ (l : seen.TaskLane). l.stays ≡ Stay.Changes) v.items) }
{
    let room = steps as usize / tasks.len().max(1);
    let mut lanes = Vec::new(alloc);
    for task in tasks {
        lanes.push(TaskLane::new(alloc, *task, room)?)?;
    }
    Ok(lanes)
}

/// The tracks of these processors.
pub(crate) fn cpu_tracks(alloc: Global, cpus: &[CpuNo]) -> Result<Vec<CpuTrack>, NoMemory>
    ensures { IfOk result (λ v. (g : Group)
        → map cpu_track_shown v.items ≡ map (cpu_spanned g []) (cpu_numbers cpus.now)) }
{
    let mut tracks = Vec::new(alloc);
    for cpu in cpus {
        tracks.push(CpuTrack {
            cpu: *cpu,
            spans: Vec::new(alloc),
        })?;
    }
    Ok(tracks)
}

/// The tracks of these reservations.
pub(crate) fn resv_tracks(alloc: Global, resvs: &[ResvNo]) -> Result<Vec<ResvTrack>, NoMemory>
    ensures { IfOk result (λ v. (g : Group)
        → map resv_track_shown v.items ≡ map (resv_spanned g []) (resv_numbers resvs.now)) }
{
    let mut tracks = Vec::new(alloc);
    for resv in resvs {
        tracks.push(ResvTrack {
            resv: *resv,
            spans: Vec::new(alloc),
        })?;
    }
    Ok(tracks)
}
