//! The names of processes and threads.
ghost use Rattle.std.specs.Prelude.{◌≡◌, ◌+◌, ◌<◌, ◌^◌, ◌++◌, map, codes, decimal, OnOk};
ghost use Rattle.event_texts.specs.Records.{thread_event};
ghost use Rattle.event_lines.specs.inside.Commas.{with_comma, with_commas};
ghost use Rattle.event_lines.specs.Shown.{cpu_track_shown, resv_track_shown, task_track_shown};
ghost use Rattle.event_lines.specs.TrackEvents.{cpu_names, cpu_thread, group_words, process_name, resv_names, some_group, task_names, task_thread};

use crate::elements::{cpu_process, resv_process, task_name, task_process};
use crate::put::{put, put_number};
use crate::records::{Phase, open_named, put_begun, put_on_thread};
use crate::tracks::{CpuTrack, ResvTrack, TaskTrack};
use rt_base::GroupNo;
use rt_task::Parts;
use std::alloc::AllocError;

/// What ends an event with a name, with the comma and the line feed behind it.
const NAMED_END: &[u8] = b"\"}},\n";

/// A group by its number, and what of it.
#[tactic(auto, using(crate::proofs::Joins::joins))]
fn put_group_name(text: &mut Vec<u8>, group: GroupNo, what: &[u8]) -> Result<(), AllocError>
    ensures { OnOk result (text.new.items ≡ text.old.items ++ group_words group.0 what.now) }
{
    put(text, b"group ")?;
    put_number(text, u64::from(group.0))?;
    put(text, b" ")?;
    put(text, what)
}

/// A process, and what of the group it is.
fn put_process(
    text: &mut Vec<u8>,
    process: u64,
    group: GroupNo,
    what: &[u8],
) -> Result<(), AllocError>
    ensures { OnOk result (text.new.items ≡ text.old.items
        ++ with_comma (process_name process group.0 what.now)) }
{
    put_begun(text, Phase::Name, process)?;
    open_named(text, b"process_name")?;
    put_group_name(text, group, what)?;
    put(text, NAMED_END)
}

/// A thread with this name.
fn put_thread(text: &mut Vec<u8>, process: u64, thread: u64, name: &[u8]) -> Result<(), AllocError>
    ensures { OnOk result (text.new.items ≡ text.old.items
        ++ with_comma (thread_event process thread name.now)) }
{
    put_on_thread(text, Phase::Name, process, thread)?;
    open_named(text, b"thread_name")?;
    put(text, name)?;
    put(text, NAMED_END)
}

#[tactic(auto, unfolding(crate::specs::TrackEvents::task_thread, rt_model::specs::Group::task))]
fn put_task_thread(
    text: &mut Vec<u8>,
    set: &Parts,
    process: u64,
    track: &TaskTrack,
) -> Result<(), AllocError>
    ensures { OnOk result (text.new.items ≡ text.old.items ++ with_comma
        (task_thread (some_group set.now) process (task_track_shown track.now))) }
{
    let name = task_name(set.tasks.as_slice(), track.task);
    put_thread(text, process, u64::from(track.task.0), name)
}

/// A processor has the thread with the number after its own.
fn put_processor(text: &mut Vec<u8>, process: u64, cpu: u64) -> Result<(), AllocError>
    requires { cpu < 2 ^ 32 }
    ensures { OnOk result (text.new.items ≡ text.old.items
        ++ with_comma (thread_event process (cpu + 1) (codes "processor " ++ decimal cpu))) }
{
    put_on_thread(text, Phase::Name, process, cpu + 1)?;
    open_named(text, b"thread_name")?;
    put(text, b"processor ")?;
    put_number(text, cpu)?;
    put(text, NAMED_END)
}

#[tactic(auto, unfolding(crate::specs::TrackEvents::cpu_thread))]
fn put_cpu_thread(text: &mut Vec<u8>, process: u64, track: &CpuTrack) -> Result<(), AllocError>
    ensures { OnOk result (text.new.items ≡ text.old.items
        ++ with_comma (cpu_thread process (cpu_track_shown track.now))) }
{
    put_processor(text, process, u64::from(track.cpu.0))
}

#[tactic(auto, using(crate::proofs::Joins::loops))]
fn put_task_threads(
    text: &mut Vec<u8>,
    set: &Parts,
    process: u64,
    tracks: &[TaskTrack],
) -> Result<(), AllocError>
    ensures { OnOk result (text.new.items ≡ text.old.items ++ with_commas
        (map (task_thread (some_group set.now) process) (map task_track_shown tracks.now))) }
{
    for track in tracks {
        put_task_thread(text, set, process, track)?;
    }
    Ok(())
}

#[tactic(auto, using(crate::proofs::Joins::loops))]
fn put_cpu_threads(text: &mut Vec<u8>, process: u64, tracks: &[CpuTrack]) -> Result<(), AllocError>
    ensures { OnOk result (text.new.items ≡ text.old.items
        ++ with_commas (map (cpu_thread process) (map cpu_track_shown tracks.now))) }
{
    for track in tracks {
        put_cpu_thread(text, process, track)?;
    }
    Ok(())
}

/// The process of a group's tasks, and their threads.
#[tactic(auto, using(crate::proofs::Joins::joins))]
pub(crate) fn put_task_names(
    text: &mut Vec<u8>,
    set: &Parts,
    group: GroupNo,
    tracks: &[TaskTrack],
) -> Result<(), AllocError>
    ensures { OnOk result (text.new.items ≡ text.old.items ++ with_commas
        (task_names (some_group set.now) group.0 (map task_track_shown tracks.now))) }
{
    let process = task_process(group);
    put_process(text, process, group, b"tasks")?;
    put_task_threads(text, set, process, tracks)
}

/// The process of a group's processors, and their threads.
#[tactic(auto, using(crate::proofs::Joins::joins))]
pub(crate) fn put_cpu_names(
    text: &mut Vec<u8>,
    group: GroupNo,
    tracks: &[CpuTrack],
) -> Result<(), AllocError>
    ensures { OnOk result (text.new.items ≡ text.old.items
        ++ with_commas (cpu_names group.0 (map cpu_track_shown tracks.now))) }
{
    let process = cpu_process(group);
    put_process(text, process, group, b"processors")?;
    put_cpu_threads(text, process, tracks)
}

/// The process of a group's reservations, where it has any.
#[tactic(auto, using(crate::proofs::Joins::joins))]
pub(crate) fn put_resv_names(
    text: &mut Vec<u8>,
    group: GroupNo,
    tracks: &[ResvTrack],
) -> Result<(), AllocError>
    ensures { OnOk result (text.new.items ≡ text.old.items
        ++ with_commas (resv_names group.0 (map resv_track_shown tracks.now))) }
{
    if tracks.is_empty() {
        return Ok(());
    }
    put_process(text, resv_process(group), group, b"reservations")
}
