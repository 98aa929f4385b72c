//! What a group's tasks, processors and reservations have done over the ticks that are over.
use crate::lane::TaskLane;
use event_lines::{CpuTrack, ResvTrack};
use rt_base::GroupNo;

/// A group: its tasks, processors and reservations, each by rising number.
#[derive(Drop)]
pub(crate) struct GroupLanes {
    pub(crate) group: GroupNo,
    pub(crate) tasks: Vec<TaskLane>,
    pub(crate) cpus: Vec<CpuTrack>,
    pub(crate) resvs: Vec<ResvTrack>,
}
