//! The links of a partition's processor, found by playing its history again.
ghost use Rattle.std.specs.Prelude.{◌≡◌, ◌∷◌, [], IfOk};
ghost use Rattle.rt_base.specs.TaskNos.{numbers_of_tasks};
ghost use Rattle.split_rules.specs.PartHistories.{links_from};
ghost use Rattle.split_rules.specs.PartLinks.{linked};
ghost use Rattle.split_rules.specs.Partitions.{part_group};
ghost use Rattle.split_writer.specs.PartPlays.{IsPartPlay, IsPartition};

use crate::partition::{ceilings_of, tasks_of};
use crate::replay::play;
use part_state::PartState;
use rt_base::{CpuNo, NoMemory, TaskNo};
use rt_task::Parts;
use split_rules::SplitEntry;
use std::alloc::Global;

/// The link at the opening, and the one after each entry of the partition's history.
pub(crate) fn links_of(
    alloc: Global,
    parts: &Parts,
    cpu: CpuNo,
    entries: &[SplitEntry],
) -> Result<Vec<Option<TaskNo>>, NoMemory>
    requires partition { IsPartition parts.now cpu.0 }
    requires play { IsPartPlay parts.now cpu.0 entries.now }
    ensures { let g = part_group parts.now cpu.0 in IfOk result (λ v.
        numbers_of_tasks v.items ≡ linked g cpu.0 [] ∷ links_from g cpu.0 [] entries.now) }
{
    let rows = parts.tasks.as_slice();
    let tasks = tasks_of(alloc, parts, cpu)?;
    let ceilings = ceilings_of(alloc, parts, cpu)?;
    let cpus = parts.clusters.as_slice().len() as u32;
    let mut state = PartState::open(alloc, rows.len() as u32, cpus)?;
    let mut links = Vec::new(alloc);
    links.push(state.linked(parts, &ceilings, tasks.as_slice()))?;
    for entry in entries {
        play(&mut state, rows, cpu, entry);
        links.push(state.linked(parts, &ceilings, tasks.as_slice()))?;
    }
    Ok(links)
}
