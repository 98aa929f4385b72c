//! The boosts of holders by the set's plugin.
ghost use Rattle.std.specs.Prelude.{◌≡◌, ◌≤◌, length};
ghost use Rattle.group_sems.specs.BoostKeys as boosting;
ghost use Rattle.group_sems.specs.BoostKeys.{IsSemOf};

use mpcp_ceilings::MpcpCeilings;
use plugins::{CEdf, GsnEdf, PFp, PsnEdf};
use rt_base::{SemNo, TaskNo, Tick};
use rt_rules::{Key, Plugin};
use rt_task::{Parts, PluginKind, Protocol, Task};

/// The key of the task while it holds a semaphore of this protocol and ceiling that it was granted at `granted`.
fn boost_under(
    plugin: PluginKind,
    row: &Task,
    protocol: Protocol,
    granted: Tick,
    ceiling: u32,
) -> Option<Key>
    ensures { result ≡ boosting.boost_under plugin row.now protocol granted.0 ceiling }
{
    match plugin {
        PluginKind::PsnEdf => PsnEdf.boost_key(row, protocol, granted, ceiling),
        PluginKind::PFp => PFp.boost_key(row, protocol, granted, ceiling),
        PluginKind::CEdf => CEdf.boost_key(row, protocol, granted, ceiling),
        PluginKind::GsnEdf | PluginKind::PRes => {
            GsnEdf.boost_key(row, protocol, granted, ceiling)
        }
    }
}

/// The key of the task once it is granted the semaphore at this clock.
#[tactic(auto, unfolding(rt_model::specs::Group::task, rt_model::specs::Group::protocol, rt_model::specs::Group::sem))]
pub(crate) fn boost_now(
    parts: &Parts,
    ceilings: &MpcpCeilings,
    clock: Tick,
    sem: SemNo,
    task: TaskNo,
) -> Option<Key>
    requires task { (1 ≤ task.0) × (task.0 ≤ length parts.now.tasks) }
    requires sem { IsSemOf parts.now ceilings.now sem.0 }
    ensures { result ≡ boosting.boost_now parts.now ceilings.now clock.0 sem.0 task.0 }
{
    let row = &parts.tasks.as_slice()[task.0 as usize - 1];
    let protocol = parts.sems.as_slice()[sem.0 as usize - 1].protocol;
    let ceiling = ceilings.ceiling(parts, sem, task);
    boost_under(parts.plugin, row, protocol, clock, ceiling)
}
