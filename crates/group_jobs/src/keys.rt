//! Base keys by the set's plugin.
ghost use Rattle.std.specs.Prelude.{◌≡◌, ◌+◌, ◌^◌, ◌<◌};
ghost use Rattle.plugins.specs.ReservationKeys as reservations;
ghost use Rattle.group_jobs.specs.inside.Keys as keys;

use plugins::{CEdf, GsnEdf, PFp, PRes, PsnEdf};
use rt_base::{ResvNo, Tick};
use rt_rules::{Key, Plugin};
use rt_task::{Parts, PluginKind, Task};

/// The number of a reservation, and 0 for none.
fn resv_number(resv: Option<ResvNo>) -> u32
    ensures { result ≡ reservations.resv_number resv }
{
    match resv {
        None => 0,
        Some(resv) => resv.0,
    }
}

/// The priority of the task's reservation.
pub(crate) fn resv_prio(parts: &Parts, task: &Task) -> u32
    ensures { result ≡ keys.resv_prio parts.now.resvs task.now }
{
    let place = resv_number(task.resv).saturating_sub(1) as usize;
    let resvs = parts.resvs.as_slice();
    if place < resvs.len() {
        resvs[place].prio
    } else {
        0
    }
}

/// The key of the task's job of this release, where the task's reservation has this priority.
pub(crate) fn key_under(plugin: PluginKind, task: &Task, release: Tick, resv_prio: u32) -> Key
    requires { release.0 + task.now.rel_deadline < 2 ^ 64 }
    ensures { result ≡ keys.key_under plugin task.now release.0 resv_prio }
{
    match plugin {
        PluginKind::GsnEdf => GsnEdf.base_key(task, release, resv_prio),
        PluginKind::CEdf => CEdf.base_key(task, release, resv_prio),
        PluginKind::PsnEdf => PsnEdf.base_key(task, release, resv_prio),
        PluginKind::PFp => PFp.base_key(task, release, resv_prio),
        PluginKind::PRes => PRes.base_key(task, release, resv_prio),
    }
}
