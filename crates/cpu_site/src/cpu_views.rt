//! What the processors are linked to and run, and the interrupts that are raised at them.
ghost use Rattle.std.specs.Prelude.{◌≡◌, ◌^◌, ◌<◌, All, IfOk, length};
ghost use Rattle.rt_base.specs.TaskNos.{number_of_task};
ghost use Rattle.rt_rules.specs.Numbers.{same};
ghost use Rattle.rt_model.specs.Group.{group_processors};
ghost use Rattle.rt_plays.specs.Groups.{group_of, past};
ghost use Rattle.rt_plays.specs.Homes.{IsProcessorOf};
ghost use Rattle.cpu_site.specs.Cpus.{cpu_numbers};
ghost use Rattle.cpu_site.specs.Raises.{is_raised, AreCpuViews, HaveCounted, IsCpuView};

use crate::player::Player;
use rt_base::{CpuNo, NoMemory, TaskNo};
use std::alloc::Global;

/// What a processor is linked to, and what it runs.
#[derive(Clone, Copy)]
pub(crate) struct CpuView {
    pub(crate) link: Option<TaskNo>,
    pub(crate) runs: Option<TaskNo>,
}

fn is_same(a: Option<TaskNo>, b: Option<TaskNo>) -> bool
    ensures { result ≡ same (number_of_task a) (number_of_task b) }
{
    match (a, b) {
        (Some(t), Some(u)) => t.0 == u.0,
        (None, None) => true,
        _ => false,
    }
}

/// Whether an interrupt is pending now that was not before, or at another link.
fn is_raised(now: CpuView, before: CpuView) -> bool
    ensures { result ≡ is_raised now before }
{
    !is_same(now.link, now.runs)
        && (is_same(before.link, before.runs) || !is_same(before.link, now.link))
}

fn cpu_view_of(player: &Player, cpu: CpuNo) -> CpuView
    requires { IsProcessorOf (group_of player.now) cpu.0 }
    ensures { IsCpuView (group_of player.now) cpu.0 (past player.now) result }
{
    CpuView {
        link: player.linked(cpu),
        runs: player.runs(cpu),
    }
}

/// What each processor of the group is linked to and runs.
pub(crate) fn look(alloc: Global, player: &Player, cpus: &[CpuNo]) -> Result<Vec<CpuView>, NoMemory>
    requires { cpu_numbers cpus.now ≡ group_processors (group_of player.now) }
    ensures { IfOk result (λ v. AreCpuViews (group_of player.now) (past player.now) v.items) }
{
    let mut cpu_views = Vec::new(alloc);
    for cpu in cpus {
        cpu_views.push(cpu_view_of(player, *cpu))?;
    }
    Ok(cpu_views)
}

/// Counts one more at each processor where an interrupt was raised since it was looked at, and looks at each anew.
pub(crate) fn count_raises(
    player: &Player,
    cpus: &[CpuNo],
    cpu_views: &mut Vec<CpuView>,
    counts: &mut Vec<u64>,
)
    requires cpus { cpu_numbers cpus.now ≡ group_processors (group_of player.now) }
    requires cpu_views { length cpu_views.old.items ≡ length cpus.now }
    requires counts { length counts.old.items ≡ length cpus.now }
    requires few { All (λ c. c < 2 ^ 32) counts.old.items }
    ensures { HaveCounted (group_of player.now) (past player.now)
        cpu_views.old.items cpu_views.new.items counts.old.items counts.new.items }
{
    for i in 0..cpus.len() {
        let now = cpu_view_of(player, cpus[i]);
        if is_raised(now, cpu_views[i]) {
            counts[i] += 1;
        }
        cpu_views[i] = now;
    }
}
