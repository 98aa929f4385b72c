//! The processors of a group.
ghost use Rattle.std.specs.Prelude.{◌≡◌, ◌+◌, ◌^◌, ◌<◌, ◌++◌, IfOk, OnOk};
ghost use Rattle.rt_rules.specs.Numbers.{numbers_from};
ghost use Rattle.rt_model.specs.Group.{group_processors};
ghost use Rattle.rt_plays.specs.Plays.{group_with};
ghost use Rattle.cpu_site.specs.Cpus.{cpu_numbers};

use rt_base::{CpuNo, GroupNo, NoMemory};
use rt_task::Setup;
use std::alloc::Global;

/// Adds `count` processors, numbered from `first` on.
#[tactic(auto, using(crate::proofs::CpuLaws::numbers_more, crate::proofs::CpuLaws::numbers_start))]
fn put_cpus(cpus: &mut Vec<CpuNo>, first: u32, count: u32) -> Result<(), NoMemory>
    requires { first + count < 2 ^ 32 }
    ensures { OnOk result
        (cpu_numbers cpus.new.items ≡ cpu_numbers cpus.old.items ++ numbers_from first count) }
{
    for q in first..first + count {
        cpus.push(CpuNo(q))?;
    }
    Ok(())
}

/// The processors of a group, by rising number.
#[tactic(auto, using(crate::proofs::CpuLaws::few_cpus, std::proofs::Common::append_assoc))]
pub(crate) fn cpus_of(alloc: Global, setup: &Setup, group: GroupNo) -> Result<Vec<CpuNo>, NoMemory>
    ensures { let g = group_with setup.now group.0 in
        IfOk result (λ cpus. cpu_numbers cpus.items ≡ group_processors g) }
{
    let mut cpus = Vec::new(alloc);
    let mut first = 0;
    let clusters = setup.parts().clusters.as_slice();
    for cluster in clusters {
        if cluster.group.0 == group.0 {
            put_cpus(&mut cpus, first, cluster.cpus)?;
        }
        first += cluster.cpus;
    }
    Ok(cpus)
}
