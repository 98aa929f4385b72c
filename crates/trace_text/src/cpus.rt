//! The groups of a set and the processors of each.
ghost use Rattle.std.specs.Prelude.{◌≡◌, ◌+◌, ◌^◌, ◌<◌, ◌≤◌, ◌++◌, IfOk, OnOk};
ghost use Rattle.rt_base.specs.declared.TheConstants.{MOST_CLUSTERS};
ghost use Rattle.rt_rules.specs.Numbers.{numbers_from};
ghost use Rattle.rt_model.specs.Group.{group_processors};
ghost use Rattle.rt_plays.specs.Plays.{group_count, group_with};
ghost use Rattle.trace_text.specs.Groups.{cpu_numbers};

use rt_base::{CpuNo, GroupNo, NoMemory};
use rt_task::{Parts, Setup};
use std::alloc::Global;

fn count_in(parts: &Parts) -> u32
    requires { group_count parts.now ≤ MOST_CLUSTERS }
    ensures { result ≡ group_count parts.now }
{
    let mut greatest = 0;
    for cluster in parts.clusters.as_slice() {
        greatest = cluster.group.0.max(greatest);
    }
    greatest + 1
}

/// How many groups the set has: they are numbered from 0 on, without a gap.
pub fn count_groups(setup: &Setup) -> u32
    ensures { result ≡ group_count setup.now }
{
    count_in(setup.parts())
}

/// Adds `count` processors, numbered from `first` on.
#[tactic(auto, using(crate::proofs::CpuLaws::numbers_more, crate::proofs::CpuLaws::numbers_start))]
fn put_cpus(cpus: &mut Vec<CpuNo>, first: u32, count: u32) -> Result<(), NoMemory>
    requires { first + count < 2 ^ 32 }
    ensures { OnOk result
        (cpu_numbers cpus.new.items ≡ cpu_numbers cpus.old.items ++ numbers_from first count) }
{
    for q in first..first + count {
        cpus.push(CpuNo(q))?;
    }
    Ok(())
}

/// The processors of a group, by rising number.
#[tactic(auto, using(crate::proofs::CpuLaws::few_cpus, std::proofs::Common::append_assoc))]
pub fn cpus_of(alloc: Global, setup: &Setup, group: GroupNo) -> Result<Vec<CpuNo>, NoMemory>
    ensures { let g = group_with setup.now group.0 in
        IfOk result (λ cpus. cpu_numbers cpus.items ≡ group_processors g) }
{
    let mut cpus = Vec::new(alloc);
    let mut first = 0;
    let clusters = setup.parts().clusters.as_slice();
    for cluster in clusters {
        if cluster.group.0 == group.0 {
            put_cpus(&mut cpus, first, cluster.cpus)?;
        }
        first += cluster.cpus;
    }
    Ok(cpus)
}
