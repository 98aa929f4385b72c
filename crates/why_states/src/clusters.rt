//! The lines of the clusters.
ghost use Rattle.std.specs.Prelude.{◌≡◌, ◌+◌, ◌++◌, ◌<◌, ◌≤◌, ◌^◌, OnOk, drop, flat_map, take, true};
ghost use Rattle.rt_base.specs.TaskNos.{numbers};
ghost use Rattle.rt_rules.specs.Numbers.{has, numbers_from};
ghost use Rattle.rt_model.specs.Group.{clusters, cpus, first_cpu};
ghost use Rattle.rt_model.specs.Past.{Past};
ghost use Rattle.rt_plays.specs.Homes.{IsProcessorOf};
ghost use Rattle.why_texts.specs.ClusterLines.{cluster_lines, cpu_line, rank_line};
ghost use Rattle.why_states.specs.States.{IsAt, group_of};

use crate::state::State;
use rt_base::{ClusterNo, CpuNo, NoMemory, TaskNo};
use std::alloc::Global;
use why_lines::{put_cpu_line, put_rank_line};

/// The first tasks, as many, and those behind them.
fn split_top(ranking: &[TaskNo], count: u32) -> (&[TaskNo], &[TaskNo])
    ensures top { numbers result.0.now ≡ take count (numbers ranking.now) }
    ensures behind { numbers result.1.now ≡ drop count (numbers ranking.now) }
{
    let count = count as usize;
    if count < ranking.len() {
        (&ranking[..count], &ranking[count..])
    } else {
        (ranking, &[])
    }
}

/// How the eligible tasks of a cluster are ranked, which has so many processors.
fn put_ranks(
    alloc: Global,
    out: &mut Vec<u8>,
    state: &State,
    cluster: ClusterNo,
    count: u32,
) -> Result<(), NoMemory>
    requires at { (past : Past) × IsAt past state.now }
    requires cluster { has cluster.0 (clusters (group_of state.now)) ≡ true }
    requires count { count ≡ cpus (group_of state.now) cluster.0 }
    ensures { OnOk result ((past : Past) → IsAt past state.now → out.new.items
        ≡ out.old.items ++ rank_line (group_of state.now) cluster.0 past) }
{
    let ranking = state.afresh.ranking(alloc, cluster)?;
    let (top, behind) = split_top(ranking.as_slice(), count);
    put_rank_line(out, &state.set, cluster, top, behind)
}

/// What a processor runs and its link.
fn put_cpu(out: &mut Vec<u8>, state: &State, cpu: CpuNo) -> Result<(), NoMemory>
    requires at { (past : Past) × IsAt past state.now }
    requires cpu { IsProcessorOf (group_of state.now) cpu.0 }
    ensures { OnOk result ((past : Past) → IsAt past state.now → out.new.items
        ≡ out.old.items ++ cpu_line (group_of state.now) cpu.0 past) }
{
    let runs = state.afresh.runs(cpu);
    let link = state.afresh.linked(cpu);
    put_cpu_line(out, &state.set, cpu, runs, link)
}

/// What so many processors from the first on run, and their links.
fn put_cpus(out: &mut Vec<u8>, state: &State, first: u32, count: u32) -> Result<(), NoMemory>
    requires at { (past : Past) × IsAt past state.now }
    requires cpus { (q : _) → has q (numbers_from first count) ≡ true
        → IsProcessorOf (group_of state.now) q }
    requires few { first + count < 2 ^ 32 }
    ensures { OnOk result ((past : Past) → IsAt past state.now → out.new.items ≡ out.old.items
        ++ flat_map (λ q. cpu_line (group_of state.now) q past) (numbers_from first count)) }
{
    for q in first..first + count {
        put_cpu(out, state, CpuNo(q))?;
    }
    Ok(())
}

/// The lines of a cluster, with the number of its first processor and how many it has.
fn put_cluster(
    alloc: Global,
    out: &mut Vec<u8>,
    state: &State,
    cluster: ClusterNo,
    first: u32,
    count: u32,
) -> Result<(), NoMemory>
    requires at { (past : Past) × IsAt past state.now }
    requires cluster { has cluster.0 (clusters (group_of state.now)) ≡ true }
    requires first { first ≡ first_cpu (group_of state.now) cluster.0 }
    requires count { count ≡ cpus (group_of state.now) cluster.0 }
    requires few { first + count < 2 ^ 32 }
    ensures { OnOk result ((past : Past) → IsAt past state.now → out.new.items
        ≡ out.old.items ++ cluster_lines (group_of state.now) cluster.0 past) }
{
    put_ranks(alloc, out, state, cluster, count)?;
    put_cpus(out, state, first, count)
}

/// The lines of the clusters.
pub(crate) fn put_clusters(alloc: Global, out: &mut Vec<u8>, state: &State) -> Result<(), NoMemory>
    requires { (past : Past) × IsAt past state.now }
    ensures { OnOk result ((past : Past) → IsAt past state.now → out.new.items
        ≡ out.old.items
        ++ flat_map (λ c. cluster_lines (group_of state.now) c past)
        (clusters (group_of state.now))) }
{
    let mut first = 0;
    for (i, row) in state.set.parts.clusters.as_slice().iter().enumerate() {
        if row.group.0 == state.set.group.0 {
            put_cluster(alloc, out, state, ClusterNo(i as u32), first, row.cpus)?;
        }
        first += row.cpus;
    }
    Ok(())
}
