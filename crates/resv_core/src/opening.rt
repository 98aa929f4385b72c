//! The reservations of a group at the opening.
ghost use Rattle.std.specs.List.{list_any};
ghost use Rattle.std.specs.Prelude.{◌≡◌, ◌∷◌, IfOk, None, length, map};
ghost use Rattle.rt_task.specs.Validity.{IsValid};
ghost use Rattle.resv_table.specs.Tables.{is_table_of};
ghost use Rattle.resv_core.specs.Known.{home_of, AreTables, IsTable};
ghost use Rattle.resv_core.specs.Served.{is_here, opened_server, server_for, server_here};

use crate::server::Server;
use resv_table::Table;
use rt_base::{ClusterNo, GroupNo, NoMemory, ResvNo};
use rt_task::{Parts, Resv, ResvKind, Setup};
use std::alloc::Global;

// Whether the reservation is of the group.
fn is_here(parts: &Parts, group: GroupNo, resv: &Resv) -> bool
    ensures { result ≡ is_here parts.now group.0 resv.now }
{
    match parts.clusters.as_slice().get(resv.cluster.0 as usize) {
        Some(cluster) => cluster.group == group,
        None => false,
    }
}

// The reservation where it is one of the group.
fn server_here(parts: &Parts, group: GroupNo, resv: Option<ResvNo>) -> Option<ResvNo>
    ensures { result ≡ server_here parts.now group.0 resv }
{
    let r = resv?;
    if r.0 == 0 {
        return None;
    }
    match parts.resvs.as_slice().get(r.0 as usize - 1) {
        Some(found) => {
            if is_here(parts, group, found) {
                Some(r)
            } else {
                None
            }
        }
        None => None,
    }
}

/// Each reservation of the set; one of the group has room for each task.
pub(crate) fn servers(alloc: Global, parts: &Parts, group: GroupNo) -> Result<Vec<Server>, NoMemory>
    requires { IsValid parts.now }
    ensures { IfOk result (λ servers. servers.items ≡
        map (opened_server parts.now group.0) parts.now.resvs) }
{
    let all = parts.tasks.as_slice().len() as u32 + 1;
    let mut servers = Vec::new(alloc);
    for resv in parts.resvs.as_slice() {
        let room = if is_here(parts, group, resv) { all } else { 0 };
        let server = Server::new(alloc, resv, room)?;
        servers.push(server)?;
    }
    Ok(servers)
}

/// The reservation of the group that serves each task, by the task's number.
pub(crate) fn served_by(
    alloc: Global,
    parts: &Parts,
    group: GroupNo,
) -> Result<Vec<Option<ResvNo>>, NoMemory>
    ensures { IfOk result (λ served_by. served_by.items ≡
        None ∷ map (server_for parts.now group.0) parts.now.tasks) }
{
    let mut served_by = Vec::new(alloc);
    served_by.push(None)?;
    for task in parts.tasks.as_slice() {
        served_by.push(server_here(parts, group, task.resv))?;
    }
    Ok(served_by)
}

/// The cluster of each reservation of the set.
pub(crate) fn homes(alloc: Global, parts: &Parts) -> Result<Vec<ClusterNo>, NoMemory>
    ensures { IfOk result (λ homes. homes.items ≡ map home_of parts.now.resvs) }
{
    let mut homes = Vec::new(alloc);
    for resv in parts.resvs.as_slice() {
        homes.push(resv.cluster)?;
    }
    Ok(homes)
}

// Whether the cluster has a table reservation.
fn has_table(resvs: &[Resv], cluster: ClusterNo) -> bool
    ensures { result ≡ list_any (is_table_of cluster.0) resvs.now }
{
    resvs.iter().any(|resv| resv.kind == ResvKind::Table && resv.cluster == cluster)
}

fn table(alloc: Global, setup: &Setup, cluster: ClusterNo) -> Result<Option<Table>, NoMemory>
    ensures { IfOk result (λ table. IsTable setup.now cluster.0 table) }
{
    if has_table(setup.parts().resvs.as_slice(), cluster) {
        let table = Table::new(alloc, setup, cluster)?;
        return Ok(Some(table));
    }
    Ok(None)
}

/// The table of each cluster of the set, where it has table reservations.
pub(crate) fn tables(alloc: Global, setup: &Setup) -> Result<Vec<Option<Table>>, NoMemory>
    ensures { IfOk result (λ tables. AreTables setup.now (length setup.now.clusters) tables.items) }
{
    let count = setup.parts().clusters.as_slice().len() as u32;
    let mut tables = Vec::new(alloc);
    for c in 0..count {
        let table = table(alloc, setup, ClusterNo(c))?;
        tables.push(table)?;
    }
    Ok(tables)
}
