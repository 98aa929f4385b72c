//! The slots of the table reservations of a cluster.
ghost use Rattle.std.specs.Prelude.{◌≡◌, ◌++◌, ◌≤◌, IfOk, OnOk, length, map};
ghost use Rattle.rt_base.specs.declared.TheConstants.{MOST_RESVS};
ghost use Rattle.resv_table.specs.Tables.{cycle_of, is_table_of, slots_from, slots_in, with_resv};

use crate::ResvSlot;
use rt_base::{ClusterNo, ResvNo};
use rt_task::{Resv, ResvKind, Slot};
use std::alloc::{AllocError, Global};

fn is_table_of(cluster: ClusterNo, resv: &Resv) -> bool
    ensures { result ≡ is_table_of cluster.0 resv.now }
{
    resv.kind == ResvKind::Table && resv.cluster == cluster
}

/// The period of the first table reservation of the cluster, which all of them have.
pub(crate) fn cycle_of(resvs: &[Resv], cluster: ClusterNo) -> u64
    ensures { result ≡ cycle_of cluster.0 resvs.now }
{
    for resv in resvs {
        if is_table_of(cluster, resv) {
            return resv.period;
        }
    }
    0
}

fn push_slots(into: &mut Vec<ResvSlot>, resv: ResvNo, slots: &[Slot]) -> Result<(), AllocError>
    ensures { OnOk result (into.new.items ≡ into.old.items ++ map (with_resv resv.0) slots.now) }
{
    for slot in slots {
        into.push(ResvSlot { resv, slot: *slot })?;
    }
    Ok(())
}

// The slots of the reservation, where it is a table reservation of the cluster.
fn push_table(
    into: &mut Vec<ResvSlot>,
    number: ResvNo,
    resv: &Resv,
    cluster: ClusterNo,
) -> Result<(), AllocError>
    ensures { OnOk result (into.new.items ≡
        into.old.items ++ slots_in cluster.0 number.0 resv.now) }
{
    if is_table_of(cluster, resv) {
        push_slots(into, number, resv.slots.as_slice())?;
    }
    Ok(())
}

/// The slots of all table reservations of the cluster.
pub(crate) fn slots_of(
    alloc: Global,
    resvs: &[Resv],
    cluster: ClusterNo,
) -> Result<Vec<ResvSlot>, AllocError>
    requires { length resvs.now ≤ MOST_RESVS }
    ensures { IfOk result (λ v. v.items ≡ slots_from cluster.0 1 resvs.now) }
{
    let mut slots = Vec::new(alloc);
    for (i, resv) in resvs.iter().enumerate() {
        push_table(&mut slots, ResvNo(i as u32 + 1), resv, cluster)?;
    }
    Ok(slots)
}
