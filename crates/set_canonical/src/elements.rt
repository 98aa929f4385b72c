//! Clusters, semaphores and reservations.
ghost use Rattle.std.specs.Prelude.{◌≡◌, ◌++◌, codes, OnOk};
ghost use Rattle.serde_json.specs.Written.{compact_text};
ghost use Rattle.set_canonical.specs.inside.Members.{slots_text};
ghost use Rattle.set_canonical.specs.Values.{array_data, cluster_data, sem_data, slot_data, resv_data};

use crate::put::{put, put_comma, put_number, put_string};
use crate::words::{protocol_word, resv_kind_word};
use rt_task::{Cluster, Resv, ResvKind, Sem, Slot};
use std::alloc::AllocError;

#[tactic(auto, using(crate::proofs::Texts::cluster_text, std::proofs::Common::append_assoc))]
fn put_cluster(out: &mut Vec<u8>, c: &Cluster) -> Result<(), AllocError>
    ensures { OnOk result (out.new.items ≡ out.old.items ++ compact_text (cluster_data c.now)) }
{
    put_number(out, b"{\"cpus\":", u64::from(c.cpus))?;
    put_number(out, b",\"group\":", u64::from(c.group.0))?;
    put(out, b"}")?;
    Ok(())
}

#[tactic(auto, using(std::proofs::Common::append_assoc))]
pub fn put_clusters(
    out: &mut Vec<u8>,
    before: &[u8],
    clusters: &[Cluster],
) -> Result<(), AllocError>
    ensures { OnOk result (out.new.items
        ≡ out.old.items ++ (before.now ++ compact_text (array_data cluster_data clusters.now))) }
{
    put(out, before)?;
    put(out, b"[")?;
    for (i, c) in clusters.iter().enumerate() {
        put_comma(out, i > 0)?;
        put_cluster(out, c)?;
    }
    put(out, b"]")?;
    Ok(())
}

#[tactic(auto, using(crate::proofs::Texts::sem_text, std::proofs::Common::append_assoc))]
fn put_sem(out: &mut Vec<u8>, s: &Sem) -> Result<(), AllocError>
    ensures { OnOk result (out.new.items ≡ out.old.items ++ compact_text (sem_data s.now)) }
{
    put_string(out, b"{\"name\":", s.name.as_slice())?;
    put_string(out, b",\"protocol\":", protocol_word(s.protocol))?;
    put(out, b"}")?;
    Ok(())
}

#[tactic(auto, using(std::proofs::Common::append_assoc))]
pub fn put_sems(out: &mut Vec<u8>, before: &[u8], sems: &[Sem]) -> Result<(), AllocError>
    ensures { OnOk result (out.new.items
        ≡ out.old.items ++ (before.now ++ compact_text (array_data sem_data sems.now))) }
{
    put(out, before)?;
    put(out, b"[")?;
    for (i, s) in sems.iter().enumerate() {
        put_comma(out, i > 0)?;
        put_sem(out, s)?;
    }
    put(out, b"]")?;
    Ok(())
}

#[tactic(auto, using(crate::proofs::Texts::slot_text, std::proofs::Common::append_assoc))]
fn put_slot(out: &mut Vec<u8>, s: Slot) -> Result<(), AllocError>
    ensures { OnOk result (out.new.items ≡ out.old.items ++ compact_text (slot_data s)) }
{
    put_number(out, b"[", s.from)?;
    put_number(out, b",", s.to)?;
    put(out, b"]")?;
    Ok(())
}

#[tactic(auto, using(std::proofs::Common::append_assoc))]
fn put_table(out: &mut Vec<u8>, slots: &[Slot]) -> Result<(), AllocError>
    ensures { OnOk result (out.new.items ≡ out.old.items ++
        (codes ",\"slots\":" ++ compact_text (array_data slot_data slots.now))) }
{
    put(out, b",\"slots\":[")?;
    for (i, s) in slots.iter().enumerate() {
        put_comma(out, i > 0)?;
        put_slot(out, *s)?;
    }
    put(out, b"]")?;
    Ok(())
}

/// The slots, of a table.
#[tactic(auto, using(crate::proofs::Texts::append_nothing))]
fn put_slots(out: &mut Vec<u8>, kind: ResvKind, slots: &[Slot]) -> Result<(), AllocError>
    ensures { OnOk result (out.new.items ≡ out.old.items ++ slots_text kind slots.now) }
{
    match kind {
        ResvKind::Table => put_table(out, slots),
        ResvKind::Polling | ResvKind::Sporadic => Ok(()),
    }
}

#[tactic(auto, using(crate::proofs::Texts::resv_text, std::proofs::Common::append_assoc))]
fn put_resv(out: &mut Vec<u8>, r: &Resv) -> Result<(), AllocError>
    ensures { OnOk result (out.new.items ≡ out.old.items ++ compact_text (resv_data r.now)) }
{
    put_number(out, b"{\"budget\":", r.budget)?;
    put_number(out, b",\"cluster\":", u64::from(r.cluster.0))?;
    put_string(out, b",\"kind\":", resv_kind_word(r.kind))?;
    put_string(out, b",\"name\":", r.name.as_slice())?;
    put_number(out, b",\"period\":", r.period)?;
    put_number(out, b",\"prio\":", u64::from(r.prio))?;
    put_slots(out, r.kind, r.slots.as_slice())?;
    put(out, b"}")?;
    Ok(())
}

#[tactic(auto, using(std::proofs::Common::append_assoc))]
pub fn put_resvs(out: &mut Vec<u8>, before: &[u8], resvs: &[Resv]) -> Result<(), AllocError>
    ensures { OnOk result (out.new.items
        ≡ out.old.items ++ (before.now ++ compact_text (array_data resv_data resvs.now))) }
{
    put(out, before)?;
    put(out, b"[")?;
    for (i, r) in resvs.iter().enumerate() {
        put_comma(out, i > 0)?;
        put_resv(out, r)?;
    }
    put(out, b"]")?;
    Ok(())
}
