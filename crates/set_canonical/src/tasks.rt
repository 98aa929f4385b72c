//! Tasks.
ghost use Rattle.std.specs.Prelude.{◌≡◌, ◌++◌, codes, decimal, OnOk};
ghost use Rattle.json.specs.Print.{quoted};
ghost use Rattle.serde_json.specs.Data.{boolean};
ghost use Rattle.serde_json.specs.Written.{compact_text};
ghost use Rattle.set_canonical.specs.Values.{array_data, sem_names, resv_names, resv_or_null, uses_data, task_data};
ghost use Rattle.set_canonical.specs.Words as spec;
ghost use Rattle.set_canonical.specs.inside.Members.{early_text};

use crate::bodies::put_body;
use crate::names::{resv_name, sem_name};
use crate::put::{put, put_comma, put_flag, put_number, put_string};
use crate::words::kind_word;
use rt_base::{ResvNo, SemNo};
use rt_task::{Resv, Sem, Task};
use std::alloc::{AllocError, Global};

/// The cluster, the cost and the deadline.
fn put_demand(out: &mut Vec<u8>, t: &Task) -> Result<(), AllocError>
    ensures { OnOk result (out.new.items
        ≡ out.old.items ++ (codes ",\"cluster\":" ++ (decimal t.now.cluster.0 ++
        (codes ",\"cost\":" ++ (decimal t.now.cost ++
        (codes ",\"deadline\":" ++ decimal t.now.rel_deadline)))))) }
{
    put_number(out, b",\"cluster\":", u64::from(t.cluster.0))?;
    put_number(out, b",\"cost\":", t.cost)?;
    put_number(out, b",\"deadline\":", t.rel_deadline)?;
    Ok(())
}

/// That the task releases early, where it does.
#[tactic(auto, using(crate::proofs::Texts::append_nothing))]
fn put_early(out: &mut Vec<u8>, early: bool) -> Result<(), AllocError>
    ensures { OnOk result (out.new.items ≡ out.old.items ++ early_text early) }
{
    if early {
        put(out, b",\"early\":true")?;
    }
    Ok(())
}

/// Whether the budget is enforced, the kind and the name.
fn put_identity(out: &mut Vec<u8>, t: &Task) -> Result<(), AllocError>
    ensures { OnOk result (out.new.items
        ≡ out.old.items ++ (codes ",\"enforce\":" ++ (compact_text
        (boolean t.now.enforce) ++ (codes ",\"kind\":" ++ (quoted
        (spec.kind_word t.now.kind) ++ (codes ",\"name\":" ++ quoted t.now.name)))))) }
{
    put_flag(out, b",\"enforce\":", t.enforce)?;
    put_string(out, b",\"kind\":", kind_word(t.kind))?;
    put_string(out, b",\"name\":", t.name.as_slice())?;
    Ok(())
}

/// The period, the phase and the priority.
#[tactic(auto, using(std::proofs::Common::append_assoc))]
fn put_pattern(out: &mut Vec<u8>, t: &Task) -> Result<(), AllocError>
    ensures { OnOk result (out.new.items
        ≡ out.old.items ++ (codes ",\"period\":" ++ (decimal t.now.period ++ (codes ",\"phase\":" ++
        (decimal t.now.phase ++ (codes ",\"prio\":" ++ decimal t.now.prio)))))) }
{
    put_number(out, b",\"period\":", t.period)?;
    put_number(out, b",\"phase\":", t.phase)?;
    put_number(out, b",\"prio\":", u64::from(t.prio))?;
    Ok(())
}

/// The reservation, or `null` where there is none.
fn put_resv(out: &mut Vec<u8>, resvs: &[Resv], resv: Option<ResvNo>) -> Result<(), AllocError>
    ensures { OnOk result (out.new.items
        ≡ out.old.items ++ (codes ",\"resv\":" ++ compact_text (resv_or_null
        (resv_names resvs.now) resv))) }
{
    match resv {
        Some(r) => put_string(out, b",\"resv\":", resv_name(resvs, r)),
        None => put(out, b",\"resv\":null"),
    }
}

/// The names of the semaphores that the task declares.
#[tactic(auto, using(std::proofs::Common::append_assoc))]
fn put_uses(out: &mut Vec<u8>, sems: &[Sem], uses: &[SemNo]) -> Result<(), AllocError>
    ensures { OnOk result (out.new.items
        ≡ out.old.items ++ (codes ",\"uses\":" ++ compact_text (uses_data
        (sem_names sems.now) uses.now))) }
{
    put(out, b",\"uses\":[")?;
    for (i, s) in uses.iter().enumerate() {
        put_comma(out, i > 0)?;
        put_string(out, b"", sem_name(sems, *s))?;
    }
    put(out, b"]")?;
    Ok(())
}

#[tactic(auto, using(crate::proofs::Texts::task_text, std::proofs::Common::append_assoc))]
fn put_task(
    alloc: Global,
    out: &mut Vec<u8>,
    sems: &[Sem],
    resvs: &[Resv],
    t: &Task,
) -> Result<(), AllocError>
    ensures { OnOk result (out.new.items
        ≡ out.old.items ++ compact_text (task_data
        (sem_names sems.now) (resv_names resvs.now) t.now)) }
{
    put_body(alloc, out, b"{\"body\":", sems, t.body.as_slice())?;
    put_demand(out, t)?;
    put_early(out, t.early)?;
    put_identity(out, t)?;
    put_pattern(out, t)?;
    put_resv(out, resvs, t.resv)?;
    put_uses(out, sems, t.uses.as_slice())?;
    put(out, b"}")?;
    Ok(())
}

#[tactic(auto, using(std::proofs::Common::append_assoc))]
pub fn put_tasks(
    alloc: Global,
    out: &mut Vec<u8>,
    before: &[u8],
    sems: &[Sem],
    resvs: &[Resv],
    tasks: &[Task],
) -> Result<(), AllocError>
    ensures { OnOk result (out.new.items
        ≡ out.old.items ++ (before.now ++ compact_text (array_data (task_data
        (sem_names sems.now) (resv_names resvs.now)) tasks.now))) }
{
    put(out, before)?;
    put(out, b"[")?;
    for (i, t) in tasks.iter().enumerate() {
        put_comma(out, i > 0)?;
        put_task(alloc, out, sems, resvs, t)?;
    }
    put(out, b"]")?;
    Ok(())
}
