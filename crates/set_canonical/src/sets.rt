//! The whole of a set.
ghost use Rattle.std.specs.Prelude.{◌≡◌, ◌++◌, OnOk};
ghost use Rattle.serde_json.specs.Written.{compact_text};
ghost use Rattle.set_canonical.specs.Canonical.{set_data};
ghost use Rattle.set_canonical.specs.Values.{sem_names, task_names};
ghost use Rattle.set_canonical.specs.inside.Members.{horizon_text, steps_text, setting_text, elements_text};

use crate::elements::{put_clusters, put_resvs, put_sems};
use crate::operations::put_steps;
use crate::put::{put, put_number, put_string};
use crate::tasks::put_tasks;
use crate::words::plugin_word;
use rt_task::{Drive, Parts, Resv, Sem, Task};
use std::alloc::{AllocError, Global};

/// The horizon, where it is given.
#[tactic(auto, using(crate::proofs::Texts::append_nothing))]
fn put_horizon(out: &mut Vec<u8>, drive: &Drive) -> Result<(), AllocError>
    ensures { OnOk result (out.new.items ≡ out.old.items ++ horizon_text drive.now) }
{
    match drive {
        Drive::Steps(_) => Ok(()),
        Drive::Horizon(h) => put_number(out, b",\"horizon\":", *h),
    }
}

/// The steps, where they are given.
#[tactic(auto, using(crate::proofs::Texts::append_nothing))]
fn put_given_steps(
    alloc: Global,
    out: &mut Vec<u8>,
    sems: &[Sem],
    tasks: &[Task],
    drive: &Drive,
) -> Result<(), AllocError>
    ensures { OnOk result (out.new.items
        ≡ out.old.items ++ steps_text (sem_names sems.now) (task_names tasks.now) drive.now) }
{
    match drive {
        Drive::Steps(steps) => put_steps(alloc, out, b",\"steps\":", sems, tasks, steps.as_slice()),
        Drive::Horizon(_) => Ok(()),
    }
}

/// The clusters, the horizon and the plugin.
#[tactic(auto, using(std::proofs::Common::append_assoc), unfolding(crate::specs::inside::Members::setting_text))]
fn put_setting(out: &mut Vec<u8>, parts: &Parts) -> Result<(), AllocError>
    ensures { OnOk result (out.new.items ≡ out.old.items ++ setting_text parts.now) }
{
    put_clusters(out, b"{\"clusters\":", parts.clusters.as_slice())?;
    put_horizon(out, &parts.drive)?;
    put_string(out, b",\"plugin\":", plugin_word(parts.plugin))?;
    Ok(())
}

/// The reservations, the semaphores, the steps and the tasks.
#[tactic(auto, using(std::proofs::Common::append_assoc), unfolding(crate::specs::inside::Members::elements_text))]
fn put_elements(
    alloc: Global,
    out: &mut Vec<u8>,
    sems: &[Sem],
    resvs: &[Resv],
    tasks: &[Task],
    drive: &Drive,
) -> Result<(), AllocError>
    ensures { OnOk result (out.new.items
        ≡ out.old.items ++ elements_text sems.now resvs.now tasks.now drive.now) }
{
    put_resvs(out, b",\"resvs\":", resvs)?;
    put_sems(out, b",\"sems\":", sems)?;
    put_given_steps(alloc, out, sems, tasks, drive)?;
    put_tasks(alloc, out, b",\"tasks\":", sems, resvs, tasks)?;
    Ok(())
}

#[tactic(auto, using(crate::proofs::Texts::set_text, std::proofs::Common::append_assoc))]
pub fn put_set(alloc: Global, out: &mut Vec<u8>, parts: &Parts) -> Result<(), AllocError>
    ensures { OnOk result (out.new.items ≡ out.old.items ++ compact_text (set_data parts.now)) }
{
    put_setting(out, parts)?;
    put_elements(
        alloc,
        out,
        parts.sems.as_slice(),
        parts.resvs.as_slice(),
        parts.tasks.as_slice(),
        &parts.drive,
    )?;
    put(out, b"}")?;
    Ok(())
}
