//! Engines that take the steps of histories again.
ghost use Rattle.std.specs.Prelude.{◌≡◌, IfOk};
ghost use Rattle.trace_upgrade.specs.Said.{CanTake, with_entries};

use group_engine::KeepingEngine;
use rt_base::NoMemory;
use rt_rules::Entry;
use std::alloc::Global;
use trace_text::PlayedGroup;

/// Takes the steps of these entries.
fn take_entries(engine: &mut KeepingEngine, entries: &[Entry])
    requires { CanTake engine.old entries.now }
    ensures { engine.new ≡ with_entries entries.now engine.old }
{
    for entry in entries {
        engine.step(entry.step);
    }
}

/// The engine of a group that has taken the steps of its history.
fn engine_of(alloc: Global, group: &PlayedGroup) -> Result<KeepingEngine, NoMemory>
    ensures { IfOk result (λ e. e ≡ group.now) }
{
    let entries = group.entries();
    let mut engine = KeepingEngine::open(
        alloc,
        group.setup(),
        group.number(),
        entries.len() as u32,
    )?;
    take_entries(&mut engine, entries);
    Ok(engine)
}

/// The engines of these groups.
pub(crate) fn engines_again(
    alloc: Global,
    groups: &[PlayedGroup],
) -> Result<Vec<KeepingEngine>, NoMemory>
    ensures { IfOk result (λ v. v.items ≡ groups.now) }
{
    let mut engines = Vec::new(alloc);
    for group in groups {
        if engines.push(engine_of(alloc, group)?).is_err() {
            return Err(NoMemory);
        }
    }
    Ok(engines)
}
