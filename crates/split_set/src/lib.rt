//! Which sets can be run split: those whose partitions meet at semaphores alone, at which each of them can wait by itself.
#![tactic(auto)]

ghost use Rattle.std.specs.Prelude.{◌≡◌};
ghost use Rattle.std.specs.List.{list_all};
ghost use Rattle.split_set.specs.SplitSets as sets;

use rt_task::{Act, Drive, Kind, Op, Parts, PluginKind, Protocol, Sem, Step, Task};

/// The most steps that such a set has.
pub const MOST_SPLIT_STEPS: usize = 20_000;

/// Whether a set can be run split.
pub fn is_split_set(parts: &Parts) -> bool
    ensures { result ≡ sets.is_split_set parts.now }
{
    is_split_plugin(parts.plugin)
        && has_split_steps(&parts.drive)
        && are_split_sems(parts.sems.as_slice())
        && are_split_tasks(parts.tasks.as_slice())
}

fn is_split_plugin(plugin: PluginKind) -> bool
    ensures { result ≡ sets.is_split_plugin plugin }
{
    matches!(plugin, PluginKind::PsnEdf | PluginKind::PFp)
}

fn is_split_act(act: Act) -> bool
    ensures { result ≡ sets.is_split_act act }
{
    match act {
        Act::Tick | Act::Irq => true,
        Act::Arrive(_) => false,
        Act::Do(op) => matches!(op, Op::Work | Op::Lock(_) | Op::Unlock(_) | Op::End),
    }
}

fn are_split_steps(steps: &[Step]) -> bool
    ensures { result ≡ list_all (λ (x : Step). sets.is_split_act x.act) steps.now }
{
    steps.iter().all(|step| is_split_act(step.act))
}

fn has_split_steps(drive: &Drive) -> bool
    ensures { result ≡ sets.has_split_steps drive.now }
{
    match drive {
        Drive::Steps(steps) => {
            let steps = steps.as_slice();
            steps.len() <= MOST_SPLIT_STEPS && are_split_steps(steps)
        }
        Drive::Horizon(_) => false,
    }
}

fn are_split_sems(sems: &[Sem]) -> bool
    ensures { result ≡ list_all (λ (s : Sem). sets.is_split_protocol s.protocol) sems.now }
{
    sems.iter().all(|sem| matches!(sem.protocol, Protocol::Fmlp | Protocol::Mpcp))
}

fn are_split_tasks(tasks: &[Task]) -> bool
    ensures { result ≡ list_all sets.is_split_task tasks.now }
{
    tasks.iter().all(|task| task.kind == Kind::Periodic && !task.enforce && !task.early)
}
