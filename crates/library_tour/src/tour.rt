//! The engine, step by step, and what it tells between steps.
ghost use Rattle.std.specs.Prelude.{◌≡◌, IfOk};
ghost use Rattle.rt_task.specs.Draft.{parts_of};
ghost use Rattle.rt_plays.specs.Groups.{GroupHistory, group_of};
ghost use Rattle.library_tour.specs.inside.TourSet.{the_draft};
ghost use Rattle.library_tour.specs.inside.TourGroup.{IsOfTour};

use crate::set::SHARED;
use group_engine::Engine;
use rt_base::{ClusterNo, CpuNo, GroupNo, NoMemory, TaskNo};
use rt_plays::steps_given;
use rt_task::Setup;
use std::alloc::Global;

/// What the engine tells of its one group at a moment.
#[derive(Clone, Copy)]
pub(crate) struct Picture {
    /// The tasks that processors 0 and 1 are linked to.
    pub(crate) linked: [Option<TaskNo>; 2],
    pub(crate) holder: Option<TaskNo>,
    /// The eligible task of the highest key.
    pub(crate) first_ready: Option<TaskNo>,
    /// Whether task A has the key of task B, which waits for it.
    pub(crate) inherits: bool,
}

/// Plays the steps of the set on one engine, in their order.
fn play(alloc: Global, setup: &Setup) -> Result<Engine, NoMemory>
    requires { setup.now ≡ parts_of the_draft }
    ensures { IfOk result (λ e. IsOfTour e) }
{
    let steps = steps_given(&setup.parts().drive);
    let mut engine = Engine::open(alloc, setup, GroupNo(0), steps.len() as u32)?;
    for step in steps {
        engine.step(*step);
    }
    Ok(engine)
}

/// What the engine tells now.
fn look(engine: &Engine) -> Picture
    requires { IsOfTour engine.now }
{
    let keys = engine.keys();
    Picture {
        linked: [engine.linked(CpuNo(0)), engine.linked(CpuNo(1))],
        holder: engine.holder(SHARED),
        first_ready: engine.ready(ClusterNo(0)).first(),
        inherits: keys.key(TaskNo(1)) == keys.key(TaskNo(2)),
    }
}

/// What the engine tells once it has played the steps of the set.
pub(crate) fn at_end(alloc: Global, setup: &Setup) -> Result<Picture, NoMemory>
    requires { setup.now ≡ parts_of the_draft }
{
    let engine = play(alloc, setup)?;
    Ok(look(&engine))
}
