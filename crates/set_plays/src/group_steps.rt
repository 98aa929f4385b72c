//! The steps of a group.
ghost use Rattle.std.specs.Prelude.{◌≡◌, [], IfOk};
ghost use Rattle.rt_plays.specs.Groups.{IsGroupOf};
ghost use Rattle.rt_task.specs.declared.Drive.TheVariants.{Horizon};
ghost use Rattle.rt_plays.specs.Order.{rounds};
ghost use Rattle.rt_plays.specs.Plays.{group_with};
ghost use Rattle.set_plays.specs.GroupSteps.{AreStepsIn, steps_of};
ghost use Rattle.set_plays.specs.StepsLeft.{AreReady};

use crate::{StepsLeft, TurnsLeft};
use rt_base::{GroupNo, NoMemory};
use rt_rules::Entry;
use rt_task::{Setup, Step};
use std::alloc::Global;
use trace_text::cpus_of;

/// The steps of a group: given ones, those of a history, which are taken again, or the turns of a body run below this horizon.
#[derive(Clone, Copy)]
pub enum GroupSteps<'a> {
    Given(&'a [Step]),
    Again(&'a [Entry]),
    Turns(u64),
}

/// All turns of a group.
fn all_turns<'a>(
    alloc: Global,
    setup: &Setup,
    group: GroupNo,
    horizon: u64,
) -> Result<StepsLeft<'a>, NoMemory>
    requires there { IsGroupOf setup.now group.0 }
    requires horizon { setup.now.drive ≡ Horizon horizon }
    ensures { let g = group_with setup.now group.0 in
        IfOk result (AreReady g (rounds g horizon 0 [])) }
{
    // A proof knows that a setup is valid once its parts are read.
    let _parts = setup.parts();
    let cpus = cpus_of(alloc, setup, group)?;
    Ok(StepsLeft::Turns(TurnsLeft::new(cpus, horizon)))
}

impl<'a> GroupSteps<'a> {
    /// The same, of which none was played yet.
    pub fn all(
        self,
        alloc: Global,
        setup: &Setup,
        group: GroupNo,
    ) -> Result<StepsLeft<'a>, NoMemory>
        requires there { IsGroupOf setup.now group.0 }
        requires steps { AreStepsIn (group_with setup.now group.0) self }
        ensures { let g = group_with setup.now group.0 in
            IfOk result (AreReady g (steps_of g self.entry)) }
    {
        match self {
            GroupSteps::Given(steps) => Ok(StepsLeft::Given(steps)),
            GroupSteps::Again(entries) => Ok(StepsLeft::Again(entries)),
            GroupSteps::Turns(horizon) => all_turns(alloc, setup, group, horizon),
        }
    }
}
