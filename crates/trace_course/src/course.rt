//! What drives the entries of a group: the scripts of its processors, or their turns.
ghost use Rattle.std.specs.Prelude.{◌≡◌, ◌*◌, ◌<◌, ◌≤◌, All, IfOk, Some, true, false, length};
ghost use Rattle.rt_base.specs.declared.TheConstants.{MOST_CPUS, MOST_STEPS, MOST_TURN_STEPS};
ghost use Rattle.rt_task.specs.declared.Step as given;
ghost use Rattle.rt_plays.specs.Drives as drives;
ghost use Rattle.rt_plays.specs.Homes.{IsProcessorOf};
ghost use Rattle.rt_plays.specs.Plays.{IsPlay};
ghost use Rattle.rt_plays.specs.Turns as turn_words;
ghost use Rattle.rank_afresh.specs.Standing.{group_of};
ghost use Rattle.trace_course.specs.Courses.{CanLook, CanTake, HasGone, IsOnCourse, IsOpened};
ghost use Rattle.trace_course.specs.Courses.{IsCourse, room_in};
ghost use Rattle.trace_course.specs.Followed.{IsNextStep, GroupEntries, longer};

use crate::scripts::Scripts;
use crate::turns::{look_at, take_next};
use body_play::Turns;
use rank_afresh::Afresh;
use rt_base::{CpuNo, MOST_TURN_STEPS, NoMemory};
use rt_plays::steps_given;
use rt_task::{Drive, Setup, Step};
use std::alloc::Global;

/// How far the processors of a group are, in the scripts of a set that gives steps, or in the turns
/// of one with a horizon.
#[derive(Drop)]
pub enum Course {
    /// Of a set that gives steps.
    Scripts(Scripts),
    /// Of a set with a horizon.
    Turns(Turns),
}

/// How many turns each processor has; a set with steps has none.
fn horizon_of(drive: &Drive) -> u64
    ensures { result ≡ drives.horizon drive.now }
{
    match drive {
        Drive::Steps(_) => 0,
        Drive::Horizon(horizon) => *horizon,
    }
}

/// The most steps that `horizon` turns of `cpus` processors have.
fn room_for_turns(horizon: u64, cpus: usize) -> u32
    requires { horizon * cpus * MOST_TURN_STEPS ≤ MOST_STEPS }
    ensures { result ≡ horizon * cpus * MOST_TURN_STEPS }
{
    (horizon * cpus as u64 * MOST_TURN_STEPS as u64) as u32
}

impl Course {
    /// Before the first step of these processors.
    pub fn open(alloc: Global, drive: &Drive, cpus: &[CpuNo]) -> Result<Course, NoMemory>
        requires { All (λ q. q.0 < MOST_CPUS) cpus.now }
        ensures { IfOk result (IsOpened drive.now cpus.now) }
    {
        match drive {
            Drive::Steps(steps) => {
                let scripts = Scripts::open(alloc, steps.as_slice(), cpus)?;
                Ok(Course::Scripts(scripts))
            }
            Drive::Horizon(horizon) => Ok(Course::Turns(Turns::open(alloc, cpus, *horizon)?)),
        }
    }

    /// How many entries `cpus` processors can have at most.
    pub fn room(&self, drive: &Drive, cpus: usize) -> u32
        requires steps { length (drives.steps_given drive.now) ≤ MOST_STEPS }
        requires turns { drives.horizon drive.now * cpus * MOST_TURN_STEPS ≤ MOST_STEPS }
        ensures { result ≡ room_in drive.now cpus self.now }
    {
        match self {
            Course::Scripts(scripts) => scripts.count(steps_given(drive)),
            Course::Turns(_) => room_for_turns(horizon_of(drive), cpus),
        }
    }

    /// Takes the step of a processor that may come next: that of its script, or in a body run the Tick of its next turn, or the
    /// step that goes on with its turn. `None` where there is none.
    pub fn take_next(
        &mut self,
        setup: &Setup,
        afresh: &Afresh,
        cpu: CpuNo,
        is_tick: bool,
    ) -> Option<Step>
        requires { (at : GroupEntries) × CanTake at setup.now afresh.now self.old }
        ensures taken { (at : GroupEntries) (step : given.Step)
            → CanTake at setup.now afresh.now self.old
            → result ≡ Some step → HasGone at step self.new }
        ensures next { (at : GroupEntries) (step : given.Step)
            → CanTake at setup.now afresh.now self.old
            → IsNextStep at.group at.entries step → step.cpu ≡ cpu
            → turn_words.is_tick step.act ≡ is_tick → result ≡ Some step }
        ensures own { (step : given.Step) → result ≡ Some step → step.cpu ≡ cpu }
    {
        match self {
            Course::Scripts(scripts) => scripts.take_next(steps_given(&setup.parts().drive), cpu),
            Course::Turns(turns) => take_next(turns, setup, afresh, cpu, is_tick),
        }
    }

    /// Looks at the processors of the group after a step that was taken.
    pub fn look(&mut self, setup: &Setup, afresh: &Afresh, cpus: &[CpuNo])
        requires { (at : GroupEntries) × (step : given.Step)
            × CanLook at step setup.now afresh.now cpus.now }
        ensures { (at : GroupEntries) (step : given.Step)
            → CanLook at step setup.now afresh.now cpus.now
            → HasGone at step self.old
            → IsCourse at.group (longer at step) self.new }
    {
        match self {
            Course::Scripts(_) => {}
            Course::Turns(turns) => look_at(turns, setup, afresh, cpus),
        }
    }

    /// Whether no processor has a step left.
    pub fn is_over(&self, setup: &Setup) -> bool
        requires { (at : GroupEntries) × IsOnCourse at setup.now self.now }
        ensures over { (at : GroupEntries) → IsOnCourse at setup.now self.now
            → result ≡ true → IsPlay at.group at.entries }
        ensures not_over { (at : GroupEntries) → IsOnCourse at setup.now self.now
            → result ≡ false → IsPlay at.group at.entries → ⊥ }
    {
        match self {
            Course::Scripts(scripts) => scripts.are_over(steps_given(&setup.parts().drive)),
            Course::Turns(turns) => turns.have_ended(),
        }
    }
}
