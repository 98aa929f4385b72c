//! The engine of a group whose processors play their scripts or their turns, in any order.
ghost use Rattle.std.specs.Prelude.{◌≡◌, ◌*◌, ◌<◌, ◌≤◌, false, true, IfOk, length};
ghost use Rattle.rt_base.specs.TaskNos.{number_of_task};
ghost use Rattle.rt_base.specs.declared.TheConstants.{MOST_STEPS, MOST_TURN_STEPS};
ghost use Rattle.rt_model.specs.Group.{group_processors};
ghost use Rattle.rt_model.specs.Links.{linked};
ghost use Rattle.rt_model.specs.Runs.{runs};
ghost use Rattle.rt_plays.specs.Groups.{group_of, past, IsGroupOf};
ghost use Rattle.rt_plays.specs.Drives as drives;
ghost use Rattle.rt_plays.specs.Homes.{IsProcessorOf};
ghost use Rattle.rt_plays.specs.Plays.{group_with, IsBegunPlay};
ghost use Rattle.cpu_site.specs.Cpus.{cpu_numbers};
ghost use Rattle.cpu_site.specs.Playing as playing;
ghost use Rattle.cpu_site.specs.Playing.{unplayed, IsFar, IsOutcome, IsPlayable};
ghost use Rattle.cpu_site.specs.Turning as turning;
ghost use Rattle.cpu_site.specs.Turning.{IsAtTurn};

use crate::next_steps::chained;
use crate::own_steps::steps_of_cpus;
use crate::played::Played;
use crate::progress::Progress;
use body_play::next_act;
use group_engine::KeepingEngine;
use rt_base::{CpuNo, GroupNo, MOST_CPUS, MOST_TURN_STEPS, NoMemory, TaskNo, Tick};
use rt_plays::{gives_steps, steps_given};
use rt_rules::Entry;
use rt_task::{Act, Drive, Setup, Step};
use std::alloc::Global;
use std::marker::Model;

/// The engine of a group, with its setup, the group's own steps, and the position of each processor's next one.
#[derive(Drop)]
pub(crate) struct Player {
    engine: KeepingEngine,
    setup: Setup,
    steps: Vec<Step>,
    positions: Vec<usize>,
    nexts: Vec<usize>,
}

impl Model for Player {
    ghost use Rattle.rt_plays.specs.Groups.{GroupHistory};
    ghost use Rattle.cpu_site.specs.Playing.{IsPlaying};

    ghost Value = { GroupHistory };

    ghost view = { λ a. a.engine };

    ghost invariant = { λ a.
        IsPlaying a.engine a.setup a.steps.items a.positions.items a.nexts.items };
}

/// How many turns each processor has; a set with steps has none.
fn horizon_of(drive: &Drive) -> u64
    ensures { result ≡ drives.horizon drive.now }
{
    match drive {
        Drive::Steps(_) => 0,
        Drive::Horizon(horizon) => *horizon,
    }
}

/// How many entries a group of `cpus` processors can have at most, where `steps` of the given steps are its own.
fn room_in(drive: &Drive, steps: usize, cpus: usize) -> u32
    requires steps { steps ≤ MOST_STEPS }
    requires turns { drives.horizon drive.now * cpus * MOST_TURN_STEPS ≤ MOST_STEPS }
    ensures { result ≡ playing.room_in drive.now steps cpus }
{
    match drive {
        Drive::Steps(_) => steps as u32,
        Drive::Horizon(horizon) => (*horizon * cpus as u64 * MOST_TURN_STEPS as u64) as u32,
    }
}

impl Player {
    /// A group of a setup, before its first step. It takes all the memory that the player ever has.
    pub(crate) fn open(
        alloc: Global,
        setup: &Setup,
        group: GroupNo,
        cpus: &[CpuNo],
    ) -> Result<Player, NoMemory>
        requires group { IsGroupOf setup.now group.0 }
        requires cpus { cpu_numbers cpus.now ≡ group_processors (group_with setup.now group.0) }
        ensures group { IfOk result (λ p. p ≡ unplayed setup.now group.0) }
        ensures playable { IfOk result (λ _. IsPlayable setup.now group.0) }
    {
        let drive = &setup.parts().drive;
        let steps = steps_of_cpus(alloc, steps_given(drive), cpus)?;
        let (positions, nexts) = chained(alloc, steps.as_slice(), MOST_CPUS)?;
        let room = room_in(drive, steps.len(), cpus.len());
        let engine = KeepingEngine::open(alloc, setup, group, room)?;
        let setup = setup.share()?;
        Ok(Player {
            engine,
            setup,
            steps,
            positions,
            nexts,
        })
    }

    /// The task that the processor is linked to, `None` where there is none.
    pub(crate) fn linked(&self, cpu: CpuNo) -> Option<TaskNo>
        requires { IsProcessorOf (group_of self.now) cpu.0 }
        ensures { number_of_task result ≡ linked (group_of self.now) cpu.0 (past self.now) }
    {
        self.engine.engine().linked(cpu)
    }

    /// What the processor runs.
    pub(crate) fn runs(&self, cpu: CpuNo) -> Option<TaskNo>
        requires { IsProcessorOf (group_of self.now) cpu.0 }
        ensures { number_of_task result ≡ runs cpu.0 (past self.now) }
    {
        self.engine.engine().runs(cpu)
    }

    /// How many steps were taken.
    pub(crate) fn count(&self) -> u64
        ensures count { result ≡ length self.now.entries }
        ensures few { result ≤ MOST_STEPS }
        ensures begun { IsBegunPlay (group_of self.now) self.now.entries }
        ensures playable { IsPlayable self.now.setup self.now.group }
    {
        self.engine.entries().len() as u64
    }

    /// Takes the next step of the processor's script.
    fn next_of_script(&mut self, cpu: CpuNo, at: Progress) -> Played
        requires cpu { IsProcessorOf (group_of self.old) cpu.0 }
        requires steps { drives.gives_steps self.old.setup.drive ≡ true }
        requires far { IsFar (group_of self.old) cpu.0 self.old.entries at }
        ensures outcome { IsOutcome self.old cpu.0 at result self.new at }
        ensures far { IsFar (group_of self.new) cpu.0 self.new.entries at }
        ensures begun { IsBegunPlay (group_of self.new) self.new.entries }
        ensures few { length self.new.entries ≤ MOST_STEPS }
    {
        let position = self.positions[cpu.0 as usize];
        if position >= self.steps.len() {
            return Played::Ended;
        }
        let step = self.steps[position];
        let reply = self.engine.step(step);
        self.positions[cpu.0 as usize] = self.nexts[position];
        Played::Did(Entry { step, reply })
    }

    /// The act of the processor after `steps` steps of its turn: a tick, an interrupt, then what its job does next. `None`
    /// where the turn is over.
    fn act_after(&self, cpu: CpuNo, steps: u32) -> Option<Act>
        requires { IsProcessorOf (group_of self.now) cpu.0 }
        ensures { result ≡ turning.act_after (group_of self.now) cpu.0 steps (past self.now) }
    {
        if steps == 0 {
            Some(Act::Tick)
        } else if steps == 1 {
            Some(Act::Irq)
        } else if steps >= MOST_TURN_STEPS {
            None
        } else {
            next_act(&self.setup, &self.engine.engine().situation(cpu))
        }
    }

    /// Takes a step of the processor's turn, or gives the turn as over.
    fn next_of_turn(&mut self, cpu: CpuNo, at: &mut Progress) -> Played
        requires cpu { IsProcessorOf (group_of self.old) cpu.0 }
        requires turns { drives.gives_steps self.old.setup.drive ≡ false }
        requires far { IsFar (group_of self.old) cpu.0 self.old.entries at.old }
        ensures outcome { IsOutcome self.old cpu.0 at.old result self.new at.new }
        ensures far { IsFar (group_of self.new) cpu.0 self.new.entries at.new }
        ensures begun { IsBegunPlay (group_of self.new) self.new.entries }
        ensures few { length self.new.entries ≤ MOST_STEPS }
    {
        if at.turns >= horizon_of(&self.setup.parts().drive) {
            return Played::Ended;
        }
        let Some(act) = self.act_after(cpu, at.steps) else {
            at.turns += 1;
            at.steps = 0;
            return Played::TurnOver;
        };
        let tick = Tick(at.turns);
        let step = Step { cpu, tick, act };
        let reply = self.engine.step(step);
        at.steps += 1;
        Played::Did(Entry { step, reply })
    }

    /// Takes the processor's next step, of its script or of its turns, in which it is so far.
    pub(crate) fn advance(&mut self, cpu: CpuNo, at: &mut Progress) -> Played
        requires cpu { IsProcessorOf (group_of self.old) cpu.0 }
        requires far { IsFar (group_of self.old) cpu.0 self.old.entries at.old }
        ensures outcome { IsOutcome self.old cpu.0 at.old result self.new at.new }
        ensures far { IsFar (group_of self.new) cpu.0 self.new.entries at.new }
        ensures begun { IsBegunPlay (group_of self.new) self.new.entries }
        ensures few { length self.new.entries ≤ MOST_STEPS }
    {
        if gives_steps(&self.setup.parts().drive) {
            self.next_of_script(cpu, *at)
        } else {
            self.next_of_turn(cpu, at)
        }
    }

    /// The engine, with the same history.
    pub(crate) fn into_engine(self) -> KeepingEngine
        ensures same { result ≡ self }
        ensures begun { IsBegunPlay (group_of result) result.entries }
    {
        let Player { engine, .. } = self;
        engine
    }
}
