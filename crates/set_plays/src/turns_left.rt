//! The turns of a group's processors that are left to be played.
ghost use Rattle.std.specs.Prelude.{◌≡◌, ◌∷◌, ◌*◌, ◌<◌, ◌≤◌, ◌↔◌, [], length, IfSome, IsTrue, MatchOption};
ghost use Rattle.rt_base.specs.declared.TheConstants.{MOST_STEPS, MOST_TURN_STEPS, TICK_END};
ghost use Rattle.rt_model.specs.Group.{Group, group_processors};
ghost use Rattle.rt_model.specs.Histories.{after};
ghost use Rattle.rt_model.specs.Past.{Past};
ghost use Rattle.rt_model.specs.Steps.{IsActOf, IsStepOf};
ghost use Rattle.rt_plays.specs.NextSteps.{step_at};
ghost use Rattle.rt_plays.specs.Order.{rounds};
ghost use Rattle.rt_plays.specs.Groups.{group_of, past};
ghost use Rattle.set_plays.specs.TurnsLeft.{cpu_numbers, cpu_of, next_turn, turns_left, with_step, AreTurnsOf, GoesOnBy, IsTurnOver};

use body_play::next_act;
use group_engine::Engine;
use rt_base::{CpuNo, MOST_TURN_STEPS, Tick};
use rt_task::{Act, Setup, Step};
use std::marker::Model;

/// The turns of a group's processors that are left to be played, in the order of one thread: each processor plays its
/// turn whole, a Tick, an Irq and then its next acts, as long as there is one and at most as many as a turn has; when all
/// have, each plays its next.
#[derive(Drop)]
pub struct TurnsLeft {
    horizon: u64,
    cpus: Vec<CpuNo>,
    // The turn under way: its number, its processor's position, and how many of its steps were handed out.
    tick: u64,
    at: usize,
    done: u32,
}

impl Model for TurnsLeft {
    ghost use Rattle.set_plays.specs.TurnsLeft.{TurnsAhead, cpu_numbers};

    ghost Value = { TurnsAhead };

    ghost view = { λ a. record {
      horizon = a.horizon;
      cpus = cpu_numbers a.cpus.items;
      tick = a.tick;
      position = a.at;
      done = a.done;
    } };
}

impl TurnsLeft {
    /// All turns below the horizon of these processors, by rising number.
    pub fn new(cpus: Vec<CpuNo>, horizon: u64) -> TurnsLeft
        requires some { 0 < length cpus.items }
        ensures turns { (g : Group) → cpu_numbers cpus.items ≡ group_processors g
            → horizon ≤ TICK_END → AreTurnsOf g result }
        ensures all { (g : Group) (was : Past) → cpu_numbers cpus.items ≡ group_processors g
            → turns_left g result was ≡ rounds g horizon 0 was }
        ensures horizon { result.horizon ≡ horizon }
    {
        TurnsLeft {
            horizon,
            cpus,
            tick: 0,
            at: 0,
            done: 0,
        }
    }

    /// Room for the entries of all turns.
    pub(crate) fn room(&self) -> u32
        requires { self.now.horizon * length self.now.cpus * MOST_TURN_STEPS ≤ MOST_STEPS }
        ensures { result ≡ self.now.horizon * length self.now.cpus * MOST_TURN_STEPS }
    {
        (self.horizon * self.cpus.len() as u64 * u64::from(MOST_TURN_STEPS)) as u32
    }

    /// Whether all turns were played.
    fn are_over(&self) -> bool
        ensures { IsTrue result ↔ (self.now.horizon ≤ self.now.tick) }
    {
        self.tick >= self.horizon
    }

    /// The processor of the turn under way.
    fn cpu(&self) -> CpuNo
        requires { self.now.position < length self.now.cpus }
        ensures { result.0 ≡ cpu_of self.now }
    {
        self.cpus[self.at]
    }

    /// The act by which the turn under way goes on; none where it is over.
    #[inline(always)]
    fn act_left(&self, setup: &Setup, engine: &Engine) -> Option<Act>
        requires setup { engine.now.setup ≡ setup.now }
        requires turns { AreTurnsOf (group_of engine.now) self.now }
        ensures left { let g = group_of engine.now in MatchOption result
            (IsTurnOver g self.now (past engine.now)) (GoesOnBy g self.now (past engine.now)) }
        ensures act { IfSome result (IsActOf (group_of engine.now)) }
        ensures room { IfSome result (λ _. self.now.done < MOST_TURN_STEPS) }
    {
        // A proof knows that a setup is valid once its parts are read.
        let _parts = setup.parts();
        if self.done == 0 {
            Some(Act::Tick)
        } else if self.done == 1 {
            Some(Act::Irq)
        } else if self.done < MOST_TURN_STEPS {
            let situation = engine.situation(self.cpu());
            next_act(setup, &situation)
        } else {
            None
        }
    }

    /// The step of this act in the turn under way, which is handed out.
    fn hand_out(&mut self, act: Act) -> Step
        requires position { self.old.position < length self.old.cpus }
        requires room { self.old.done < MOST_TURN_STEPS }
        ensures step { result ≡ step_at (cpu_of self.old) self.old.tick act }
        ensures turns { self.new ≡ with_step self.old }
    {
        let step = Step {
            cpu: self.cpu(),
            tick: Tick(self.tick),
            act,
        };
        self.done += 1;
        step
    }

    /// Ends the turn under way, and goes on to the next one.
    fn end_turn(&mut self)
        requires tick { self.old.tick < TICK_END }
        requires position { self.old.position < length self.old.cpus }
        ensures { self.new ≡ next_turn self.old }
    {
        self.done = 0;
        if self.at + 1 == self.cpus.len() {
            self.tick += 1;
            self.at = 0;
        } else {
            self.at += 1;
        }
    }

    /// The Tick of the turn under way, of which no step was handed out; none where all turns were played.
    fn begin(&mut self) -> Option<Step>
        requires position { self.old.position < length self.old.cpus }
        requires done { self.old.done ≡ 0 }
        ensures next { (g : Group) (was : Past) → MatchOption result
            (turns_left g self.old was ≡ [])
            (λ s. turns_left g self.old was ≡ s ∷ turns_left g self.new (after g s was)) }
        ensures step { (g : Group) → AreTurnsOf g self.old → IfSome result (IsStepOf g) }
        ensures turns { (g : Group) → AreTurnsOf g self.old → AreTurnsOf g self.new }
    {
        if self.are_over() {
            None
        } else {
            Some(self.hand_out(Act::Tick))
        }
    }

    /// The next step, where the engine is at the history of those before; none where all turns were played. It takes a
    /// constant time, and no memory.
    pub fn next(&mut self, setup: &Setup, engine: &Engine) -> Option<Step>
        requires setup { engine.now.setup ≡ setup.now }
        requires turns { AreTurnsOf (group_of engine.now) self.old }
        ensures next { let g = group_of engine.now in MatchOption result
            (turns_left g self.old (past engine.now) ≡ [])
            (λ s. turns_left g self.old (past engine.now)
            ≡ s ∷ turns_left g self.new (after g s (past engine.now))) }
        ensures step { IfSome result (IsStepOf (group_of engine.now)) }
        ensures turns { AreTurnsOf (group_of engine.now) self.new }
    {
        if self.are_over() {
            return None;
        }
        match self.act_left(setup, engine) {
            Some(act) => Some(self.hand_out(act)),
            None => {
                self.end_turn();
                self.begin()
            }
        }
    }
}
