//! The steps of a group that are left to be played.
ghost use Rattle.std.specs.Prelude.{◌≡◌, ◌∷◌, ◌≤◌, [], IfSome, MatchOption};
ghost use Rattle.rt_base.specs.declared.TheConstants.{MOST_STEPS};
ghost use Rattle.rt_model.specs.Histories.{after};
ghost use Rattle.rt_model.specs.Steps.{IsStepOf};
ghost use Rattle.rt_plays.specs.Groups.{group_of, past};
ghost use Rattle.set_plays.specs.StepsLeft.{AreOf, room_of, steps_left};

use crate::TurnsLeft;
use group_engine::Engine;
use rt_rules::Entry;
use rt_task::{Setup, Step};

/// The steps of a group that are left to be played: given ones, those of a history, or turns.
#[derive(Drop)]
pub enum StepsLeft<'a> {
    Given(&'a [Step]),
    Again(&'a [Entry]),
    Turns(TurnsLeft),
}

impl StepsLeft<'_> {
    /// Room for the entries of all of them, where none was played yet.
    pub fn room(&self) -> u32
        requires { room_of self.now ≤ MOST_STEPS }
        ensures { result ≡ room_of self.now }
    {
        match self {
            StepsLeft::Given(steps) => steps.len() as u32,
            StepsLeft::Again(entries) => entries.len() as u32,
            StepsLeft::Turns(turns) => turns.room(),
        }
    }

    /// The next step, where the engine is at the history of those before it; none where none is left.
    #[inline(always)]
    pub fn next(&mut self, setup: &Setup, engine: &Engine) -> Option<Step>
        requires setup { engine.now.setup ≡ setup.now }
        requires of { AreOf (group_of engine.now) self.old }
        ensures next { let g = group_of engine.now in
            let was = past engine.now in
            MatchOption result (steps_left g self.old was ≡ [])
            (λ s. steps_left g self.old was ≡ s ∷ steps_left g self.new (after g s was)) }
        ensures step { IfSome result (IsStepOf (group_of engine.now)) }
        ensures of { AreOf (group_of engine.now) self.new }
    {
        match self {
            StepsLeft::Given(steps) => {
                let (first, rest) = steps.split_first()?;
                *steps = rest;
                Some(*first)
            }
            StepsLeft::Again(entries) => {
                let (first, rest) = entries.split_first()?;
                *entries = rest;
                Some(first.step)
            }
            StepsLeft::Turns(turns) => turns.next(setup, engine),
        }
    }
}
