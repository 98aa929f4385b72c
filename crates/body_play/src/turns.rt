//! How far the processors of a group are in their turns.
ghost use Rattle.std.specs.Prelude.{◌≡◌, ◌<◌, ◌↔◌, ◌∷◌, ◌++◌, [], ℕ, List, true, false, length};
ghost use Rattle.std.specs.Prelude.{All, IfOk, None, Some, replicate, slice_set, if◌then◌else◌};
ghost use Rattle.rt_base.specs.declared.TheConstants.{MOST_CPUS};
ghost use Rattle.rt_model.specs.Group.{Group, group_processors};
ghost use Rattle.rt_model.specs.Histories.{after};
ghost use Rattle.rt_model.specs.Past.{Past};
ghost use Rattle.rt_model.specs.Situations.{next_act, situation};
ghost use Rattle.rt_plays.specs.BodyPlays.{has_ended};
ghost use Rattle.rt_plays.specs.Drives as drives;
ghost use Rattle.rt_plays.specs.Homes.{IsProcessorOf};
ghost use Rattle.rt_plays.specs.NextSteps.{MayComeNext};
ghost use Rattle.rt_plays.specs.Turns.{has_none};
ghost use Rattle.rt_plays.specs.Turns as turn_words;
ghost use Rattle.rt_task.specs.declared.Step as steps;
ghost use Rattle.body_play.specs.Turn as words;
ghost use Rattle.body_play.specs.Turns.{AreAt, AreLooked, HasTaken};
ghost use Rattle.body_play.specs.Turns.{numbers_of, row_ended, row_of, row_seen};

use crate::turn::Turn;
use rt_base::{CpuNo, MOST_CPUS, NoMemory};
use rt_task::{Act, Step};
use std::alloc::Global;
use std::marker::Model;

/// How far each processor of a group is in its turns, by its number, and how many turns each has.
/// `None` stands for a processor of another group.
///
/// After each entry every processor of the group is looked at, where it awaits that: `take`, and then `look` for each.
#[derive(Drop)]
pub struct Turns {
    horizon: u64,
    rows: Vec<Option<Turn>>,
}

impl Model for Turns {
    ghost use Rattle.body_play.specs.Turns as seen;

    ghost Value = { seen.Turns };

    ghost view = { λ a. record { horizon = a.horizon; rows = a.rows.items } };
}

/// A position for each number that a processor can have, with nothing in it.
fn no_rows(alloc: Global) -> Result<Vec<Option<Turn>>, NoMemory>
    ensures { IfOk result (λ v. v.items ≡ replicate MOST_CPUS None) }
{
    let mut rows = Vec::new(alloc);
    for _ in 0..MOST_CPUS {
        rows.push(None)?;
    }
    Ok(rows)
}

fn row_has_ended(row: Option<Turn>, horizon: u64) -> bool
    ensures { result ≡ row_ended horizon row }
{
    match row {
        None => true,
        Some(turn) => turn.has_ended(horizon),
    }
}

fn seen(row: Option<Turn>, is_none: bool) -> Option<Turn>
    ensures { result ≡ row_seen is_none row }
{
    match row {
        None => None,
        Some(turn) => Some(turn.seen(is_none)),
    }
}

impl Turns {
    /// Before the first turn of the processors of a group, each of which has `horizon` turns.
    pub fn open(alloc: Global, cpus: &[CpuNo], horizon: u64) -> Result<Turns, NoMemory>
        requires { All (λ q. q.0 < MOST_CPUS) cpus.now }
        ensures { IfOk result (λ v. (g : Group)
            → numbers_of cpus.now ≡ group_processors g
            → drives.horizon g.setup.drive ≡ horizon → AreAt g [] v) }
    {
        let mut rows = no_rows(alloc)?;
        for cpu in cpus {
            rows[cpu.0 as usize] = Some(Turn::before_all());
        }
        Ok(Turns { horizon, rows })
    }

    /// What is kept of a processor.
    fn row(&self, cpu: CpuNo) -> Option<Turn>
        ensures { result ≡ row_of self.now.rows cpu.0 }
    {
        let number = cpu.0 as usize;
        if number < self.rows.len() {
            self.rows[number]
        } else {
            None
        }
    }

    fn put(&mut self, cpu: CpuNo, row: Option<Turn>)
        requires { cpu.0 < length self.old.rows }
        ensures { self.new ≡ record self.old { rows = slice_set self.old.rows cpu.0 row } }
    {
        self.rows[cpu.0 as usize] = row;
    }

    /// Whether the processor is of the group.
    pub fn has(&self, cpu: CpuNo) -> bool
        ensures { (g : Group) (past : Past) → AreAt g past self.now
            → (result ≡ true) ↔ IsProcessorOf g cpu.0 }
    {
        self.row(cpu).is_some()
    }

    /// The step of a processor that may come next: the Tick of its next turn, or the step that goes on with its turn. `next` is
    /// the processor's next act.
    pub fn next_step(&self, cpu: CpuNo, is_tick: bool, next: Option<Act>) -> Option<Step>
        ensures next { (g : Group) (past : Past) (step : steps.Step) → AreAt g past self.now
            → next ≡ next_act g (situation g cpu.0 past) → IsProcessorOf g cpu.0
            → MayComeNext g past step → step.cpu ≡ cpu → turn_words.is_tick step.act ≡ is_tick
            → result ≡ Some step }
        ensures own { (step : steps.Step) → result ≡ Some step → step.cpu ≡ cpu }
    {
        let turn = self.row(cpu)?;
        turn.next_step(cpu, is_tick, next)
    }

    /// Takes a step, where it may come next: it goes on with the turn of its processor, or begins
    /// the next one. `next` is the processor's next act.
    pub fn take(&mut self, step: Step, next: Option<Act>) -> bool
        ensures taken { (g : Group) (past : Past) → AreAt g past self.old
            → next ≡ next_act g (situation g step.cpu.0 past) → result ≡ true
            → HasTaken g past step self.new }
        ensures refused { (g : Group) (past : Past) → AreAt g past self.old
            → next ≡ next_act g (situation g step.cpu.0 past) → result ≡ false
            → IsProcessorOf g step.cpu.0 → MayComeNext g past step → ⊥ }
        ensures stays { result ≡ false → self.new ≡ self.old }
    {
        let Some(turn) = self.row(step.cpu) else {
            return false;
        };
        match turn.after(step, next, self.horizon) {
            Some(turn) => {
                self.put(step.cpu, Some(turn));
                true
            }
            None => false,
        }
    }

    /// Whether a processor is to be looked at after a step that was taken; where not, all stays as if it were.
    pub fn awaits_look(&self, cpu: CpuNo) -> bool
        ensures { (g : Group) (past : Past) (step : Step) (qs : List ℕ)
            → AreLooked g past step qs self.now → result ≡ false
            → AreLooked g past step (qs ++ cpu.0 ∷ []) self.now }
    {
        match self.row(cpu) {
            Some(turn) => turn.awaits_look(),
            None => false,
        }
    }

    /// Looks at a processor of the group after a step that was taken: whether its next act is none.
    pub fn look(&mut self, cpu: CpuNo, is_none: bool)
        ensures { (g : Group) (past : Past) (step : Step) (qs : List ℕ)
            → AreLooked g past step qs self.old
            → is_none ≡ has_none g cpu.0 (after g step past)
            → AreLooked g past step (qs ++ cpu.0 ∷ []) self.new }
    {
        let row = self.row(cpu);
        if row.is_some() {
            self.put(cpu, seen(row, is_none));
        }
    }

    /// Whether each processor has played all its turns.
    pub fn have_ended(&self) -> bool
        ensures ended { (g : Group) (past : Past) → AreAt g past self.now → result ≡ true
            → (q : ℕ) → IsProcessorOf g q → has_ended g q past ≡ true }
        ensures left { (g : Group) (past : Past) → AreAt g past self.now → result ≡ false
            → ((q : ℕ) → IsProcessorOf g q → has_ended g q past ≡ true) → ⊥ }
    {
        for row in &self.rows {
            if !row_has_ended(*row, self.horizon) {
                return false;
            }
        }
        true
    }
}
