//! The scripts of a group's processors, followed step by step.
ghost use Rattle.std.specs.Prelude.{◌≡◌, ◌+◌, ◌<◌, ◌≤◌, ◌==◌, ℕ, true, false, length, take};
ghost use Rattle.std.specs.Prelude.{All, IfOk, MatchOption, None, Some, slice_index};
ghost use Rattle.std.specs.Prelude.{count_by, slice_index_or, slice_set, if◌then◌else◌};
ghost use Rattle.rt_base.specs.declared.TheConstants.{MOST_CPUS, MOST_STEPS};
ghost use Rattle.rt_task.specs.declared.Step as given;
ghost use Rattle.rt_rules.specs.Numbers.{has};
ghost use Rattle.rt_plays.specs.Homes.{IsProcessorOf};
ghost use Rattle.rt_plays.specs.Scripts.{script};
ghost use Rattle.body_play.specs.Turns.{numbers_of};
ghost use Rattle.trace_course.specs.Followed.{AreDone, ArePassed, HasPassed, IsDone, IsNextOfScript};
ghost use Rattle.trace_course.specs.Followed.{GroupEntries, has_position, position_in};
ghost use Rattle.trace_course.specs.Next.{AreFollowing, IsNextAt};

use crate::following::following_of;
use crate::table::{position_of, positions_at};
use rt_base::{CpuNo, MOST_CPUS, NoMemory};
use rt_task::Step;
use std::alloc::Global;

/// The position of the processor's next step from a position on.
fn next_of(steps: &[Step], from: usize, cpu: CpuNo) -> Option<usize>
    requires { from ≤ length steps.now }
    ensures { MatchOption result
        (script steps.now cpu.0 ≡ script (take from steps.now) cpu.0)
        (λ j. IsNextAt steps.now from cpu.0 j) }
{
    for j in from..steps.len() {
        if steps[j].cpu.0 == cpu.0 {
            return Some(j);
        }
    }
    None
}

/// How far the steps of a group's processors were followed: for each processor, by its number, the
/// position among the set's steps that it is at, behind its last one that was followed, and `None` for a
/// processor of another group. For each of the set's steps it is kept how far on the next one of its
/// processor is, so that a processor passes to it at once, however many others stand between.
#[derive(Drop)]
pub struct Scripts {
    positions: Vec<Option<usize>>,
    following: Vec<u32>,
}

impl Scripts {
    /// The scripts of these processors, of which no step was followed yet.
    pub(crate) fn open(alloc: Global, steps: &[Step], cpus: &[CpuNo]) -> Result<Scripts, NoMemory>
        requires { All (λ q. q.0 < MOST_CPUS) cpus.now }
        ensures positions { IfOk result (λ s. (q : ℕ) → position_in s.positions.items q
            ≡ (if has q (numbers_of cpus.now) then Some 0 else None)) }
        ensures following { IfOk result (λ s. AreFollowing steps.now s.following.items) }
    {
        let positions = positions_at(alloc, cpus, 0)?;
        let following = following_of(alloc, steps, cpus)?;
        Ok(Scripts {
            positions,
            following,
        })
    }

    /// The position of a processor.
    fn position(&self, cpu: CpuNo) -> Option<usize>
        ensures { result ≡ position_in self.now.positions.items cpu.0 }
    {
        position_of(self.positions.as_slice(), cpu)
    }

    /// How many of the steps are of these processors.
    pub(crate) fn count(&self, steps: &[Step]) -> u32
        requires { length steps.now ≤ MOST_STEPS }
        ensures { result ≡ count_by (λ s. has_position self.now.positions.items s.cpu.0) steps.now }
    {
        let mut count = 0;
        for step in steps {
            if self.position(step.cpu).is_some() {
                count += 1;
            }
        }
        count
    }

    /// Whether the processor has a step left.
    fn has_next(&self, steps: &[Step], cpu: CpuNo) -> bool
        requires { (at : GroupEntries) × ArePassed at steps.now self.now }
        ensures some { (at : GroupEntries) → ArePassed at steps.now self.now → result ≡ true
            → IsProcessorOf at.group cpu.0 × (IsDone at.group at.entries cpu.0 → ⊥) }
        ensures none { (at : GroupEntries) → ArePassed at steps.now self.now → result ≡ false
            → IsProcessorOf at.group cpu.0 → IsDone at.group at.entries cpu.0 }
    {
        match self.position(cpu) {
            Some(from) => next_of(steps, from, cpu).is_some(),
            None => false,
        }
    }

    /// Whether no processor has a step left.
    pub(crate) fn are_over(&self, steps: &[Step]) -> bool
        requires { (at : GroupEntries) × ArePassed at steps.now self.now }
        ensures over { (at : GroupEntries) → ArePassed at steps.now self.now
            → result ≡ true → AreDone at.group at.entries }
        ensures not_over { (at : GroupEntries) → ArePassed at steps.now self.now
            → result ≡ false → AreDone at.group at.entries → ⊥ }
    {
        for q in 0..MOST_CPUS {
            if self.has_next(steps, CpuNo(q)) {
                return false;
            }
        }
        true
    }

    /// How far on from the step in this position its processor may pass.
    fn distance(&self, position: usize) -> usize
        requires { position < length self.now.following.items }
        ensures { result ≡ slice_index self.now.following.items position }
    {
        self.following[position] as usize
    }

    /// Takes it that the processor's steps before this position were followed.
    fn pass(&mut self, cpu: CpuNo, position: usize)
        requires { cpu.0 < length self.old.positions.items }
        ensures positions { self.new.positions.items
            ≡ slice_set self.old.positions.items cpu.0 (Some position) }
        ensures following { self.new.following ≡ self.old.following }
    {
        self.positions[cpu.0 as usize] = Some(position);
    }

    /// Takes the step that comes next of a processor. `None` where there is none.
    pub(crate) fn take_next(&mut self, steps: &[Step], cpu: CpuNo) -> Option<Step>
        requires { (at : GroupEntries) × ArePassed at steps.now self.old }
        ensures taken { (at : GroupEntries) (step : given.Step) → ArePassed at steps.now self.old
            → result ≡ Some step → HasPassed at step self.new }
        ensures next { (at : GroupEntries) (step : given.Step) → ArePassed at steps.now self.old
            → IsNextOfScript at.group at.entries step → step.cpu ≡ cpu → result ≡ Some step }
        ensures own { (step : given.Step) → result ≡ Some step → step.cpu ≡ cpu }
    {
        let from = self.position(cpu)?;
        let j = next_of(steps, from, cpu)?;
        self.pass(cpu, j + self.distance(j));
        Some(steps[j])
    }
}
