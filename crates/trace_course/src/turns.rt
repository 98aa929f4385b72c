//! The turns of a group's processors, followed with the ranker.
ghost use Rattle.std.specs.Prelude.{◌≡◌, [], ℕ, true, false, All, Some};
ghost use Rattle.rt_task.specs.declared.Step as steps;
ghost use Rattle.rt_model.specs.Histories.{after};
ghost use Rattle.rt_model.specs.Past.{Past};
ghost use Rattle.rt_model.specs.Situations.{next_act, situation};
ghost use Rattle.rt_plays.specs.Homes.{IsProcessorOf};
ghost use Rattle.rt_plays.specs.NextSteps.{MayComeNext};
ghost use Rattle.rt_plays.specs.Turns as turn_words;
ghost use Rattle.rank_afresh.specs.Standing.{IsAt, group_of};
ghost use Rattle.body_play.specs.Turns.{AreAt, AreLooked, HasTaken, numbers_of};

use body_play::{Turns, next_act};
use rank_afresh::Afresh;
use rt_base::CpuNo;
use rt_task::{Act, Setup, Step};

/// The next act of a processor of the group.
fn next_of(setup: &Setup, afresh: &Afresh, cpu: CpuNo) -> Option<Act>
    requires cpu { IsProcessorOf (group_of afresh.now) cpu.0 }
    requires at { (past : Past) × IsAt afresh.now past }
    requires setup { setup.now ≡ afresh.now.setup }
    ensures { (past : Past) → IsAt afresh.now past → let g = group_of afresh.now in
        result ≡ next_act g (situation g cpu.0 past) }
{
    next_act(setup, &afresh.situation(cpu))
}

/// Takes the step of a processor that may come next: the Tick of its next turn, or the step that goes on with its turn. `None`
/// where there is none.
pub(crate) fn take_next(
    turns: &mut Turns,
    setup: &Setup,
    afresh: &Afresh,
    cpu: CpuNo,
    is_tick: bool,
) -> Option<Step>
    requires at { (past : Past) × IsAt afresh.now past
        × AreAt (group_of afresh.now) past turns.old }
    requires setup { setup.now ≡ afresh.now.setup }
    ensures taken { (past : Past) (step : steps.Step) → IsAt afresh.now past
        → AreAt (group_of afresh.now) past turns.old → result ≡ Some step
        → HasTaken (group_of afresh.now) past step turns.new }
    ensures next { (past : Past) (step : steps.Step) → IsAt afresh.now past
        → AreAt (group_of afresh.now) past turns.old
        → IsProcessorOf (group_of afresh.now) step.cpu.0
        → MayComeNext (group_of afresh.now) past step → step.cpu ≡ cpu
        → turn_words.is_tick step.act ≡ is_tick → result ≡ Some step }
    ensures own { (step : steps.Step) → result ≡ Some step → step.cpu ≡ cpu }
{
    if !turns.has(cpu) {
        return None;
    }
    let next = next_of(setup, afresh, cpu);
    let step = turns.next_step(cpu, is_tick, next)?;
    if turns.take(step, next) {
        Some(step)
    } else {
        None
    }
}

/// Looks at each of these processors that awaits it, after a step that was taken.
pub(crate) fn look_at(turns: &mut Turns, setup: &Setup, afresh: &Afresh, cpus: &[CpuNo])
    requires cpus { All (λ q. IsProcessorOf (group_of afresh.now) q.0) cpus.now }
    requires at { (past : Past) × IsAt afresh.now past }
    requires setup { setup.now ≡ afresh.now.setup }
    ensures { (past : Past) (step : steps.Step)
        → IsAt afresh.now (after (group_of afresh.now) step past)
        → AreLooked (group_of afresh.now) past step [] turns.old
        → AreLooked (group_of afresh.now) past step (numbers_of cpus.now) turns.new }
{
    for cpu in cpus {
        if turns.awaits_look(*cpu) {
            let is_none = next_of(setup, afresh, *cpu).is_none();
            turns.look(*cpu, is_none);
        }
    }
}
