//! Whoever takes the steps of a group as they are told, for what is shown of its history.
ghost use Rattle.std.specs.Prelude.{◌≡◌, ◌+◌, ◌<◌, ◌≤◌, [], ℕ, IfOk, OnOk};
ghost use Rattle.rt_base.specs.declared.TheConstants.{MOST_STEPS, TICK_END};
ghost use Rattle.rt_task.specs.Validity.{IsValid};
ghost use Rattle.rt_model.specs.Group.{Group};
ghost use Rattle.rt_model.specs.Histories.{after, reply_to};
ghost use Rattle.rt_model.specs.Past.{Past};
ghost use Rattle.rt_plays.specs.Groups.{IsGroupOf};
ghost use Rattle.rt_plays.specs.Plays.{group_with};
ghost use Rattle.rt_changes.specs.Tallies.{tallies};
ghost use Rattle.block_counts.specs.SeenWords.{tallies_of};
ghost use Rattle.rank_afresh.specs.Standing as ranker;
ghost use Rattle.view_replay.specs.Players.{CanAnswer, Played};

use block_counts::Seen;
use rank_afresh::Afresh;
use rt_base::{GroupNo, NoMemory, Tick};
use rt_rules::Reply;
use rt_task::{Parts, Setup, Step};
use std::alloc::Global;

/// Takes the steps of a group, each by two moves: `move_clock` and then `answer`.
pub trait Player: Drop {
    /// What it is once whole steps of a group were taken, which made this past.
    ghost at: { Self → Played };

    /// And then the clock was moved to a tick: the first move of the next step.
    ghost moved: { Self → ℕ → Played };

    /// Room for how many more steps.
    ghost spare: { Self → ℕ };

    /// A group of a setup at opening, with room for so many steps.
    fn open(alloc: Global, setup: &Setup, group: GroupNo, room: u32) -> Result<Self, NoMemory>
        requires group { IsGroupOf setup.now group.0 }
        requires room { room ≤ MOST_STEPS }
        ensures opened { IfOk result (λ p. at p (group_with setup.now group.0) []) }
        ensures room { IfOk result (λ p. spare p ≡ room) };

    /// Moves the clock to the tick, if that is later: the first move of a step.
    fn move_clock(&mut self, alloc: Global, tick: Tick) -> Result<(), NoMemory>
        requires tick { tick.0 < TICK_END }
        requires at { (g : Group) × (past : Past) × at self.old g past }
        ensures moved { OnOk result ((g : Group) (past : Past) → at self.old g past
            → moved self.new tick.0 g past) }
        ensures room { OnOk result (spare self.new ≡ spare self.old) };

    /// Answers the act of a step, to whose tick the clock was moved last: the second move of a step.
    fn answer(&mut self, alloc: Global, parts: &Parts, step: Step) -> Result<Reply, NoMemory>
        requires room { 0 < spare self.old }
        requires can { (g : Group) × (past : Past)
            × CanAnswer (moved self.old step.tick.0) parts.now step g past }
        ensures reply { IfOk result (λ r. (g : Group) (past : Past)
            → CanAnswer (moved self.old step.tick.0) parts.now step g past
            → r ≡ reply_to g step past) }
        ensures at { OnOk result ((g : Group) (past : Past)
            → CanAnswer (moved self.old step.tick.0) parts.now step g past
            → at self.new g (after g step past)) }
        ensures room { OnOk result (spare self.new + 1 ≡ spare self.old) };

    /// The facts of the group, as they stand after whole steps.
    fn afresh(&self) -> &Afresh
        ensures at { (g : Group) (past : Past) → at self.now g past
            → ranker.IsAt result.now past }
        ensures group { (g : Group) (past : Past) → at self.now g past
            → ranker.group_of result.now ≡ g };

    /// The requests so far, in order of asking, each with how many critical sections it saw end.
    fn requests(&self) -> &[Seen]
        ensures { (g : Group) (past : Past) → at self.now g past
            → tallies_of result.now ≡ tallies g past };
}
