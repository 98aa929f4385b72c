//! A group's steps taken again, one move after the other.
ghost use Rattle.std.specs.Prelude.{◌≡◌, ◌+◌, ◌<◌, ◌≤◌, ◌∷◌, [], ℕ, IfOk};
ghost use Rattle.rt_base.specs.TaskNos.{number_of_task};
ghost use Rattle.rt_base.specs.declared.TheConstants.{MOST_STEPS, TICK_END};
ghost use Rattle.rt_model.specs.Histories.{after};
ghost use Rattle.rt_model.specs.Outcomes.{past_act};
ghost use Rattle.rt_model.specs.Past.{Clock, Past, now};
ghost use Rattle.rt_model.specs.Steps.{IsStepOf};
ghost use Rattle.rt_plays.specs.Groups.{IsGroupOf};
ghost use Rattle.rt_plays.specs.Plays.{group_with};
ghost use Rattle.rt_changes.specs.Tallies.{tallies};
ghost use Rattle.block_counts.specs.SeenWords.{tallies_of};
ghost use Rattle.rank_afresh.specs.Standing as ranker;
ghost use Rattle.view_acts.specs.ShownActs.{act_shown};
ghost use Rattle.view_replay.specs.Replays.{IsAt, IsMoved, ended_number, group_of, spare};

use block_counts::{Blocks, Seen};
use group_core::WaitingList;
use rank_afresh::Afresh;
use rt_base::{GroupNo, NoMemory, TaskNo, Tick};
use rt_rules::Entry;
use rt_task::{Setup, Step};
use std::alloc::Global;
use view_acts::ShownAct;

/// A group whose steps are taken again. A step is two moves: `clock` and then `act`; between them, and after each, a view reads
/// what is so by `afresh`. After `open` no call takes memory.
#[derive(Drop)]
pub struct Replay {
    afresh: Afresh,
    blocks: Blocks,
    waiting: WaitingList,
    clock: Tick,
}

fn task_of(ended: Option<(TaskNo, bool)>) -> Option<TaskNo>
    ensures { number_of_task result ≡ ended_number ended }
{
    match ended {
        Some((task, _)) => Some(task),
        None => None,
    }
}

impl Replay {
    /// A group of a setup at opening, with room for so many steps.
    pub fn open(alloc: Global, setup: &Setup, group: GroupNo, room: u32) -> Result<Replay, NoMemory>
        requires group { IsGroupOf setup.now group.0 }
        requires room { room ≤ MOST_STEPS }
        ensures group { IfOk result (λ r. group_of r ≡ group_with setup.now group.0) }
        ensures room { IfOk result (λ r. spare r ≡ room) }
        ensures opened { IfOk result (λ r. IsAt r []) }
    {
        let afresh = Afresh::open(alloc, setup, group, room)?;
        let blocks = Blocks::open(alloc, setup, group, room)?;
        let tasks = setup.parts().tasks.as_slice().len();
        let waiting = WaitingList::open(alloc, tasks as u32)?;
        Ok(Replay {
            afresh,
            blocks,
            waiting,
            clock: Tick(0),
        })
    }

    /// Moves the clock to the tick, if that is later: the first move of a step.
    pub fn clock(&mut self, tick: Tick)
        requires tick { tick.0 < TICK_END }
        requires at { (past : Past) × IsAt self.old past }
        ensures moved { (past : Past) → IsAt self.old past → IsMoved self.new tick.0 past }
        ensures group { group_of self.new ≡ group_of self.old }
        ensures room { spare self.new ≡ spare self.old }
    {
        self.afresh.clock(tick);
        if self.clock < tick {
            self.clock = tick;
        }
    }

    /// Answers the act of a step, to whose tick the clock was moved last: the second move of a step.
    pub fn act(&mut self, step: Step) -> ShownAct
        requires room { 0 < spare self.old }
        requires step { IsStepOf (group_of self.old) step }
        requires moved { (past : Past) × IsMoved self.old step.tick.0 past }
        ensures act { (past : Past) → IsMoved self.old step.tick.0 past → act_shown result
            ≡ past_act (group_of self.old) step.cpu.0 step.act (Clock step.tick.0 ∷ past) }
        ensures at { (past : Past) → IsMoved self.old step.tick.0 past
            → IsAt self.new (after (group_of self.old) step past) }
        ensures group { group_of self.new ≡ group_of self.old }
        ensures room { spare self.new + 1 ≡ spare self.old }
    {
        let task = self.afresh.runs(step.cpu);
        self.afresh
            .list_waiting(step.cpu, step.act, &mut self.waiting);
        let reply = self.afresh.act(step);
        self.blocks
            .feed(Entry { step, reply }, task, self.waiting.tasks());
        ShownAct {
            cpu: step.cpu,
            act: step.act,
            task,
            reply,
            ended: task_of(self.afresh.ended()),
        }
    }

    /// The clock: the greatest tick so far.
    pub fn now(&self) -> Tick
        ensures at { (past : Past) → IsAt self.now past → result.0 ≡ now past }
        ensures moved { (past : Past) (tick : ℕ) → IsMoved self.now tick past
            → result.0 ≡ now (Clock tick ∷ past) }
        ensures low { (past : Past) → IsAt self.now past → result.0 < TICK_END }
    {
        self.clock
    }

    /// The facts of the group, as they stand after the last move.
    pub fn afresh(&self) -> &Afresh
        ensures at { (past : Past) → IsAt self.now past → ranker.IsAt result.now past }
        ensures moved { (past : Past) (tick : ℕ) → IsMoved self.now tick past
            → ranker.IsAt result.now (Clock tick ∷ past) }
        ensures group { ranker.group_of result.now ≡ group_of self.now }
    {
        &self.afresh
    }

    /// The requests so far, in order of asking, each with how many critical sections it saw end.
    pub fn requests(&self) -> &[Seen]
        ensures { (past : Past) → IsAt self.now past
            → tallies_of result.now ≡ tallies (group_of self.now) past }
    {
        self.blocks.requests()
    }
}
