//! The engine of one group: its history, kept step by step.
ghost use Rattle.std.specs.Prelude.{◌≡◌, ◌≢◌, ℕ, ◌<◌, ◌≤◌, ◌+◌, ◌∷◌, ◌++◌, [], IfOk, IfSome, true, false, length};
ghost use Rattle.rt_base.specs.TaskNos.{number_of_task};
ghost use Rattle.rt_base.specs.declared.TheConstants.{MOST_STEPS};
ghost use Rattle.rt_rules.specs.Distinct.{IsDistinct};
ghost use Rattle.rt_rules.specs.Numbers.{has};
ghost use Rattle.rt_model.specs.Group.{cluster_with, clusters};
ghost use Rattle.rt_model.specs.Runs.{runs};
ghost use Rattle.rt_model.specs.Links.{linked};
ghost use Rattle.rt_model.specs.Situations.{situation};
ghost use Rattle.rt_model.specs.Histories.{past_of, reply_to};
ghost use Rattle.rt_model.specs.Holders.{holder};
ghost use Rattle.rt_changes.specs.Tallies.{waiter_tasks};
ghost use Rattle.group_core.specs.Words.{AreWaitersAt};
ghost use Rattle.group_engine.specs.Keys.{HoldsKeys};
ghost use Rattle.group_engine.specs.Links.{AreLinksAt, StayLinked};
ghost use Rattle.group_engine.specs.Moments.{IsDeclared, between};
ghost use Rattle.group_engine.specs.Sound.{Extent, IsMoved, IsSound};
ghost use Rattle.rt_rules.specs.declared.history.Entry.{Entry};
ghost use Rattle.rt_model.specs.Steps.{IsStepOf};
ghost use Rattle.rt_plays.specs.Homes.{IsProcessorOf};
ghost use Rattle.rt_changes.specs.Clusters.{HoldsEligible};
ghost use Rattle.resv_core.specs.Tables.{FollowsTables};
ghost use Rattle.rt_laws.specs.StackPolicy.{FollowsStack};
ghost use Rattle.rt_plays.specs.Groups.{GroupHistory, group_of, past, with_entry, AreStepsOf, IsGroupOf, IsLegalNow};
ghost use Rattle.rt_plays.specs.Endings.{ended_last};

use crate::state::GroupState;
use cluster_table::PlacedMarks;
use ghost_list::GhostList;
use group_core::{Answer, WaitingList};
use link_table::Links;
use prio_inherit::Inherit;
use ready_heap::ReadyHeap;
use rt_base::{ClusterNo, CpuNo, GroupNo, NoMemory, SemNo, TaskNo};
use rt_rules::{ByKey, Entry, Reply, Situation};
use rt_task::{Parts, Setup, Step};
use std::alloc::Global;
use std::marker::Model;

/// One group of a setup and its history. Contracts see the setup, the group's number, the entries, and room for how many more.
/// The entries are kept for contracts alone: who wants them again keeps what `step` answers.
///
/// After `open` no call takes memory.
#[derive(Drop)]
pub struct Engine {
    setup: Setup,
    group: GroupNo,
    room: u32,
    taken: u32,
    entries: GhostList<Entry>,
    state: GroupState,
    ended: Option<(TaskNo, bool)>,
    // The clusters in which the last step placed links anew.
    placed: PlacedMarks,
}

impl Model for Engine {
    ghost use Rattle.std.specs.Prelude.{◌-◌};
    ghost use Rattle.rt_plays.specs.Groups.{GroupHistory};
    ghost use Rattle.group_engine.specs.Sound.{IsEngine};

    ghost Value = { GroupHistory };

    ghost view = { λ a. record {
      setup = a.setup;
      group = a.group.0;
      entries = a.entries.items;
      spare = a.room - a.taken;
    } };

    ghost invariant = { λ a.
        IsEngine (record { setup = a.setup; number = a.group.0 })
        a.entries.items a.room a.taken a.state a.ended a.placed };
}

impl Engine {
    /// A group of a setup before its first step, with room for `room` steps. All memory is taken here.
    pub fn open(alloc: Global, setup: &Setup, group: GroupNo, room: u32) -> Result<Engine, NoMemory>
        requires group { IsGroupOf setup.now group.0 }
        requires room { room ≤ MOST_STEPS }
        ensures { IfOk result (λ e. e
            ≡ record { setup = setup.now; group = group.0; entries = []; spare = room }) }
    {
        let setup = setup.share()?;
        let state = GroupState::open(alloc, &setup, group, room)?;
        let placed = PlacedMarks::new(alloc, setup.parts().clusters.as_slice().len())?;
        Ok(Engine {
            setup,
            group,
            room,
            taken: 0,
            entries: GhostList::new(),
            state,
            ended: None,
            placed,
        })
    }

    /// How many more steps there is room for.
    pub fn spare(&self) -> u32
        ensures { result ≡ self.now.spare }
    {
        self.room - self.taken
    }

    /// How many steps it has taken.
    pub fn taken(&self) -> u32
        ensures taken { result ≡ length self.now.entries }
        ensures legal { IsLegalNow self.now }
        ensures steps { AreStepsOf (group_of self.now) self.now.entries }
        ensures room { length self.now.entries + self.now.spare ≤ MOST_STEPS }
    {
        self.taken
    }

    /// The task that the processor is linked to, `None` where there is none.
    pub fn linked(&self, cpu: CpuNo) -> Option<TaskNo>
        requires { IsProcessorOf (group_of self.now) cpu.0 }
        ensures { number_of_task result ≡ linked (group_of self.now) cpu.0 (past self.now) }
    {
        self.state.linked(cpu)
    }

    /// The links of all processors of the processor's cluster.
    pub fn links_beside(&self, cpu: CpuNo) -> &Links
        requires { IsProcessorOf (group_of self.now) cpu.0 }
        ensures { AreLinksAt (group_of self.now) (past self.now) result.now }
    {
        self.state.links_beside(cpu)
    }

    /// The cluster of the processor.
    pub fn home(&self, cpu: CpuNo) -> ClusterNo
        requires { IsProcessorOf (group_of self.now) cpu.0 }
        ensures { result.0 ≡ cluster_with (group_of self.now) cpu.0 }
    {
        self.state.home(cpu)
    }

    /// What the processor runs.
    pub fn runs(&self, cpu: CpuNo) -> Option<TaskNo>
        requires { IsProcessorOf (group_of self.now) cpu.0 }
        ensures { number_of_task result ≡ runs cpu.0 (past self.now) }
    {
        self.state.runs(cpu)
    }

    /// What the processor's next act depends on. It takes a constant time.
    #[inline(always)]
    pub fn situation(&self, cpu: CpuNo) -> Situation
        requires { IsProcessorOf (group_of self.now) cpu.0 }
        ensures { result ≡ situation (group_of self.now) cpu.0 (past self.now) }
    {
        self.state.situation(cpu)
    }

    /// The task whose job the last step ended, and whether the clock was past that job's deadline; `None` where it ended no
    /// job, and before the first step.
    pub fn ended(&self) -> Option<(TaskNo, bool)>
        ensures { result ≡ ended_last (group_of self.now) (past self.now) }
    {
        self.ended
    }

    /// Whether the last step, its move of the clock or its act, may have changed a link: where not, each processor of the group is
    /// linked as before the step.
    pub fn has_placed(&self) -> bool
        ensures { (h : GroupHistory) (e : Entry) → self.now ≡ with_entry e h → result ≡ false
            → (q : ℕ) → IsProcessorOf (group_of h) q
            → linked (group_of h) q (past self.now) ≡ linked (group_of h) q (past h) }
    {
        self.placed.has_any()
    }

    /// The only cluster in which the last step, its move of the clock or its act, may have changed a link: each processor of the
    /// other clusters is linked as before the step. `None` where it may have changed links in several clusters, or in none.
    pub fn placed_only(&self) -> Option<ClusterNo>
        ensures { (h : GroupHistory) (e : Entry) → self.now ≡ with_entry e h
            → IfSome result (λ c. (q : ℕ) → IsProcessorOf (group_of h) q
            → cluster_with (group_of h) q ≢ c.0
            → linked (group_of h) q (past self.now) ≡ linked (group_of h) q (past h)) }
    {
        self.placed.only()
    }

    /// The eligible tasks of a cluster of the group, each with its effective key.
    pub fn ready(&self, cluster: ClusterNo) -> &ReadyHeap<ByKey>
        requires { has cluster.0 (clusters (group_of self.now)) ≡ true }
        ensures { HoldsEligible (group_of self.now) cluster.0 (past self.now) result.now.keys }
    {
        self.state.ready(cluster)
    }

    /// The task that holds the semaphore, which a task of the group declares.
    pub fn holder(&self, sem: SemNo) -> Option<TaskNo>
        requires { IsDeclared (group_of self.now) sem.0 }
        ensures { number_of_task result ≡ holder (group_of self.now) sem.0 (past self.now) }
    {
        self.state.holder(sem)
    }

    /// The keys of the tasks of the group. The base key of each is known, and `Inherit::key` is its effective key.
    pub fn keys(&self) -> &Inherit
        ensures { HoldsKeys (group_of self.now) (past self.now) result.now }
    {
        self.state.keys()
    }

    /// Takes a step of the group: the clock moves to its tick, if that is later, and then the act is answered.
    /// It adds one entry, the step with its reply.
    pub fn step(&mut self, step: Step) -> Reply
        requires room { 0 < self.old.spare }
        requires step { IsStepOf (group_of self.old) step }
        ensures reply { result ≡ reply_to (group_of self.old) step (past self.old) }
        ensures entry { self.new ≡ with_entry (record { step = step; reply = result }) self.old }
        ensures legal { IsLegalNow self.new }
        ensures tables { FollowsTables (group_of self.new) (past self.new) }
        ensures stack { FollowsStack (group_of self.new) (past self.new) }
    {
        let parts = self.setup.parts();
        self.placed.clear();
        self.state.move_clock(parts, step.tick, &mut self.placed);
        let answer = take_act(
            parts,
            &mut self.state,
            &mut self.entries,
            &mut self.placed,
            step,
        );
        self.taken += 1;
        self.ended = answer.ended;
        answer.reply
    }

    /// Takes a step, as `step` does, and lists the tasks that wait for the semaphore that it frees, each with whether it is
    /// priority-blocked, as they wait between its two moves; none where it frees none. Each task stands once.
    #[inline(always)]
    pub fn step_listing(&mut self, step: Step, list: &mut WaitingList) -> Reply
        requires room { 0 < self.old.spare }
        requires step { IsStepOf (group_of self.old) step }
        requires list { length self.old.setup.tasks ≤ list.old.room }
        ensures reply { result ≡ reply_to (group_of self.old) step (past self.old) }
        ensures entry { self.new ≡ with_entry (record { step = step; reply = result }) self.old }
        ensures legal { IsLegalNow self.new }
        ensures tables { FollowsTables (group_of self.new) (past self.new) }
        ensures stack { FollowsStack (group_of self.new) (past self.new) }
        ensures waiting { AreWaitersAt (between self.old step) step.cpu.0 step.act list.new.waiting }
        ensures once { IsDistinct (waiter_tasks list.new.waiting) }
        ensures same_room { list.new.room ≡ list.old.room }
    {
        let parts = self.setup.parts();
        self.placed.clear();
        self.state.move_clock(parts, step.tick, &mut self.placed);
        // Between the two moves: they wait as the semaphore is freed, before it is granted to one of them.
        self.state.list_waiting(parts, step.cpu, step.act, list);
        let answer = take_act(
            parts,
            &mut self.state,
            &mut self.entries,
            &mut self.placed,
            step,
        );
        self.taken += 1;
        self.ended = answer.ended;
        answer.reply
    }
}

/// Answers the act of a step, to whose tick the clock has moved, and adds the entry. The clusters in which links are placed
/// anew are marked.
#[inline(always)]
fn take_act(
    parts: &Parts,
    state: &mut GroupState,
    entries: &mut GhostList<Entry>,
    placed: &mut PlacedMarks,
    step: Step,
) -> Answer
    requires { (at : Extent)
        × IsMoved at step parts.now entries.old.items state.old }
    ensures reply { (at : Extent)
        → IsMoved at step parts.now entries.old.items state.old
        → result.reply ≡ reply_to at.group step (past_of at.group entries.old.items) }
    ensures entry { entries.new.items
        ≡ entries.old.items ++ record { step = step; reply = result.reply } ∷ [] }
    ensures ended { (at : Extent)
        → IsMoved at step parts.now entries.old.items state.old
        → result.ended ≡ ended_last at.group (past_of at.group entries.new.items) }
    ensures sound { (at : Extent)
        → IsMoved at step parts.now entries.old.items state.old
        → IsSound at.group entries.new.items at.room state.new }
    ensures links { StayLinked placed.old placed.new state.old state.new }
{
    let answer = state.act(parts, step.cpu, step.act, placed);
    *entries = entries.with(&Entry {
        step,
        reply: answer.reply,
    });
    answer
}
