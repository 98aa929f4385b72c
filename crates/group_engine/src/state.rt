//! What the engine keeps of its group, and what each move makes of it.
ghost use Rattle.std.specs.Prelude.{◌≡◌, ℕ, List, ◌+◌, ◌<◌, ◌≤◌, ◌∷◌, [], All, IfOk, length, option_map, true};
ghost use Rattle.rt_base.specs.TaskNos.{number_of_task};
ghost use Rattle.rt_base.specs.declared.ClusterNo as ids;
ghost use Rattle.rt_task.specs.declared.Task.{Task};
ghost use Rattle.rt_rules.specs.Distinct.{IsDistinct};
ghost use Rattle.rt_rules.specs.Numbers.{has};
ghost use Rattle.rt_rules.specs.Placing.{tasks_in};
ghost use Rattle.rt_model.specs.Group.{cluster_with, clusters, tasks};
ghost use Rattle.rt_model.specs.Holders.{holder};
ghost use Rattle.rt_model.specs.Links.{linked};
ghost use Rattle.rt_model.specs.Past.{Clock, accepted};
ghost use Rattle.rt_model.specs.Runs.{runs};
ghost use Rattle.rt_model.specs.Situations.{situation};
ghost use Rattle.rt_plays.specs.Homes.{IsProcessorOf};
ghost use Rattle.rt_plays.specs.Plays.{group_with};
ghost use Rattle.rt_plays.specs.Groups.{IsGroupOf};
ghost use Rattle.rt_changes.specs.Clusters.{HoldsEligible};
ghost use Rattle.rt_changes.specs.Tallies.{waiter_tasks};
ghost use Rattle.group_core.specs.Words.{AreWaitersAt, GroupAt};
ghost use Rattle.group_jobs.specs.Timers.{AreDue};
ghost use Rattle.group_core.specs.Facts.{tasks_of_some};
ghost use Rattle.group_core.specs.Looked.{looked, named};
ghost use Rattle.group_engine.specs.Links.{AreLinksAt, StayLinked};
ghost use Rattle.group_engine.specs.Moments.{CanActOn, CanEnd, CanLend, CanLook, CanMove, CanTell, HasActed, IsDeclared, IsPlayed};
ghost use Rattle.group_engine.specs.State.{IsAt};
ghost use Rattle.group_engine.specs.inside.Touching.{AreArmedOnly, AreNumbered, CanUpdate, CanUpdateAll, CanUpdateRun, CanRequeue, CanRequeueAll};
ghost use Rattle.group_engine.specs.inside.Touching.{all_updated, all_requeued, armed, updated, with_run, key_now, requeued};

use cluster_table::{ClusterTable, PlacedMarks};
use group_core::{Answer, GroupCore, Looks, WaitingList};
use link_table::Links;
use prio_inherit::Inherit;
use ready_heap::ReadyHeap;
use release_queue::ReleaseQueue;
use rt_base::{ClusterNo, CpuNo, GroupNo, NoMemory, SemNo, TaskNo, Tick};
use rt_rules::{ByKey, Key, Reply, Situation};
use rt_task::{Act, Parts, Setup};
use std::alloc::Global;

/// What the engine shares with the slow ranker; the moments that tasks wait for; and of each cluster the eligible tasks by
/// key, what its processors run, and the links.
#[derive(Drop)]
pub(crate) struct GroupState {
    core: GroupCore,
    timers: ReleaseQueue,
    clusters: ClusterTable,
}

impl GroupState {
    /// The state before the first move, with room for `room` arrivals.
    pub(crate) fn open(
        alloc: Global,
        setup: &Setup,
        group: GroupNo,
        room: u32,
    ) -> Result<GroupState, NoMemory>
        requires group { IsGroupOf setup.now group.0 }
        ensures played { IfOk result (λ _. IsPlayed (group_with setup.now group.0)) }
        ensures at { IfOk result (λ s. IsAt (group_with setup.now group.0) [] s) }
        ensures room { IfOk result (λ s. s.core.room ≡ room) }
    {
        let parts = setup.parts();
        let count = parts.tasks.as_slice().len() as u32;
        let mut state = GroupState {
            core: GroupCore::open(alloc, setup, group, room)?,
            timers: ReleaseQueue::new(alloc, count + 1)?,
            clusters: ClusterTable::open(alloc, parts.clusters.as_slice(), group, count + 1)?,
        };
        state.update_group(parts, group);
        state.end_move(parts, &mut PlacedMarks::new(alloc, 0)?);
        Ok(state)
    }

    /// Looks at all tasks of the group.
    fn update_group(&mut self, parts: &Parts, group: GroupNo)
        requires within { All (λ (t : Task). t.cluster.0 < length parts.now.clusters)
            parts.now.tasks }
        requires can { AreNumbered parts.now (tasks (group_with parts.now group.0)) self.old }
        ensures { self.new
            ≡ all_updated parts.now (tasks (group_with parts.now group.0)) self.old }
    {
        for task in parts.tasks.as_slice() {
            let home = task.cluster.0 as usize;
            if parts.clusters.as_slice()[home].group.0 == group.0 {
                self.update(parts, task.number);
            }
        }
    }

    /// The cluster of the processor.
    pub(crate) fn home(&self, cpu: CpuNo) -> ClusterNo
        requires { CanLook cpu.0 self.now }
        ensures { (at : GroupAt) → IsAt at.group at.past self.now → IsProcessorOf at.group cpu.0
            → result.0 ≡ cluster_with at.group cpu.0 }
    {
        self.clusters.home(cpu)
    }

    /// The task that the processor is linked to, `None` where there is none.
    pub(crate) fn linked(&self, cpu: CpuNo) -> Option<TaskNo>
        requires { CanLook cpu.0 self.now }
        ensures { (at : GroupAt) → IsAt at.group at.past self.now → IsProcessorOf at.group cpu.0
            → number_of_task result ≡ linked at.group cpu.0 at.past }
    {
        let home = self.clusters.home(cpu);
        self.clusters.linked(home, cpu)
    }

    /// The links of all processors of the processor's cluster.
    pub(crate) fn links_beside(&self, cpu: CpuNo) -> &Links
        requires { CanLook cpu.0 self.now }
        ensures { (at : GroupAt) → IsAt at.group at.past self.now → IsProcessorOf at.group cpu.0
            → AreLinksAt at.group at.past result.now }
    {
        match self.clusters.links(self.clusters.home(cpu)) {
            Some(links) => links,
            None => unreachable!(),
        }
    }

    /// What the processor runs.
    pub(crate) fn runs(&self, cpu: CpuNo) -> Option<TaskNo>
        requires { CanLook cpu.0 self.now }
        ensures { (at : GroupAt) → IsAt at.group at.past self.now → IsProcessorOf at.group cpu.0
            → number_of_task result ≡ runs cpu.0 at.past }
    {
        self.core.runs(cpu)
    }

    /// What the processor's next act depends on.
    #[inline(always)]
    pub(crate) fn situation(&self, cpu: CpuNo) -> Situation
        requires { CanTell cpu.0 self.now }
        ensures { (at : GroupAt) → IsPlayed at.group → IsAt at.group at.past self.now
            → IsProcessorOf at.group cpu.0 → result ≡ situation at.group cpu.0 at.past }
    {
        let link = self.linked(cpu);
        self.core.situation(cpu, link)
    }

    /// The heap of a cluster's eligible tasks.
    pub(crate) fn ready(&self, cluster: ClusterNo) -> &ReadyHeap<ByKey>
        requires { CanLend cluster.0 self.now }
        ensures { (at : GroupAt) → IsAt at.group at.past self.now
            → has cluster.0 (clusters at.group) ≡ true
            → HoldsEligible at.group cluster.0 at.past result.now.keys }
    {
        match self.clusters.heap(cluster) {
            Some(heap) => heap,
            None => unreachable!(),
        }
    }

    /// The task that holds the semaphore, which a task of the group declares.
    pub(crate) fn holder(&self, sem: SemNo) -> Option<TaskNo>
        ensures { (at : GroupAt) → IsPlayed at.group → IsAt at.group at.past self.now
            → IsDeclared at.group sem.0 → number_of_task result ≡ holder at.group sem.0 at.past }
    {
        self.core.holder(sem)
    }

    /// The table of keys.
    pub(crate) fn keys(&self) -> &Inherit
        ensures { result.now ≡ self.now.core.facts.sems.waits }
    {
        self.core.keys()
    }

    /// The key of the task's job, where that is eligible.
    fn key(&self, parts: &Parts, task: TaskNo) -> Option<Key>
        requires { CanRequeue parts.now task.0 self.now }
        ensures { result ≡ key_now parts.now self.now.core.facts task.0 }
    {
        if self.core.is_eligible(parts, task) {
            Some(self.core.key(task))
        } else {
            None
        }
    }

    /// Arms the task's timer for the moment that its job waits for, if any, and for no other.
    fn rearm_timer(&mut self, parts: &Parts, task: TaskNo)
        requires { CanUpdate parts.now task.0 self.old }
        ensures { self.new ≡ armed parts.now task.0 self.old }
    {
        self.timers.cancel(task);
        if let Some(tick) = self.core.timer(parts, task) {
            self.timers.arm(task, tick);
        }
    }

    /// Puts the task where it stands among those of its cluster: with its key where its job is eligible, and else out.
    fn requeue(&mut self, parts: &Parts, task: TaskNo)
        requires { CanRequeue parts.now task.0 self.old }
        ensures { self.new ≡ requeued parts.now task.0 self.old }
    {
        let key = self.key(parts, task);
        let home = parts.tasks.as_slice()[task.0 as usize - 1].cluster;
        self.clusters.set(home, task, key);
    }

    /// Arms the task's timer anew, looks at whether its job is eligible, and at its key, and tells its reservation.
    fn update(&mut self, parts: &Parts, task: TaskNo)
        requires { CanUpdate parts.now task.0 self.old }
        ensures { self.new ≡ updated parts.now task.0 self.old }
    {
        // The reservation is told last: `end_move` settles it, and requeues whom that serves.
        self.requeue(parts, task);
        self.rearm_timer(parts, task);
        self.core.tell(parts, task);
    }

    /// Puts the tasks that the end of the move made or unmade served clients of their reservations where they stand.
    fn requeue_changed(&mut self, parts: &Parts)
        requires { CanRequeueAll parts.now self.old.core.facts.resvs.changed self.old }
        ensures { self.new ≡ all_requeued parts.now self.old.core.facts.resvs.changed self.old }
    {
        for i in 0..self.core.changed().len() {
            let task = self.core.changed()[i];
            self.requeue(parts, task);
        }
    }

    /// Ends a move, or the opening: the reservations are settled, and the links follow. The clusters in which links are placed
    /// anew are marked.
    #[inline(always)]
    fn end_move(&mut self, parts: &Parts, placed: &mut PlacedMarks)
        requires { (at : GroupAt) × CanEnd at parts.now self.old }
        ensures at { (at : GroupAt) → CanEnd at parts.now self.old → IsAt at.group at.past self.new }
        ensures links { StayLinked placed.old placed.new self.old self.new }
        ensures room { self.new.core.room ≡ self.old.core.room }
    {
        // The links come last: who is served says who is ranked, and who is ranked says who is linked.
        self.core.settle();
        self.requeue_changed(parts);
        self.clusters.place_changed(placed);
    }

    /// Looks at each task whose moment has come, the earliest first.
    fn update_due(&mut self, parts: &Parts)
        requires { (ts : List ℕ) × CanUpdateAll parts.now ts self.old × AreArmedOnly ts self.old }
        ensures { (us : List ℕ) × AreDue self.old.core.facts.kept.clock self.old.timers us
            × (self.new ≡ all_updated parts.now us self.old) }
    {
        let clock = Tick(self.core.clock());
        while let Some(task) = self.timers.next_due(clock) {
            // It is armed for a later moment or for none, so that each task comes once.
            self.update(parts, task);
        }
    }

    /// Lists the tasks that wait for the semaphore that the act of the processor frees, once the clock has moved.
    #[inline(always)]
    pub(crate) fn list_waiting(&self, parts: &Parts, cpu: CpuNo, act: Act, list: &mut WaitingList)
        requires at { (at : GroupAt) × CanActOn at cpu.0 act parts.now self.now }
        requires room { length parts.now.tasks ≤ list.old.room }
        ensures waiting { (at : GroupAt) → CanActOn at cpu.0 act parts.now self.now
            → AreWaitersAt at cpu.0 act list.new.waiting }
        ensures once { IsDistinct (waiter_tasks list.new.waiting) }
        ensures room_is { list.new.room ≡ list.old.room }
    {
        self.core.list_waiting(parts, cpu, act, list);
    }

    /// Moves the clock to the tick, if that is later: the tasks whose moment has come are looked at, and the links
    /// follow. The clusters in which links are placed anew are marked.
    #[inline(always)]
    pub(crate) fn move_clock(&mut self, parts: &Parts, tick: Tick, placed: &mut PlacedMarks)
        requires { (at : GroupAt) × CanMove at tick.0 parts.now self.old }
        ensures moved { (at : GroupAt) → CanMove at tick.0 parts.now self.old
            → IsAt at.group (Clock tick.0 ∷ at.past) self.new }
        ensures links { StayLinked placed.old placed.new self.old self.new }
        ensures room { self.new.core.room ≡ self.old.core.room }
    {
        self.core.move_clock(tick);
        self.update_due(parts);
        self.end_move(parts, placed);
    }

    /// Looks at the task, if there is one.
    #[inline(always)]
    fn update_any(&mut self, parts: &Parts, task: Option<TaskNo>)
        requires { CanUpdateAll parts.now (tasks_in (number_of_task task ∷ [])) self.old }
        ensures { self.new
            ≡ all_updated parts.now (tasks_in (number_of_task task ∷ [])) self.old }
    {
        if let Some(task) = task {
            self.update(parts, task);
        }
    }

    /// Looks at the tasks that an act has touched and named one by one.
    #[inline(always)]
    fn update_named(&mut self, parts: &Parts, looks: Looks)
        requires { CanUpdateAll parts.now (named looks) self.old }
        ensures { self.new ≡ all_updated parts.now (named looks) self.old }
    {
        self.update_any(parts, looks.task);
        self.update_any(parts, looks.before);
        self.update_any(parts, looks.after);
        self.update_any(parts, looks.served);
    }

    /// Looks at all tasks of the cluster, if there is one.
    fn update_cluster(&mut self, parts: &Parts, cluster: Option<ClusterNo>)
        requires { let c = option_map (λ (x : ids.ClusterNo). x.0) cluster in
            AreNumbered parts.now (tasks_of_some parts.now c) self.old }
        ensures { let c = option_map (λ (x : ids.ClusterNo). x.0) cluster in
            self.new ≡ all_updated parts.now (tasks_of_some parts.now c) self.old }
    {
        let Some(home) = cluster else {
            return;
        };
        for task in parts.tasks.as_slice() {
            if task.cluster.0 == home.0 {
                self.update(parts, task.number);
            }
        }
    }

    /// Looks at the tasks that an act has touched.
    #[inline(always)]
    fn update_looked(&mut self, parts: &Parts, looks: Looks)
        requires { AreNumbered parts.now (looked parts.now looks) self.old }
        ensures { self.new ≡ all_updated parts.now (looked parts.now looks) self.old }
    {
        self.update_named(parts, looks);
        self.update_cluster(parts, looks.cluster);
    }

    /// Writes down in its cluster what the processor runs after an act that was answered so: its link after an interrupt that
    /// is accepted, and nothing after an operation that leaves it with nothing to run.
    #[inline(always)]
    fn update_run(&mut self, cpu: CpuNo, act: Act, reply: Reply)
        requires { CanUpdateRun cpu.0 self.old }
        ensures { self.new ≡ with_run cpu.0 act reply self.old }
    {
        let home = self.clusters.home(cpu);
        match act {
            Act::Irq => {
                if is_accepted(reply) {
                    let _ = self.clusters.take_irq(home, cpu, false);
                }
            }
            Act::Do(_) => {
                if self.core.runs(cpu).is_none() {
                    self.clusters.leave(home, cpu);
                }
            }
            _ => {}
        }
    }

    /// An act of the processor, once the clock has moved. The clusters in which links are placed anew are marked.
    #[inline(always)]
    pub(crate) fn act(
        &mut self,
        parts: &Parts,
        cpu: CpuNo,
        act: Act,
        placed: &mut PlacedMarks,
    ) -> Answer
        requires at { (at : GroupAt) × CanActOn at cpu.0 act parts.now self.old }
        requires room { 0 < self.old.core.room }
        ensures acted { (at : GroupAt) → CanActOn at cpu.0 act parts.now self.old
            → HasActed at cpu.0 act result self.new }
        ensures links { StayLinked placed.old placed.new self.old self.new }
        ensures room { self.old.core.room ≤ self.new.core.room + 1 }
    {
        let link = self.linked(cpu);
        let answer = self.core.act(parts, cpu, link, act);
        self.update_run(cpu, act, answer.reply);
        self.update_looked(parts, answer.looks);
        self.end_move(parts, placed);
        answer
    }
}

/// Whether an act with this reply was done.
fn is_accepted(reply: Reply) -> bool
    ensures { result ≡ accepted reply }
{
    matches!(
        reply,
        Reply::Done | Reply::Runs(_) | Reply::Idles | Reply::Granted | Reply::Queued
    )
}
