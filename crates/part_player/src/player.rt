//! The history of a partition, with its state.
ghost use Rattle.std.specs.Prelude.{◌≡◌, ◌<◌, ◌++◌, ◌∷◌, ◌-◌, [], true, false, Some, IfOk, IfErr, IfNone, IfSome};
ghost use Rattle.rt_base.specs.TaskNos.{numbers};
ghost use Rattle.rt_plays.specs.Room.{processor_count};
ghost use Rattle.split_rules.specs.PartLinks.{tasks};
ghost use Rattle.split_counts.specs.Room.{ComesNext};
ghost use Rattle.split_rules.specs.PartHistories.{steps_of};
ghost use Rattle.split_rules.specs.PartSems.{awaiting};
ghost use Rattle.split_set.specs.SplitSets.{is_split_set};
ghost use Rattle.part_player.specs.Players.{entry_of, group_of, has_entry, own_script, past_at, take_entry, unplayed, IsAnswered, IsBegun, IsPlayed};

use crate::acts::act;
use crate::opening::{group_of, script_of, tasks_of};
use mpcp_ceilings::MpcpCeilings;
use part_state::{PartReply, PartState};
use rt_base::{ClusterNo, CpuNo, MOST_CPUS, NoMemory, SemNo, TaskNo, Tick};
use rt_rules::Reply;
use rt_task::{Setup, Step};
use split_rules::{SplitAct, SplitEntry};
use std::alloc::Global;
use std::marker::Model;

/// A step of the script that was begun, and what it comes to, as far as the partition says it alone.
#[derive(Clone, Copy)]
pub struct Begun {
    pub step: Step,
    pub reply: PartReply,
}

/// The history of the partition of a processor, and the state that its entries made. Contracts see the history, and whether
/// a step was begun. After `open` no call but `reserve` takes memory.
#[derive(Drop)]
pub struct Player {
    setup: Setup,
    cpu: CpuNo,
    script: Vec<Step>,
    /// How many steps of the script were played.
    played: usize,
    /// Whether the next step was begun: then the clock stands at its tick.
    begun: bool,
    tasks: Vec<TaskNo>,
    ceilings: MpcpCeilings,
    state: PartState,
    entries: Vec<SplitEntry>,
}

impl Model for Player {
    ghost use Rattle.std.specs.Prelude.{◌-◌, vec_len, vec_capacity};
    ghost use Rattle.rt_base.specs.TaskNos.{numbers};
    ghost use Rattle.part_player.specs.Players.{PlayerOf};
    ghost use Rattle.part_player.specs.Kept.{IsKept};

    ghost Value = { PlayerOf };

    ghost view = { λ a. record {
      setup = a.setup;
      cpu = a.cpu.0;
      entries = a.entries.items;
      begun = a.begun;
      room = vec_capacity a.entries - vec_len a.entries;
    } };

    ghost invariant = { λ a. IsKept a.setup a.cpu.0 a.entries.items a.begun a.script.items a.played
        (numbers a.tasks.items) a.ceilings a.state };
}

impl Player {
    /// The partition of a processor of a split set, before its first step.
    pub fn open(alloc: Global, setup: &Setup, cpu: CpuNo) -> Result<Player, NoMemory>
        requires split { is_split_set setup.now ≡ true }
        requires there { cpu.0 < processor_count setup.now }
        ensures { IfOk result (λ a. a ≡ unplayed setup.now cpu.0 a.room) }
    {
        let parts = setup.parts();
        let script = script_of(alloc, parts, cpu)?;
        // Each cluster has one processor.
        let cluster = ClusterNo(cpu.0);
        let tasks = tasks_of(alloc, parts.tasks.as_slice(), cluster)?;
        let group = group_of(parts.clusters.as_slice(), cluster);
        let ceilings = MpcpCeilings::open(alloc, parts, group)?;
        let count = parts.tasks.as_slice().len() as u32;
        let state = PartState::open(alloc, count, MOST_CPUS)?;
        Ok(Player {
            setup: setup.share()?,
            cpu,
            script,
            played: 0,
            begun: false,
            tasks,
            ceilings,
            state,
            entries: Vec::new(alloc),
        })
    }

    /// Takes room for one entry more, if there is none.
    pub fn reserve(&mut self) -> Result<(), NoMemory>
        ensures room { IfOk result (λ _. 0 < self.new.room) }
        ensures same { self.new ≡ record self.old { room = self.new.room } }
    {
        self.entries.reserve(1)?;
        Ok(())
    }

    /// Begins the next step of the script, if one is left, and says what it comes to.
    pub fn begin(&mut self) -> Option<Begun>
        requires { self.old.begun ≡ false }
        ensures ended { IfNone result
            (own_script self.old.setup self.old.cpu ≡ steps_of self.old.cpu self.old.entries) }
        ensures still { IfNone result (self.new ≡ self.old) }
        ensures begun { IfSome result (λ b. IsBegun self.old b) }
        ensures same { IfSome result (λ b. self.new ≡ record self.old { begun = true }) }
    {
        let step = *self.script.as_slice().get(self.played)?;
        self.begun = true;
        self.state.move_clock(step.tick);
        let parts = self.setup.parts();
        let tasks = self.tasks.as_slice();
        let link = self.state.linked(parts, &self.ceilings, tasks);
        let reply = self.state.reply(parts, self.cpu, link, step.act);
        Some(Begun { step, reply })
    }

    /// Ends the step that was begun, with a reply that the rules give, and adds its entry to the history.
    pub fn finish(&mut self, step: Step, reply: Reply) -> SplitEntry
        requires begun { self.old.begun ≡ true }
        requires room { 0 < self.old.room }
        requires next { ComesNext (own_script self.old.setup self.old.cpu) self.old.cpu
            self.old.entries step }
        requires reply { IsAnswered (group_of self.old) self.old.cpu (past_at self.old) step reply }
        ensures entry { result ≡ entry_of step reply }
        ensures added { self.new ≡ has_entry result self.old }
    {
        let parts = self.setup.parts();
        let tasks = parts.tasks.as_slice();
        act(&mut self.state, tasks, self.cpu, step.act, reply);
        self.played += 1;
        self.begun = false;
        let entry = SplitEntry {
            tick: step.tick,
            act: SplitAct::Plain(step.act),
            reply,
        };
        self.entries.push_reserved(entry);
        entry
    }

    /// Takes a grant: entry `no` of the semaphore's history granted it to the task, which waits for it.
    pub fn take(&mut self, sem: SemNo, no: u32, task: TaskNo) -> SplitEntry
        requires still { self.old.begun ≡ false }
        requires room { 0 < self.old.room }
        requires waits { awaiting task.0 (past_at self.old) ≡ Some sem.0 }
        ensures entry { result ≡ take_entry (past_at self.old) sem no task }
        ensures taken { self.new ≡ has_entry result self.old }
    {
        let entry = SplitEntry {
            tick: Tick(self.state.clock()),
            act: SplitAct::Take { sem, no, task },
            reply: Reply::Done,
        };
        self.state.take(task, sem);
        self.entries.push_reserved(entry);
        entry
    }

    /// The history: legal, and its steps are a first part of the script.
    pub fn entries(&self) -> &[SplitEntry]
        ensures entries { result.now ≡ self.now.entries }
        ensures played { IsPlayed self.now.setup self.now.cpu self.now.entries }
    {
        self.entries.as_slice()
    }

    /// The processor.
    pub fn cpu(&self) -> CpuNo
        ensures cpu { result.0 ≡ self.now.cpu }
        ensures played { IsPlayed self.now.setup self.now.cpu self.now.entries }
    {
        self.cpu
    }

    /// The set.
    pub fn setup(&self) -> &Setup
        ensures { result.now ≡ self.now.setup }
    {
        &self.setup
    }

    /// The tasks of the partition, by rising number.
    pub fn tasks(&self) -> &[TaskNo]
        ensures { numbers result.now ≡ tasks (group_of self.now) self.now.cpu }
    {
        self.tasks.as_slice()
    }

    /// The history, once nothing comes any more.
    pub fn into_entries(self) -> Vec<SplitEntry>
        ensures entries { result.items ≡ self.entries }
        ensures played { IsPlayed self.setup self.cpu self.entries }
    {
        self.entries
    }
}
