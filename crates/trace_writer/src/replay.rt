//! A group's steps as they are taken, with the links that each of them changes and the requests.
ghost use Rattle.std.specs.Prelude.{◌≡◌, ◌<◌, ◌≤◌, [], IfOk, length};
ghost use Rattle.rt_base.specs.declared.TheConstants.{MOST_STEPS};
ghost use Rattle.rt_model.specs.Histories.{changed};
ghost use Rattle.rt_model.specs.Steps.{IsStepOf};
ghost use Rattle.rt_plays.specs.Groups.{group_of, past, IsGroupOf};
ghost use Rattle.rt_changes.specs.Tallies.{tallies};
ghost use Rattle.block_counts.specs.SeenWords.{tallies_of};
ghost use Rattle.trace_lines.specs.Lines.{links_of};
ghost use Rattle.trace_text.specs.Groups.{cpu_numbers};
ghost use Rattle.trace_text.specs.TraceText.{links_at};
ghost use Rattle.trace_writer.specs.Replays.{ShowsLinks, HasTaken};
ghost use Rattle.trace_writer.specs.Stretches.{AreStretches};

use crate::counted::CountingEngine;
use crate::links::{read_again, read_links};
use crate::stretches::{Stretch, placed_stretch, stretches_of};
use block_counts::Seen;
use rt_base::{CpuNo, GroupNo, NoMemory};
use rt_rules::Reply;
use rt_task::{Setup, Step};
use std::alloc::Global;
use trace_lines::CpuLink;
use trace_text::cpus_of;

/// An engine that takes the steps of its group, with the group's processors, their links now, and those that the last step
/// changed.
#[derive(Drop)]
pub struct Replay {
    engine: CountingEngine,
    cpus: Vec<CpuNo>,
    // By the number of each cluster of the set, where its processors stand among these.
    stretches: Vec<Stretch>,
    links: Vec<CpuLink>,
    changed: Vec<CpuLink>,
    ghost stretches_are: { AreStretches (group_of engine) (cpu_numbers cpus.items) (length cpus.items)
        stretches.items },
}

impl Replay {
    /// A group before its first step, with room for `room` steps.
    pub fn open(alloc: Global, setup: &Setup, group: GroupNo, room: u32) -> Result<Replay, NoMemory>
        requires group { IsGroupOf setup.now group.0 }
        requires room { room ≤ MOST_STEPS }
        ensures opened { IfOk result (λ r.
            r.engine ≡
            record { setup = setup.now; group = group.0; entries = []; spare = room }) }
        ensures shows { IfOk result (λ r. ShowsLinks r.engine r.cpus.items r.links.items) }
    {
        let counted = CountingEngine::open(alloc, setup, group, room)?;
        let cpus = cpus_of(alloc, setup, group)?;
        let clusters = setup.parts().clusters.as_slice().len();
        let engine = counted.engine();
        let list = cpus.as_slice();
        let stretches = stretches_of(alloc, engine, list, clusters)?;
        let mut links = Vec::new(alloc);
        read_links(engine, list, &mut links)?;
        Ok(Replay {
            engine: counted,
            cpus,
            stretches,
            links,
            changed: Vec::new(alloc),
        })
    }

    /// The engine.
    pub fn engine(&self) -> &CountingEngine
        ensures { result.now ≡ self.now.engine }
    {
        &self.engine
    }

    /// The links now.
    pub fn links(&self) -> &[CpuLink]
        ensures { result.now ≡ self.now.links.items }
    {
        self.links.as_slice()
    }

    /// The links that the last step changed.
    pub fn changed(&self) -> &[CpuLink]
        ensures { result.now ≡ self.now.changed.items }
    {
        self.changed.as_slice()
    }

    /// The requests so far, in order of asking.
    pub fn requests(&self) -> &[Seen]
        ensures { tallies_of result.now
            ≡ tallies (group_of self.now.engine) (past self.now.engine) }
    {
        self.engine.requests()
    }

    /// Takes a step, and tells its reply. The links are read again where it placed some: of one cluster alone where it placed
    /// links in no other.
    #[inline(always)]
    pub fn step(&mut self, step: Step) -> Result<Reply, NoMemory>
        requires room { 0 < self.old.engine.spare }
        requires step { IsStepOf (group_of self.old.engine) step }
        requires shows { ShowsLinks self.old.engine self.old.cpus.items self.old.links.items }
        ensures taken { IfOk result (HasTaken self.old.engine self.new.engine step) }
        ensures changed { let g = group_of self.old.engine in
            let others = changed g (past self.old.engine) (past self.new.engine) in
            let shown = links_at g (past self.new.engine) others in
            IfOk result (λ r. links_of self.new.changed.items ≡ shown) }
        ensures shows { IfOk result
            (λ r. ShowsLinks self.new.engine self.new.cpus.items self.new.links.items) }
    {
        let reply = self.engine.step(step);
        self.changed.clear();
        let engine = self.engine.engine();
        if !engine.has_placed() {
            return Ok(reply);
        }
        let stretch = placed_stretch(engine, self.cpus.as_slice(), self.stretches.as_slice());
        let links = &mut self.links.as_mut_slice()[stretch.start..stretch.end];
        read_again(engine, links, &mut self.changed)?;
        Ok(reply)
    }
}
