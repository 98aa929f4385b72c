//! Where in a list of a group's processors those of each cluster stand.
ghost use Rattle.std.specs.Prelude.{◌≡◌, ◌==◌, ℕ, ◌<◌, ◌≤◌, All, IfOk, if◌then◌else◌, length, slice_index_or};
ghost use Rattle.rt_model.specs.Links.{linked};
ghost use Rattle.rt_rules.specs.declared.history.Entry.{Entry};
ghost use Rattle.rt_plays.specs.Groups.{GroupHistory, group_of, past, with_entry};
ghost use Rattle.rt_plays.specs.Homes.{IsProcessorOf};
ghost use Rattle.trace_text.specs.Groups.{cpu_numbers};
ghost use Rattle.trace_writer.specs.Stretches.{AreStretches, IsOutside, IsPart, nowhere};

use group_engine::Engine;
use rt_base::{ClusterNo, CpuNo, NoMemory};
use std::alloc::Global;

/// The positions from `start` to before `end`.
#[derive(Clone, Copy)]
pub struct Stretch {
    pub start: usize,
    pub end: usize,
}

/// No position.
const NOWHERE: Stretch = Stretch { start: 0, end: 0 };

impl Stretch {
    /// Where it starts; where it has no position yet, at this one.
    fn start_or(self, position: usize) -> usize
        ensures { result ≡ (if self.end == 0 then position else self.start) }
    {
        if self.end == 0 { position } else { self.start }
    }
}

/// By the number of each of the set's clusters, so many, a stretch outside which none of its processors stands among these.
pub(crate) fn stretches_of(
    alloc: Global,
    engine: &Engine,
    cpus: &[CpuNo],
    clusters: usize,
) -> Result<Vec<Stretch>, NoMemory>
    requires there { All (λ q. IsProcessorOf (group_of engine.now) q.0) cpus.now }
    requires clusters { length engine.now.setup.clusters ≤ clusters }
    ensures { IfOk result (λ stretches.
        AreStretches (group_of engine.now) (cpu_numbers cpus.now) (length cpus.now) stretches.items) }
{
    let mut stretches = vec![in alloc; NOWHERE; clusters]?;
    for i in 0..cpus.len() {
        let home = engine.home(cpus[i]).0 as usize;
        stretches[home] = Stretch {
            start: stretches[home].start_or(i),
            end: i + 1,
        };
    }
    Ok(stretches)
}

/// The stretch of a cluster.
fn stretch_of(stretches: &[Stretch], cluster: ClusterNo) -> Stretch
    ensures { result ≡ slice_index_or stretches.now cluster.0 nowhere }
{
    match stretches.get(cluster.0 as usize) {
        Some(stretch) => *stretch,
        None => NOWHERE,
    }
}

/// The stretch outside which the last step changed no link of these processors.
pub(crate) fn placed_stretch(engine: &Engine, cpus: &[CpuNo], stretches: &[Stretch]) -> Stretch
    requires there { All (λ q. IsProcessorOf (group_of engine.now) q.0) cpus.now }
    requires stretches { AreStretches (group_of engine.now) (cpu_numbers cpus.now) (length cpus.now) stretches.now }
    ensures part { IsPart (length cpus.now) result }
    ensures still { (h : GroupHistory) (e : Entry) → engine.now ≡ with_entry e h
        → (k : ℕ) → k < length cpus.now → IsOutside result k
        → let q = slice_index_or (cpu_numbers cpus.now) k 0 in
        linked (group_of h) q (past engine.now) ≡ linked (group_of h) q (past h) }
{
    match engine.placed_only() {
        Some(cluster) => stretch_of(stretches, cluster),
        None => Stretch {
            start: 0,
            end: cpus.len(),
        },
    }
}
