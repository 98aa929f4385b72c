//! The links of a group's processors: read from an engine, and compared with those before.
ghost use Rattle.std.specs.Prelude.{◌≡◌, ◌++◌, All, OnOk};
ghost use Rattle.rt_base.specs.TaskNos.{number_of_task};
ghost use Rattle.rt_model.specs.Links.{linked};
ghost use Rattle.rt_plays.specs.Homes.{IsProcessorOf};
ghost use Rattle.rt_plays.specs.Groups.{group_of, past};
ghost use Rattle.group_engine.specs.Links.{AreLinksAt};
ghost use Rattle.trace_lines.specs.Lines.{links_of};
ghost use Rattle.trace_text.specs.TraceText.{links_at};
ghost use Rattle.trace_text.specs.Groups.{changed_links, cpu_numbers, cpus_in};

use group_engine::Engine;
use link_table::Links;
use rt_base::{CpuNo, NoMemory, TaskNo};
use trace_lines::CpuLink;
use trace_text::is_same_task;

/// Puts the links of these processors in the place of what stood in `links`.
#[tactic(auto, using(std::proofs::Common::append_assoc))]
pub(crate) fn read_links(
    engine: &Engine,
    cpus: &[CpuNo],
    links: &mut Vec<CpuLink>,
) -> Result<(), NoMemory>
    requires { All (λ q. IsProcessorOf (group_of engine.now) q.0) cpus.now }
    ensures { let now = links_at (group_of engine.now) (past engine.now) (cpu_numbers cpus.now) in
        OnOk result (links_of links.new.items ≡ now) }
{
    links.clear();
    for cpu in cpus {
        let link = CpuLink {
            cpu: *cpu,
            task: engine.linked(*cpu),
        };
        links.push(link)?;
    }
    Ok(())
}

/// The task that a processor is linked to, read from the links of a cluster where it is of that one.
#[inline(always)]
fn link_by(engine: &Engine, beside: &Links, cpu: CpuNo) -> Option<TaskNo>
    requires there { IsProcessorOf (group_of engine.now) cpu.0 }
    requires beside { AreLinksAt (group_of engine.now) (past engine.now) beside.now }
    ensures { number_of_task result ≡ linked (group_of engine.now) cpu.0 (past engine.now) }
{
    if beside.has(cpu) {
        beside.linked(cpu)
    } else {
        engine.linked(cpu)
    }
}

/// Reads links again, most of which are of one cluster, whose links these are.
#[tactic(auto, using(std::proofs::Common::append_assoc))]
fn read_beside(
    engine: &Engine,
    beside: &Links,
    links: &mut [CpuLink],
    changed: &mut Vec<CpuLink>,
) -> Result<(), NoMemory>
    requires there { All (λ x. IsProcessorOf (group_of engine.now) x.cpu.0) links.old }
    requires beside { AreLinksAt (group_of engine.now) (past engine.now) beside.now }
    ensures links { OnOk result (links_of links.new
        ≡ links_at (group_of engine.now) (past engine.now) (cpus_in links.old)) }
    ensures changed { OnOk result (links_of changed.new.items ≡ links_of changed.old.items
        ++ changed_links (links_of links.old)
        (links_at (group_of engine.now) (past engine.now) (cpus_in links.old))) }
{
    for i in 0..links.len() {
        let task = link_by(engine, beside, links[i].cpu);
        if !is_same_task(links[i].task, task) {
            links[i].task = task;
            changed.push(links[i])?;
        }
    }
    Ok(())
}

/// Reads the links again, each in its position, and puts those that are others than before behind what stood in `changed`. It
/// takes the least time where all are of one cluster.
pub(crate) fn read_again(
    engine: &Engine,
    links: &mut [CpuLink],
    changed: &mut Vec<CpuLink>,
) -> Result<(), NoMemory>
    requires { All (λ x. IsProcessorOf (group_of engine.now) x.cpu.0) links.old }
    ensures links { OnOk result (links_of links.new
        ≡ links_at (group_of engine.now) (past engine.now) (cpus_in links.old)) }
    ensures changed { OnOk result (links_of changed.new.items ≡ links_of changed.old.items
        ++ changed_links (links_of links.old)
        (links_at (group_of engine.now) (past engine.now) (cpus_in links.old))) }
{
    match links {
        [first, ..] => {
            let beside = engine.links_beside(first.cpu);
            read_beside(engine, beside, links, changed)
        }
        [] => Ok(()),
    }
}
