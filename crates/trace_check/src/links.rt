//! The links of a group's processors, read from the ranker, and those that a step changes.
ghost use Rattle.std.specs.Prelude.{◌≡◌, ◌<◌, ◌++◌, All, IfOk, OnOk};
ghost use Rattle.rt_task.specs.declared.Step.{Step};
ghost use Rattle.rt_model.specs.Past.{Past};
ghost use Rattle.rt_plays.specs.Homes.{IsProcessorOf};
ghost use Rattle.rank_afresh.specs.Standing.{IsAt, group_of};
ghost use Rattle.trace_lines.specs.Lines.{links_of};
ghost use Rattle.trace_text.specs.Groups.{changed_links, cpu_numbers, cpus_in};
ghost use Rattle.trace_text.specs.TraceText.{links_at};
ghost use Rattle.trace_check.specs.inside.GroupLinks.{CanRead, HaveChanged};

use rank_afresh::Afresh;
use rt_base::{CpuNo, NoMemory};
use std::alloc::Global;
use trace_lines::CpuLink;
use trace_text::is_same_task;

/// Puts the links of these processors in the place of what stood in `links`.
#[tactic(auto, using(std::proofs::Common::append_assoc))]
fn read_links(afresh: &Afresh, cpus: &[CpuNo], links: &mut Vec<CpuLink>) -> Result<(), NoMemory>
    requires { All (λ q. IsProcessorOf (group_of afresh.now) q.0) cpus.now }
    ensures { OnOk result ((past : Past) → IsAt afresh.now past
        → links_of links.new.items
        ≡ links_at (group_of afresh.now) past (cpu_numbers cpus.now)) }
{
    links.clear();
    for cpu in cpus {
        let link = CpuLink {
            cpu: *cpu,
            task: afresh.linked(*cpu),
        };
        links.push(link)?;
    }
    Ok(())
}

/// Reads the links again, each in its position, and puts those that are others than before behind what stood in `changed`.
#[tactic(auto, using(std::proofs::Common::append_assoc))]
fn read_again(
    afresh: &Afresh,
    links: &mut [CpuLink],
    changed: &mut Vec<CpuLink>,
) -> Result<(), NoMemory>
    requires { All (λ x. IsProcessorOf (group_of afresh.now) x.cpu.0) links.old }
    ensures links { OnOk result ((past : Past) → IsAt afresh.now past
        → links_of links.new ≡ links_at (group_of afresh.now) past (cpus_in links.old)) }
    ensures changed { OnOk result ((past : Past) → IsAt afresh.now past
        → links_of changed.new.items ≡ links_of changed.old.items
        ++ changed_links (links_of links.old)
        (links_at (group_of afresh.now) past (cpus_in links.old))) }
{
    for i in 0..links.len() {
        let task = afresh.linked(links[i].cpu);
        if !is_same_task(links[i].task, task) {
            links[i].task = task;
            changed.push(links[i])?;
        }
    }
    Ok(())
}

/// The processors of a group, their links as they were read last, and those that the last step changed.
#[derive(Drop)]
pub(crate) struct GroupLinks {
    cpus: Vec<CpuNo>,
    links: Vec<CpuLink>,
    changed: Vec<CpuLink>,
}

impl GroupLinks {
    /// The links of these processors now.
    pub(crate) fn open(
        alloc: Global,
        afresh: &Afresh,
        cpus: Vec<CpuNo>,
    ) -> Result<GroupLinks, NoMemory>
        requires { All (λ q. IsProcessorOf (group_of afresh.now) q.0) cpus.items }
        ensures cpus { IfOk result (λ l. l.cpus.items ≡ cpus.items) }
        ensures links { IfOk result (λ l. (past : Past) → IsAt afresh.now past
            → links_of l.links.items
            ≡ links_at (group_of afresh.now) past (cpu_numbers cpus.items)) }
    {
        let mut links = Vec::new(alloc);
        read_links(afresh, cpus.as_slice(), &mut links)?;
        Ok(GroupLinks {
            cpus,
            links,
            changed: Vec::new(alloc),
        })
    }

    /// The processors.
    pub(crate) fn cpus(&self) -> &[CpuNo]
        ensures { result.now ≡ self.now.cpus.items }
    {
        self.cpus.as_slice()
    }

    /// Their links.
    pub(crate) fn links(&self) -> &[CpuLink]
        ensures { result.now ≡ self.now.links.items }
    {
        self.links.as_slice()
    }

    /// The links that the last step changed.
    pub(crate) fn changed(&self) -> &[CpuLink]
        ensures { result.now ≡ self.now.changed.items }
    {
        self.changed.as_slice()
    }

    /// Reads the links after a step. Where that placed none, they are as before.
    pub(crate) fn update(&mut self, afresh: &Afresh) -> Result<(), NoMemory>
        requires { (past : Past) × (step : Step) × CanRead past step afresh.now self.old }
        ensures { OnOk result ((past : Past) (step : Step)
            → CanRead past step afresh.now self.old
            → HaveChanged (group_of afresh.now) past step self.new) }
    {
        self.changed.clear();
        if !afresh.has_placed() {
            return Ok(());
        }
        read_again(afresh, self.links.as_mut_slice(), &mut self.changed)
    }
}
