//! The links of a group's processors.
ghost use Rattle.std.specs.Prelude.{◌≡◌, ◌++◌, All, IfOk, OnOk, codes, flat_map, map, ◌∷◌, []};
ghost use Rattle.rt_model.specs.Group.{Group, group_processors};
ghost use Rattle.rt_model.specs.Past.{Past};
ghost use Rattle.rt_plays.specs.Homes.{IsProcessorOf};
ghost use Rattle.rank_afresh.specs.Standing as ranker;
ghost use Rattle.trace_lines.specs.Lines.{links_of};
ghost use Rattle.trace_text.specs.Groups.{cpu_numbers};
ghost use Rattle.trace_text.specs.TraceText.{links_at};
ghost use Rattle.why_lines.specs.GroupSets.{group_in};
ghost use Rattle.view_why.specs.inside.LinkLines.{lines_of};

use rank_afresh::Afresh;
use rt_base::{CpuNo, NoMemory};
use std::alloc::Global;
use trace_lines::CpuLink;
use why_lines::{GroupSet, put_link_line};

/// The links of these processors.
#[tactic(auto, using(std::proofs::Common::append_assoc))]
pub(crate) fn read_links(
    alloc: Global,
    afresh: &Afresh,
    cpus: &[CpuNo],
) -> Result<Vec<CpuLink>, NoMemory>
    requires { All (λ q. IsProcessorOf (ranker.group_of afresh.now) q.0) cpus.now }
    ensures { IfOk result (λ v. (past : Past) → ranker.IsAt afresh.now past → links_of v.items
        ≡ links_at (ranker.group_of afresh.now) past (cpu_numbers cpus.now)) }
{
    let mut links = Vec::new(alloc);
    for cpu in cpus {
        let link = CpuLink {
            cpu: *cpu,
            task: afresh.linked(*cpu),
        };
        links.push(link)?;
    }
    Ok(links)
}

/// The lines of links.
#[tactic(auto, using(std::proofs::Common::append_assoc))]
pub(crate) fn put_links(
    out: &mut Vec<u8>,
    set: &GroupSet,
    links: &[CpuLink],
) -> Result<(), NoMemory>
    ensures { OnOk result (out.new.items
        ≡ out.old.items ++ lines_of (group_in set.now) (links_of links.now)) }
{
    for link in links {
        put_link_line(out, set, link.cpu, link.task)?;
    }
    Ok(())
}
