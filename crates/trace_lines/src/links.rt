//! Processors and their links.
ghost use Rattle.std.specs.Prelude.{◌≡◌, ◌++◌, ◌∷◌, map, OnOk};
ghost use Rattle.trace_lines.specs.Words.{further};
ghost use Rattle.trace_lines.specs.Lines.{link_of, links_of};
ghost use Rattle.trace_lines.specs.Known.{known_in};
ghost use Rattle.trace_lines.specs.Grammar.{link_word};

use crate::Format;
use crate::put::put_next_number;
use crate::tasks::put_target;
use rt_base::{CpuNo, TaskNo};
use std::alloc::AllocError;

/// A processor and the task that it is linked to, if it is linked to one.
#[derive(Clone, Copy, PartialEq, Eq)]
pub struct CpuLink {
    pub cpu: CpuNo,
    pub task: Option<TaskNo>,
}

#[tactic(auto, using(std::proofs::Common::append_assoc))]
#[inline(always)]
fn put_link(out: &mut Vec<u8>, format: &Format, link: CpuLink) -> Result<(), AllocError>
    ensures { OnOk result (out.new.items
        ≡ out.old.items ++ 32 ∷ link_word (known_in format.now) (link_of link)) }
{
    put_next_number(out, u64::from(link.cpu.0))?;
    out.push(b':')?;
    put_target(out, format, link.task)
}

/// The links, each after a space.
#[tactic(auto, using(std::proofs::Common::append_assoc))]
#[inline(always)]
pub fn put_links(out: &mut Vec<u8>, format: &Format, links: &[CpuLink]) -> Result<(), AllocError>
    ensures { OnOk result (out.new.items
        ≡ out.old.items
        ++ further 32 (map (link_word (known_in format.now)) (links_of links.now))) }
{
    for link in links {
        put_link(out, format, *link)?;
    }
    Ok(())
}
