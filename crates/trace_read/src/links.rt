//! Links and totals.
ghost use Rattle.std.specs.Prelude.{◌≡◌, option_map, IfOk, Some, None};
ghost use Rattle.trace_lines.specs.Lines.{link_of, links_of};
ghost use Rattle.trace_read.specs.Reading as reading;

use crate::known::Known;
use crate::tasks::target_in;
use crate::words::{cut, is_at_end, number_in, small_in, word_at};
use crate::{LinkList, Totals};
use rt_base::CpuNo;
use std::alloc::{AllocError, Global};
use trace_lines::CpuLink;

/// A processor and the task that it is linked to.
fn link_in(k: &Known, word: &[u8]) -> Option<CpuLink>
    ensures { option_map link_of result ≡ reading.link_in k.now word.now }
{
    let (cpu, task) = cut(word, b':');
    let cpu = small_in(cpu)?;
    let task = target_in(k, task)?;
    Some(CpuLink {
        cpu: CpuNo(cpu),
        task,
    })
}

/// A link for each word, or none where one says no link.
pub(crate) fn links_in(
    alloc: Global,
    k: &Known,
    text: &[u8],
) -> Result<Option<LinkList>, AllocError>
    ensures { IfOk result (λ o. option_map links_of o
        ≡ reading.links_in k.now (reading.front text.now)) }
{
    let mut links = Vec::new(alloc);
    let mut rest = text;
    while !is_at_end(rest) {
        let (word, more) = word_at(rest);
        let Some(link) = link_in(k, word) else {
            return Ok(None);
        };
        links.push(link)?;
        rest = more;
    }
    Ok(Some(LinkList::from_vec(links)))
}

/// A total for each word, or none where one is no number.
pub(crate) fn totals_in(alloc: Global, text: &[u8]) -> Result<Option<Totals>, AllocError>
    ensures { IfOk result (λ o. o ≡ reading.totals_in (reading.front text.now)) }
{
    let mut totals = Vec::new(alloc);
    let mut rest = text;
    while !is_at_end(rest) {
        let (word, more) = word_at(rest);
        let Some(total) = number_in(word) else {
            return Ok(None);
        };
        totals.push(total)?;
        rest = more;
    }
    Ok(Some(Totals::from_vec(totals)))
}
