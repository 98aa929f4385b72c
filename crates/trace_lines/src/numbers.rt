//! The numbers of entry lines, with the digits of the line before at hand.
ghost use Rattle.std.specs.Prelude.{◌≡◌, ◌++◌, OnOk};
ghost use Rattle.trace_lines.specs.Lines.{links_of, entry_line};
ghost use Rattle.trace_lines.specs.Known.{known_in};
ghost use Rattle.trace_lines.specs.Grammar.{line_text};

use crate::lines::append_after_tick;
use crate::{CpuLink, Format};
use decimals::Digits;
use rt_base::NoMemory;
use rt_rules::Entry;
use std::alloc::{AllocError, Global};

/// The numbers with which entry lines begin: what was written for the line before is at hand for
/// the next one, whose number is one more, and whose tick is mostly the same.
#[derive(Drop)]
pub struct LineNumbers {
    number: Digits,
    tick: Digits,
}

impl LineNumbers {
    /// Numbers of which no line was written.
    pub fn new(alloc: Global) -> Result<LineNumbers, NoMemory> {
        Ok(LineNumbers {
            number: Digits::zero(alloc)?,
            tick: Digits::zero(alloc)?,
        })
    }

    #[tactic(auto, using(crate::proofs::LineTexts::entry_text, std::proofs::Common::append_assoc))]
    #[inline(always)]
    fn append_entry_line(
        &mut self,
        out: &mut Vec<u8>,
        format: &Format,
        number: u32,
        entry: &Entry,
        links: &[CpuLink],
    ) -> Result<(), AllocError>
        ensures { let text = line_text (known_in format.now) in OnOk result (out.new.items
            ≡ out.old.items ++ text (entry_line number entry.now (links_of links.now))) }
    {
        self.number.set(u64::from(number));
        self.tick.set(entry.step.tick.0);
        self.number.put(out)?;
        out.push(b' ')?;
        self.tick.put(out)?;
        append_after_tick(out, format, entry, links)
    }

    /// The line of an entry, as `put_entry_line` writes it.
    #[inline(always)]
    pub fn put_entry_line(
        &mut self,
        out: &mut Vec<u8>,
        format: &Format,
        number: u32,
        entry: &Entry,
        links: &[CpuLink],
    ) -> Result<(), NoMemory>
        ensures { let text = line_text (known_in format.now) in OnOk result (out.new.items
            ≡ out.old.items ++ text (entry_line number entry.now (links_of links.now))) }
    {
        Ok(self.append_entry_line(out, format, number, entry, links)?)
    }
}
