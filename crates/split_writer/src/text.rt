//! The whole text.
ghost use Rattle.std.specs.Prelude.{◌≡◌, ◌∷◌, [], ◌++◌, true, IfOk, OnOk, codes};
ghost use Rattle.split_rules.specs.PartHistories.{links_from};
ghost use Rattle.rt_plays.specs.Room.{processor_count};
ghost use Rattle.rt_task.specs.Validity.{IsValid};
ghost use Rattle.set_canonical.specs.Canonical.{canonical};
ghost use Rattle.split_rules.specs.Partitions.{part_group};
ghost use Rattle.split_set.specs.SplitSets.{is_split_set};
ghost use Rattle.split_text.specs.SplitText.{known, part_lines, parts_from, split_text};
ghost use Rattle.split_writer.specs.PartPlays.{ArePartPlays, IsPartPlay, IsPartition, lists};
ghost use Rattle.split_writer.specs.inside.Texts.{part_block, texts};

use crate::links::links_of;
use crate::parts::{put_entries, put_opening};
use crate::sems::put_sems;
use rt_base::{CpuNo, NoMemory};
use rt_task::{Parts, Setup};
use set_canonical::canonical_of_parts;
use split_rules::{SemEntry, SplitEntry};
use std::alloc::Global;
use trace_lines::{Format, Version};

/// The lines of a processor's partition.
fn put_part(
    alloc: Global,
    out: &mut Vec<u8>,
    parts: &Parts,
    cpu: CpuNo,
    entries: &[SplitEntry],
) -> Result<(), NoMemory>
    requires partition { IsPartition parts.now cpu.0 }
    requires play { IsPartPlay parts.now cpu.0 entries.now }
    ensures { OnOk result (out.new.items
        ≡ out.old.items ++ texts (part_block parts.now cpu.0 entries.now)) }
{
    let format = Format {
        version: Version::Two,
        parts,
    };
    let links = links_of(alloc, parts, cpu, entries)?;
    put_opening(out, &format, cpu, links[0])?;
    put_entries(out, &format, links.as_slice(), entries)?;
    Ok(())
}

/// The lines of all partitions, by rising number of their processors.
fn put_parts(
    alloc: Global,
    out: &mut Vec<u8>,
    parts: &Parts,
    histories: &[Vec<SplitEntry>],
) -> Result<(), NoMemory>
    requires valid { IsValid parts.now }
    requires split { is_split_set parts.now ≡ true }
    requires plays { ArePartPlays parts.now (lists histories.now) }
    ensures { OnOk result (out.new.items
        ≡ out.old.items ++ texts (parts_from parts.now 0 (lists histories.now))) }
{
    for (i, entries) in histories.iter().enumerate() {
        put_part(alloc, out, parts, CpuNo(i as u32), entries.as_slice())?;
    }
    Ok(())
}

/// The first two lines: that of the format, and that of the canonical set.
fn head_of(alloc: Global, parts: &Parts) -> Result<Vec<u8>, NoMemory>
    ensures { IfOk result (λ v. v.items
        ≡ codes "rtsched split 1\nset " ++ (canonical parts.now ++ 10 ∷ [])) }
{
    let set = canonical_of_parts(alloc, parts)?;
    let mut out = b"rtsched split 1\nset ".to_vec(alloc)?;
    out.extend_from_slice(set.as_slice())?;
    out.extend_from_slice(b"\n")?;
    Ok(out)
}

/// The text of a split run of a set: of the histories of its semaphores, by rising number from 1, and of those of its
/// partitions, by rising number of their processors from 0. Their links are found by playing these again.
///
/// It takes memory for the text, and for one partition at a time.
pub fn split_text_of(
    alloc: Global,
    setup: &Setup,
    sems: &[Vec<SemEntry>],
    partitions: &[Vec<SplitEntry>],
) -> Result<Vec<u8>, NoMemory>
    requires split { is_split_set setup.now ≡ true }
    requires plays { ArePartPlays setup.now (lists partitions.now) }
    ensures { IfOk result (λ v.
        v.items ≡ split_text setup.now (lists sems.now) (lists partitions.now)) }
{
    let parts = setup.parts();
    let mut out = head_of(alloc, parts)?;
    let format = Format {
        version: Version::Two,
        parts,
    };
    put_sems(&mut out, &format, sems)?;
    put_parts(alloc, &mut out, parts, partitions)?;
    out.extend_from_slice(b"end\n")?;
    Ok(out)
}
