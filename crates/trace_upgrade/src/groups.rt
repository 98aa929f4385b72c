//! The groups that the text of plays says, behind its first two lines.
ghost use Rattle.std.specs.Prelude.{◌≡◌, ◌+◌, ℕ, List, [], ◌∷◌, IfOk, false, length, map};
ghost use Rattle.rt_rules.specs.declared.history.Entry.{Entry};
ghost use Rattle.rt_model.specs.Blocking.{Asked};
ghost use Rattle.rt_model.specs.Group.{Group};
ghost use Rattle.rt_model.specs.Past.{Past};
ghost use Rattle.rt_plays.specs.Plays.{group_count};
ghost use Rattle.trace_lines.specs.Known as known;
ghost use Rattle.trace_text.specs.TraceText.{block_of, entry_lines};
ghost use Rattle.trace_read.specs.Movers as letters;
ghost use Rattle.trace_read.specs.Reading.{begins_with_digit};
ghost use Rattle.trace_read.specs.Seen.{BeginsLines, Tells};
ghost use Rattle.trace_laws.specs.PlayedGroups.{full_group, groups_from};
ghost use Rattle.trace_upgrade.specs.Said.{TellsGroups};

use rt_base::{GroupNo, NoMemory};
use rt_rules::Entry;
use rt_task::Setup;
use std::alloc::Global;
use trace_read::{Known, behind_line, entry_first};
use trace_text::{PlayedGroup, count_groups};

/// The entries whose lines a text begins with, and what stands behind these lines.
fn entries_said<'a>(
    alloc: Global,
    k: &Known,
    text: &'a [u8],
) -> Result<(Vec<Entry>, &'a [u8]), NoMemory>
    requires { Tells k.now }
    ensures { IfOk result (λ x. (g : Group) (es : List Entry) (more : List ℕ)
        → BeginsLines k.now text.now (entry_lines g 0 [] es) more
        → begins_with_digit more ≡ false → (x.0.items ≡ es) × (x.1.now ≡ more)) }
{
    let mut entries = Vec::new(alloc);
    let mut left = text;
    while let Some((entry, rest)) = entry_first(k, left) {
        entries.push(entry)?;
        left = rest;
    }
    Ok((entries, left))
}

/// Whether a text begins with a letter.
fn begins_with(text: &[u8], letter: u8) -> bool
    ensures { result ≡ letters.begins_with letter text.now }
{
    match text {
        [first, ..] => *first == letter,
        [] => false,
    }
}

/// What stands behind the block lines that a text begins with.
fn behind_blocks(text: &[u8]) -> &[u8]
    ensures { (k : known.Known) (g : Group) (past : Past) (asked : List Asked) (more : List ℕ)
        → Tells k → BeginsLines k text.now (map (block_of g past) asked) more
        → letters.begins_with 98 more ≡ false → result.now ≡ more }
{
    let mut left = text;
    while begins_with(left, b'b') {
        left = behind_line(left);
    }
    left
}

/// The group whose lines a text begins with, and what stands behind these lines.
fn group_said<'a>(
    alloc: Global,
    k: &Known,
    setup: &Setup,
    group: GroupNo,
    text: &'a [u8],
) -> Result<(PlayedGroup, &'a [u8]), NoMemory>
    requires known { Tells k.now }
    requires says { (es : List Entry) × (hs : List (List Entry))
        × TellsGroups k.now setup.now group.0 (es ∷ hs) text.now }
    ensures { IfOk result (λ x. (es : List Entry) (hs : List (List Entry))
        → TellsGroups k.now setup.now group.0 (es ∷ hs) text.now
        → (x.0 ≡ full_group setup.now group.0 es)
        × TellsGroups k.now setup.now (group.0 + 1) hs x.1.now) }
{
    let (entries, rest) = entries_said(alloc, k, behind_line(text))?;
    let group = PlayedGroup::new(setup, group, entries)?;
    Ok((group, behind_blocks(rest)))
}

/// The groups of a setup, each with the entries that the text says of it.
pub(crate) fn groups_said(
    alloc: Global,
    k: &Known,
    setup: &Setup,
    text: &[u8],
) -> Result<Vec<PlayedGroup>, NoMemory>
    requires known { Tells k.now }
    requires says { (hs : List (List Entry)) × TellsGroups k.now setup.now 0 hs text.now
        × (length hs ≡ group_count setup.now) }
    ensures { IfOk result (λ v. (hs : List (List Entry))
        → TellsGroups k.now setup.now 0 hs text.now → length hs ≡ group_count setup.now
        → v.items ≡ groups_from setup.now 0 hs) }
{
    let mut groups = Vec::new(alloc);
    let mut left = text;
    for number in 0..count_groups(setup) {
        let (group, rest) = group_said(alloc, k, setup, GroupNo(number), left)?;
        if groups.push(group).is_err() {
            return Err(NoMemory);
        }
        left = rest;
    }
    Ok(groups)
}
