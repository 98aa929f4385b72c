//! The text of an entry of a group.
ghost use Rattle.std.specs.Prelude.{◌≡◌, ◌<◌, IfOk, length, option_map};
ghost use Rattle.rt_base.specs.declared.TheConstants.{MOST_STEPS};
ghost use Rattle.rt_model.specs.Histories.{past_of};
ghost use Rattle.rt_model.specs.Steps.{IsStepOf};
ghost use Rattle.rt_plays.specs.Groups.{AreStepsOf, IsGroupOf, group_of};
ghost use Rattle.rt_plays.specs.Plays.{group_with};
ghost use Rattle.trace_text.specs.Groups.{AreGroupsOf, histories};
ghost use Rattle.why_texts.specs.WhyText as texts;

use crate::entries::text_of;
use crate::members::Members;
use crate::noted::take_noting;
use crate::replayed::replayed;
use rt_base::{GroupNo, NoMemory};
use rt_rules::Entry;
use rt_task::Setup;
use std::alloc::Global;
use trace_text::PlayedGroup;

/// The text of an entry with its number, behind the entries before it.
fn entry_text(
    alloc: Global,
    setup: &Setup,
    group: GroupNo,
    before: &[Entry],
    number: u32,
    entry: &Entry,
) -> Result<Vec<u8>, NoMemory>
    requires group { IsGroupOf setup.now group.0 }
    requires few { length before.now < MOST_STEPS }
    requires steps { AreStepsOf (group_with setup.now group.0) before.now }
    requires step { IsStepOf (group_with setup.now group.0) entry.now.step }
    ensures { let g = group_with setup.now group.0 in IfOk result
        (λ v. v.items ≡ texts.entry_text g number entry.now (past_of g before.now)) }
{
    let members = Members::of(alloc, setup, group)?;
    let mut replay = replayed(alloc, setup, group, before)?;
    let noted = take_noting(alloc, &members, &mut replay, entry.step)?;
    text_of(alloc, &members, &replay, number, entry, &noted)
}

/// The text of the entry of a number of a group, if there is one.
fn explained(
    alloc: Global,
    setup: &Setup,
    number: GroupNo,
    group: &PlayedGroup,
    entry: u64,
) -> Result<Option<Vec<u8>>, NoMemory>
    requires there { IsGroupOf setup.now number.0 }
    requires setup { group.now.setup ≡ setup.now }
    requires number { group.now.group ≡ number.0 }
    ensures { let h = group.now in IfOk result (λ o. option_map (λ v. v.items) o
        ≡ texts.explained (group_of h) entry h.entries) }
{
    let entries = group.entries();
    let count = entries.len() as u64;
    if entry >= count {
        return Ok(None);
    }
    let place = entry as usize;
    let before = &entries[..place];
    let found = entries[place];
    let text = entry_text(alloc, setup, number, before, entry as u32, &found)?;
    Ok(Some(text))
}

/// The text that explains an entry of a group of a setup, both by number from 0, with the histories of the groups, one for each
/// by rising number; none exactly where there is no such group or entry. The entries before it are played again; memory is taken for
/// the text, and for that group.
pub fn why_text(
    alloc: Global,
    group: u64,
    entry: u64,
    setup: &Setup,
    groups: &[PlayedGroup],
) -> Result<Option<Vec<u8>>, NoMemory>
    requires { AreGroupsOf setup.now groups.now }
    ensures { IfOk result (λ o. option_map (λ v. v.items) o
        ≡ texts.why_text setup.now (histories groups.now) group entry) }
{
    // A proof knows that a setup is valid once its parts are read.
    let _parts = setup.parts();
    let count = groups.len() as u64;
    if group >= count {
        return Ok(None);
    }
    let found = &groups[group as usize];
    explained(alloc, setup, GroupNo(group as u32), found, entry)
}
