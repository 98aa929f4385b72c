//! The groups of a valid trace, each with the history that its text says, and their engines.
#![tactic(auto)]

ghost use Rattle.std.specs.Prelude.{◌≡◌, List, All, IfOk};
ghost use Rattle.rt_rules.specs.declared.history.Entry.{Entry};
ghost use Rattle.rt_plays.specs.Groups.{GroupHistory};
ghost use Rattle.trace_read.specs.Reads.{IsHeadOf};
ghost use Rattle.trace_text.specs.Groups.{AreGroupsOf, histories};
ghost use Rattle.trace_upgrade.specs.Said.{TellsPlays};

mod groups;
mod replay;

use group_engine::KeepingEngine;
use groups::groups_said;
use replay::engines_again;
use rt_base::NoMemory;
use std::alloc::Global;
use trace_read::{Known, TraceHead};
use trace_text::PlayedGroup;

/// The groups of the text of plays whose head was read, with count lines behind it or without, by rising number: each with the
/// entries that the text says of it. No step is taken again, and of an entry's line no more is read than the entry.
pub fn groups_in(
    alloc: Global,
    head: &TraceHead,
    bytes: &[u8],
) -> Result<Vec<PlayedGroup>, NoMemory>
    requires read { IsHeadOf bytes.now head.now }
    requires says { (hs : List (List Entry)) × TellsPlays bytes.now head.now hs }
    ensures groups { IfOk result (λ v. AreGroupsOf head.now.setup v.items) }
    ensures histories { IfOk result (λ v.
        (hs : List (List Entry)) → TellsPlays bytes.now head.now hs → histories v.items ≡ hs) }
    ensures full { IfOk result (λ v. All (λ (h : GroupHistory). h.spare ≡ 0) v.items) }
{
    let k = Known::of(alloc, head.version, &head.setup)?;
    groups_said(alloc, &k, &head.setup, &bytes[head.length..])
}

/// Their engines: each has taken the steps of its group again, and has no room for more.
pub fn engines_in(
    alloc: Global,
    head: &TraceHead,
    bytes: &[u8],
) -> Result<Vec<KeepingEngine>, NoMemory>
    requires read { IsHeadOf bytes.now head.now }
    requires says { (hs : List (List Entry)) × TellsPlays bytes.now head.now hs }
    ensures groups { IfOk result (λ v. AreGroupsOf head.now.setup v.items) }
    ensures histories { IfOk result (λ v.
        (hs : List (List Entry)) → TellsPlays bytes.now head.now hs → histories v.items ≡ hs) }
    ensures full { IfOk result (λ v. All (λ (h : GroupHistory). h.spare ≡ 0) v.items) }
{
    let groups = groups_in(alloc, head, bytes)?;
    engines_again(alloc, groups.as_slice())
}
