//! The lines of a group.
ghost use Rattle.std.specs.Prelude.{◌≡◌, ◌+◌, ◌^◌, ◌<◌, ◌≤◌, List, [], IfOk, drop, length, true};
ghost use Rattle.rt_plays.specs.Groups.{IsGroupOf};
ghost use Rattle.rt_plays.specs.Plays.{group_with};
ghost use Rattle.trace_lines.specs.Known.{known_of};
ghost use Rattle.trace_lines.specs.Lines.{group_line, links_of};
ghost use Rattle.trace_tools.specs.BusCounters.{counters};
ghost use Rattle.trace_tools.specs.Counters.{Counter};
ghost use Rattle.trace_read.specs.Reading.{begins_with_digit};
ghost use Rattle.trace_course.specs.Followed.{GroupEntries};
ghost use Rattle.trace_check.specs.declared.progress.Progress as progress;
ghost use Rattle.trace_check.specs.inside.Following.{IsFollowing, IsFollowingWith};
ghost use Rattle.trace_check.specs.Keeping.{Between};
ghost use Rattle.trace_check.specs.inside.Progress.{AreFollowed, AreKept, HasStood, IsEndedAt};
ghost use Rattle.trace_check.specs.inside.Progress.{IsFollowedBy, IsFollowedTo, IsRight};

use crate::follow::Follow;
use crate::keeper::Keeper;
use crate::lines::{begins_with, make_group_line};
use crate::progress::{Entries, Followed, Progress};
use crate::requests::stood_first;
use rt_base::{GroupNo, NoMemory};
use rt_task::Setup;
use std::alloc::Global;
use trace_lines::Version;
use trace_tools::{Bus, TraceTool};
use view_replay::Player;

/// Whether the text begins with the line of the group, with its links at opening, which is made in `line`.
fn begins<P: Player>(
    version: Version,
    setup: &Setup,
    follow: &Follow<P>,
    number: GroupNo,
    text: &[u8],
    line: &mut Vec<u8>,
) -> Result<bool, NoMemory>
    ensures { let opening = group_line number.0 (links_of follow.now.links.links.items) in
        IfOk result (HasStood (known_of version setup.now) opening text.now line.new.items) }
{
    make_group_line(line, version, setup, number, follow.links())?;
    Ok(begins_with(text, line.as_slice()))
}

/// Whether an entry's line may stand first in the text: it begins with a digit, and no other line does.
fn begins_as_entry(text: &[u8]) -> bool
    ensures { result ≡ begins_with_digit text.now }
{
    match text {
        [first, ..] => first.is_ascii_digit(),
        [] => false,
    }
}

/// What the lines of a group come to where no entry line stands behind so many bytes: all its steps must have been followed,
/// and the lines of its requests stand there.
fn ended_at<P: Player>(
    version: Version,
    setup: &Setup,
    follow: &Follow<P>,
    text: &[u8],
    from: Progress,
    size: usize,
    line: &mut Vec<u8>,
) -> Result<Followed, NoMemory>
    requires follows { (at : GroupEntries) × IsFollowingWith P.at P.spare at setup.now follow.now }
    requires few { from.entries + follow.now.count < 2 ^ 32 }
    requires within { size ≤ length text.now }
    requires positions { from.lines + 1 + follow.now.count ≤ size }
    ensures { IfOk result (λ followed. (at : GroupEntries) → IsFollowingWith P.at P.spare at setup.now follow.now
        → IsEndedAt at (known_of version setup.now) (drop size text.now) from
        follow.now.count size followed) }
{
    let position = from.lines + 1 + follow.count() as usize;
    if !follow.is_over(setup) {
        return Ok(Followed::Wrong(position));
    }
    let requests = follow.requests();
    let stood = stood_first(version, setup, requests, &text[size..], line)?;
    if stood.count < requests.len() {
        return Ok(Followed::Wrong(position + stood.count));
    }
    Ok(Followed::Whole(Progress {
        lines: position + stood.count,
        entries: from.entries + follow.count(),
        length: size + stood.length,
    }))
}

/// Follows the entry lines of a group from where the text has so many bytes. The bus is shown each entry that is right, and
/// the keeper is given it.
fn follow_entries<T: TraceTool, P: Player, K: Keeper<P>>(
    alloc: Global,
    version: Version,
    setup: &Setup,
    group: GroupNo,
    follow: &mut Follow<P>,
    text: &[u8],
    begin: usize,
    line: &mut Vec<u8>,
    bus: &mut Bus<T>,
    keeper: &mut K,
) -> Result<Entries, NoMemory>
    requires { (from : progress.Progress) × (opened : List Counter) × (was : List Counter)
        × IsRight P.at P.spare version setup.now text.now group.0 from begin follow.old
        opened was (counters T.tool bus.old) (K.holds keeper.old setup.now) }
    ensures { IfOk result (λ entries. (from : progress.Progress) (opened was : List Counter)
        → IsRight P.at P.spare version setup.now text.now group.0 from begin follow.old
        opened was (counters T.tool bus.old) (K.holds keeper.old setup.now)
        → AreFollowed P.at P.spare version setup.now text.now group.0 from follow.new
        opened was (counters T.tool bus.new) (K.holds keeper.new setup.now) entries) }
{
    let mut size = begin;
    'entries: while begins_as_entry(&text[size..]) {
        let no = follow.count();
        let Some(entry) = follow.take_line(alloc, version, setup, &text[size..], line)? else {
            return Ok(Entries::WrongAfter(no));
        };
        bus.feed(&follow.shown(group, no, entry));
        keeper.keep(entry)?;
        size += line.as_slice().len();
    }
    Ok(Entries::Right(size))
}

/// Follows the lines of a group that was opened.
fn follow_lines<T: TraceTool, P: Player, K: Keeper<P>>(
    alloc: Global,
    version: Version,
    setup: &Setup,
    group: GroupNo,
    follow: &mut Follow<P>,
    text: &[u8],
    from: Progress,
    line: &mut Vec<u8>,
    bus: &mut Bus<T>,
    keeper: &mut K,
) -> Result<Followed, NoMemory>
    requires group { IsGroupOf setup.now group.0 }
    requires opened { IsFollowing P.at P.spare (group_with setup.now group.0) [] follow.old }
    requires before { (opened : List Counter)
        × AreKept version setup.now text.now group.0 from opened (counters T.tool bus.old)
        (Between (K.holds keeper.old setup.now)) }
    ensures { IfOk result (λ followed. (opened : List Counter)
        → AreKept version setup.now text.now group.0 from opened (counters T.tool bus.old)
        (Between (K.holds keeper.old setup.now))
        → IsFollowedBy P.at version setup.now text.now group.0 opened (counters T.tool bus.new)
        (K.holds keeper.new setup.now) follow.new.player followed) }
{
    if !begins(version, setup, follow, group, &text[from.length..], line)? {
        return Ok(Followed::Wrong(from.lines));
    }
    let begin = from.length + line.as_slice().len();
    let entries = follow_entries(
        alloc, version, setup, group, follow, text, begin, line, bus, keeper,
    )?;
    match entries {
        Entries::Right(size) => ended_at(version, setup, follow, text, from, size, line),
        Entries::WrongAfter(count) => Ok(Followed::Wrong(from.lines + 1 + count as usize)),
    }
}

/// Follows the lines of a group, behind those of the groups before it. The bus is shown each entry that is right, and the
/// keeper is given it, and the group once that is whole.
pub(crate) fn follow_group<T: TraceTool, P: Player, K: Keeper<P>>(
    alloc: Global,
    version: Version,
    setup: &Setup,
    group: GroupNo,
    text: &[u8],
    from: Progress,
    line: &mut Vec<u8>,
    bus: &mut Bus<T>,
    keeper: &mut K,
) -> Result<Followed, NoMemory>
    requires group { IsGroupOf setup.now group.0 }
    requires before { (opened : List Counter)
        × AreKept version setup.now text.now group.0 from opened (counters T.tool bus.old)
        (Between (K.holds keeper.old setup.now)) }
    ensures { IfOk result (λ followed. (opened : List Counter)
        → AreKept version setup.now text.now group.0 from opened (counters T.tool bus.old)
        (Between (K.holds keeper.old setup.now))
        → IsFollowedTo version setup.now text.now group.0 opened (counters T.tool bus.new)
        (K.holds keeper.new setup.now) followed) }
{
    let mut follow = Follow::<P>::open(alloc, setup, group)?;
    let followed = follow_lines(
        alloc,
        version,
        setup,
        group,
        &mut follow,
        text,
        from,
        line,
        bus,
        keeper,
    )?;
    if let Followed::Whole(_) = followed {
        keeper.close(alloc, setup, group, follow.player())?;
    }
    Ok(followed)
}
