//! The text of trace events.
ghost use Rattle.std.specs.Prelude.{◌≡◌, ◌==◌, [], ◌∷◌, ◌++◌, if◌then◌else◌, ℕ, List, map, IfOk, OnOk};
ghost use Rattle.event_texts.specs.EventText.{event_lines};
ghost use Rattle.event_texts.specs.Records.{Piece};
ghost use Rattle.event_lines.specs.inside.Commas.{with_commas};
ghost use Rattle.event_lines.specs.Shown.{group_tracks_shown};
ghost use Rattle.event_lines.specs.TrackEvents.{tracks_text};
ghost use Rattle.event_lines.specs.WholeText.{whole_text};

use crate::groups::put_groups;
use crate::put::put;
use crate::text_pieces::Pieces;
use crate::tracks::GroupTracks;
use rt_base::NoMemory;
use rt_task::Parts;
use std::alloc::{AllocError, Global};

const HEAD: &[u8] = b"{\"displayTimeUnit\":\"ms\",\"traceEvents\":[\n";

/// Takes off the last byte, if it is a comma.
fn drop_comma(text: &mut Pieces) -> Result<(), AllocError>
    ensures { OnOk result ((front : List ℕ) (last : ℕ) → text.old ≡ front ++ last ∷ []
        → text.new ≡ (if last == 44 then front else text.old)) }
{
    match text.pop() {
        None | Some(b',') => Ok(()),
        Some(byte) => put(&mut text.last, &[byte]),
    }
}

/// Where events stand behind the head, the last loses its comma.
fn drop_last_comma(text: &mut Pieces) -> Result<(), AllocError>
    ensures { OnOk result ((events : List Piece)
        → text.old ≡ HEAD.now ++ with_commas events
        → text.new ≡ HEAD.now ++ event_lines events) }
{
    let _line_feed = text.pop();
    drop_comma(text)?;
    put(&mut text.last, b"\n")
}

/// The text of the trace events that the groups of a set tell, as JSON: of each group the names of its processes and threads, and
/// what its tasks, processors and reservations do. A number that stands for nothing in the set has the empty name. Memory is taken
/// for the text, and for what the events of one thread begin with and the number of its job.
///
/// The text comes in pieces: the first in the memory of `room`, whose bytes are let go, and then pieces of some 64 KiB. What a task, a
/// processor or a reservation does is let go once its text is made.
pub fn event_text(
    alloc: Global,
    parts: &Parts,
    groups: Vec<GroupTracks>,
    room: Vec<u8>,
) -> Result<Vec<Vec<u8>>, NoMemory>
    ensures { IfOk result (λ v. whole_text v.items
        ≡ tracks_text parts.now (map group_tracks_shown groups.items)) }
{
    let mut text = Pieces::within(alloc, room);
    put(&mut text.last, HEAD)?;
    put_groups(alloc, &mut text, parts, groups)?;
    drop_last_comma(&mut text)?;
    put(&mut text.last, b"]}\n")?;
    Ok(text.into_pieces()?)
}
