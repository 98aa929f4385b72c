//! The top call: a view of a trace.
ghost use Rattle.std.specs.Prelude.{◌≡◌, ◌≢◌, map, option_map, Err, IfOk, List, Some};
ghost use Rattle.rt_rules.specs.declared.history.Entry.{Entry};
ghost use Rattle.chart_texts.specs.Charts.{pasts_from};
ghost use Rattle.event_lines.specs.Shown.{group_tracks_shown};
ghost use Rattle.event_lines.specs.TrackLaws.{tracks_of_groups};
ghost use Rattle.trace_tools.specs.BusCounters.{counters};
ghost use Rattle.trace_tools.specs.Counters.{counter_of};
ghost use Rattle.trace_tools.specs.Tools.{Tool};
ghost use Rattle.rt_task.specs.Validity.{IsValid};
ghost use Rattle.trace_read.specs.Reads.{IsHeadOf};
ghost use Rattle.trace_text.specs.Groups.{AreGroupsOf, histories};
ghost use Rattle.set_input.specs.Ends.{reading, writing};
ghost use Rattle.view_command.specs.Ends.{TellsFaults};
ghost use Rattle.view_command.specs.Texts.{view_text};
ghost use Rattle.view_command.specs.inside.Windows.{Fits};
ghost use Rattle.view_command.specs.ViewAnswers.{ViewAnswers};
ghost use Rattle.view_command.specs.inside.Viewing.{IsTextOf, IsViewed, comes};
ghost use Rattle.view_command.specs.Words as commands;

use crate::ending::ViewEnd;
use crate::pieces::put_pieces;
use crate::views::View;
use crate::words::view_of;
use event_lines::{GroupTracks, event_text};
use rt_base::NoMemory;
use rt_fault::{Sink, Source, Status};
use rt_task::Setup;
use sim_commands::read_trace_input;
use std::alloc::Global;
use trace_check::{Verdict, check_groups};
use trace_read::TraceHead;
use trace_text::PlayedGroup;
use trace_tools::{Bus, TraceTool};
use view_charts::chart_text;
use view_events::check_tracks;
use view_tables::table_text;
use view_why::why_text;

/// The C library unmaps a long block that is freed, and the next ones are of pages that are touched anew, until it has freed a
/// longer one: from then on it keeps what is freed, as the trace. This many bytes are taken for that, freed, and never touched.
const KEPT_WHERE_FREED: usize = 31 << 20;

/// The text of a view of a setup and the histories of its groups, but that of its trace events; none where there is no such group
/// or entry.
fn whole_text_of(
    alloc: Global,
    view: View,
    setup: &Setup,
    groups: &[PlayedGroup],
) -> Result<Option<Vec<u8>>, NoMemory>
    requires groups { AreGroupsOf setup.now groups.now }
    requires fits { Fits view }
    requires other { view ≢ View.Events }
    ensures { IfOk result (λ o. option_map (λ v. v.items) o
        ≡ view_text view setup.now (histories groups.now)) }
{
    let text = match view {
        View::Table(table) => table_text(alloc, table, setup, groups)?,
        View::Entry(group, entry) => return why_text(alloc, group, entry, setup, groups),
        View::Chart(form, axis, window) => { chart_text(alloc, form, axis, window, setup, groups)? }
        View::Events => unreachable!(),
    };
    Ok(Some(text))
}

/// The same, as one piece.
fn text_of(
    alloc: Global,
    view: View,
    setup: &Setup,
    groups: &[PlayedGroup],
) -> Result<Option<Vec<Vec<u8>>>, NoMemory>
    requires groups { AreGroupsOf setup.now groups.now }
    requires fits { Fits view }
    requires other { view ≢ View.Events }
    ensures { IfOk result (IsTextOf view setup.now (histories groups.now)) }
{
    match whole_text_of(alloc, view, setup, groups)? {
        Some(text) => Ok(Some(vec![in alloc; text]?)),
        None => Ok(None),
    }
}

/// What comes of a trace whose plays have this text of the view, if any.
fn there(text: Result<Option<Vec<Vec<u8>>>, NoMemory>) -> Result<Vec<Vec<u8>>, ViewEnd>
    ensures { result ≡ comes text }
{
    match text {
        Ok(Some(text)) => Ok(text),
        Ok(None) => Err(ViewEnd::NoSuchEntry),
        Err(_) => Err(ViewEnd::Ended(Status::NoMemory)),
    }
}

/// That this line of a trace is the first that is wrong.
fn wrong(line: u32) -> Result<Vec<Vec<u8>>, ViewEnd>
    ensures { result ≡ Err (ViewEnd.Ended (Status.Invalid line)) }
{
    Err(ViewEnd::Ended(Status::Invalid(line)))
}

/// The text of a view, but that of its trace events, of the trace whose head was read of these bytes, where it is valid: its
/// histories are played again.
fn replayed<T: TraceTool>(
    alloc: Global,
    view: View,
    bytes: Vec<u8>,
    head: &TraceHead,
    bus: &mut Bus<T>,
) -> Result<Vec<Vec<u8>>, ViewEnd>
    requires head { IsHeadOf bytes.items head.now }
    requires valid { IsValid head.now.setup }
    requires fits { Fits view }
    requires other { view ≢ View.Events }
    requires opened { (tools : List Tool) × (counters T.tool bus.old ≡ map counter_of tools) }
    ensures { (tools : List Tool) → counters T.tool bus.old ≡ map counter_of tools
        → IsViewed tools head.now.version head.now.setup bytes.items view result }
{
    match check_groups(alloc, bytes.as_slice(), head, bus) {
        Ok((Verdict::Valid(_), groups)) => {
            // The text comes to lie where the trace lay.
            drop(bytes);
            there(text_of(alloc, view, &head.setup, groups.as_slice()))
        }
        Ok((Verdict::Invalid(line), _)) => wrong(line),
        Err(_) => Err(ViewEnd::Ended(Status::NoMemory)),
    }
}

/// The text of the trace events that these tracks tell. It begins in the memory of `room`.
fn text_of_tracks(
    alloc: Global,
    setup: &Setup,
    tracks: Vec<GroupTracks>,
    room: Vec<u8>,
) -> Result<Option<Vec<Vec<u8>>>, NoMemory>
    ensures { IfOk result (λ o. (hs : List (List Entry))
        → map group_tracks_shown tracks.items ≡ tracks_of_groups (pasts_from setup.now 0 hs)
        → IsTextOf View.Events setup.now hs o) }
{
    let text = event_text(alloc, setup.parts(), tracks, room)?;
    Ok(Some(text))
}

/// The text of the trace events of the trace whose head was read of these bytes, where it is valid: they are recorded while it is
/// checked.
fn recorded<T: TraceTool>(
    alloc: Global,
    bytes: Vec<u8>,
    head: &TraceHead,
    bus: &mut Bus<T>,
) -> Result<Vec<Vec<u8>>, ViewEnd>
    requires head { IsHeadOf bytes.items head.now }
    requires valid { IsValid head.now.setup }
    ensures { (tools : List Tool) → counters T.tool bus.old ≡ map counter_of tools
        → IsViewed tools head.now.version head.now.setup bytes.items View.Events result }
{
    match check_tracks(alloc, bytes.as_slice(), head, bus) {
        Ok((Verdict::Valid(_), tracks)) => {
            // The text comes to lie where the trace lay.
            there(text_of_tracks(alloc, &head.setup, tracks, bytes))
        }
        Ok((Verdict::Invalid(line), _)) => wrong(line),
        Err(_) => Err(ViewEnd::Ended(Status::NoMemory)),
    }
}

/// The text of a view of the trace whose head was read of these bytes, where it is valid.
fn text_in<T: TraceTool>(
    alloc: Global,
    view: View,
    bytes: Vec<u8>,
    head: &TraceHead,
    tools: Vec<T>,
) -> Result<Vec<Vec<u8>>, ViewEnd>
    requires head { IsHeadOf bytes.items head.now }
    requires valid { IsValid head.now.setup }
    requires fits { Fits view }
    ensures { IsViewed (map T.tool tools.items) head.now.version head.now.setup
        bytes.items view result }
{
    let Ok(mut bus) = Bus::open(alloc, tools) else {
        return Err(ViewEnd::Ended(Status::NoMemory));
    };
    match view {
        View::Events => recorded(alloc, bytes, head, &mut bus),
        _ => replayed(alloc, view, bytes, head, &mut bus),
    }
}

/// Reads a trace, and where it is valid for its set, writes this view of it.
fn write_view<T: TraceTool, S: Source, K: Sink>(
    alloc: Global,
    view: View,
    src: &mut S,
    out: &mut K,
    tools: Vec<T>,
) -> ViewEnd
    requires fits { Fits view }
    ensures answers { ViewAnswers (map T.tool tools.items) view
        (reading S.left S.faults src.old src.new) (writing K.held K.faults out.old out.new) result }
    ensures unwritten { result ≢ ViewEnd.Ended Status.Ok → result ≢ ViewEnd.Ended Status.WriteFault
        → out.new ≡ out.old }
    ensures faults { TellsFaults (reading S.left S.faults src.old src.new)
        (writing K.held K.faults out.old out.new) result }
    ensures not_usage { result ≢ ViewEnd.Ended Status.Usage }
{
    drop(Vec::<u8>::with_capacity(alloc, KEPT_WHERE_FREED));
    let (bytes, head) = match read_trace_input(alloc, src) {
        Ok(input) => input,
        Err(status) => return ViewEnd::Ended(status),
    };
    let text = match text_in(alloc, view, bytes, &head, tools) {
        Ok(text) => text,
        Err(end) => return end,
    };
    if put_pieces(out, text.as_slice()).is_err() {
        return ViewEnd::Ended(Status::WriteFault);
    }
    ViewEnd::Ended(Status::Ok)
}

/// Runs the command that the words name, those after the program's name.
///
/// Each reads a trace of either format, and where it is valid writes a view of it: `jobs` and `tasks` a table of jobs or of tasks
/// as lines of fields with commas; `why N` and `why G N` entry N of group G, 0 where it is left out, explained; `text` and `svg` a
/// chart in characters and as a picture, by ticks, or by entries with the word `entries` behind, and with two numbers FROM and TO
/// behind in this window: FROM < TO <= 10^12, and TO - FROM <= 400; `events` its trace events as JSON, for viewers of such events.
/// Whatever else is answered but that a write failed, nothing is written.
pub fn view<S: Source, K: Sink, T: TraceTool>(
    alloc: Global,
    words: &[String],
    src: &mut S,
    out: &mut K,
    tools: Vec<T>,
) -> ViewEnd
    // Usage is the answer exactly where the words are no command, and then nothing is read or written.
    ensures usage { commands.IsNoCommand words.now → result ≡ ViewEnd.Ended Status.Usage }
    ensures no_command { result ≡ ViewEnd.Ended Status.Usage → commands.IsNoCommand words.now }
    ensures unread { result ≡ ViewEnd.Ended Status.Usage → src.new ≡ src.old }
    ensures unwritten { result ≢ ViewEnd.Ended Status.Ok → result ≢ ViewEnd.Ended Status.WriteFault
        → out.new ≡ out.old }

    // A fault is answered exactly where a read or a write of this call failed.
    ensures faults { TellsFaults (reading S.left S.faults src.old src.new)
        (writing K.held K.faults out.old out.new) result }

    // What each command answers, and what it read and wrote.
    ensures view { (view : View) → commands.Names words.now view
        → ViewAnswers (map T.tool tools.items) view
        (reading S.left S.faults src.old src.new) (writing K.held K.faults out.old out.new) result }
{
    match view_of(words) {
        Some(view) => write_view(alloc, view, src, out, tools),
        None => ViewEnd::Ended(Status::Usage),
    }
}
