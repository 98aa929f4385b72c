//! The command `upgrade`: from the bytes of a trace to the text in format 2 of its set and histories, with count lines.
ghost use Rattle.std.specs.Prelude.{◌≡◌, ◌≢◌, ℕ, List, map, true};
ghost use Rattle.rt_task.specs.Validity.{IsValid};
ghost use Rattle.rt_rules.specs.declared.history.Entry.{Entry};
ghost use Rattle.rt_fault.specs.Faults.{HasRisen};
ghost use Rattle.trace_lines.specs.declared.format.Version.TheVariants.{Two};
ghost use Rattle.trace_tools.specs.BusCounters.{counters};
ghost use Rattle.trace_tools.specs.Counters.{counter_of, counters_after};
ghost use Rattle.trace_tools.specs.Tools.{Tool};
ghost use Rattle.trace_text.specs.CountLines.{counted_text, shown_from};
ghost use Rattle.trace_read.specs.Reads.{IsHeadOf};
ghost use Rattle.trace_upgrade.specs.Said.{TellsPlays};
ghost use Rattle.set_input.specs.Ends.{TellsFaults, reading, writing};
ghost use Rattle.set_input.specs.Answers.{IsUnwritten};
ghost use Rattle.sim_commands.specs.Upgrade.{HasUpgraded, HasWritten};
ghost use Rattle.sim_commands.specs.UpgradeAnswers.{UpgradeAnswers};

use crate::trace_input::read_trace_input;
use rt_fault::{Sink, Source, Status, put_all};
use std::alloc::Global;
use trace_check::{Checked, Verdict, check_counted};
use trace_lines::Version;
use trace_read::TraceHead;
use trace_tools::{Bus, TraceTool};
use trace_upgrade::engines_in;
use trace_writer::{WriteStop, write_shown_trace};

/// Writes, in format 2, the text of plays whose head was read, and the count lines of a bus that was shown these.
fn write_upgrade<T: TraceTool, K: Sink>(
    alloc: Global,
    head: &TraceHead,
    bytes: &[u8],
    bus: &Bus<T>,
    out: &mut K,
) -> Status
    requires read { IsHeadOf bytes.now head.now }
    requires says { (hs : List (List Entry)) × TellsPlays bytes.now head.now hs }
    ensures written { (hs : List (List Entry)) (tools : List Tool)
        → TellsPlays bytes.now head.now hs → counters T.tool bus.now
        ≡ counters_after (shown_from head.now.setup 0 hs) (map counter_of tools) → HasWritten
        (counted_text Two tools head.now.setup hs)
        (writing K.held K.faults out.old out.new) result }
    ensures write_fault { result ≡ Status.WriteFault →
        HasRisen (K.faults out.old) (K.faults out.new) }
    ensures no_write_fault { result ≢ Status.WriteFault → K.faults out.new ≡ K.faults out.old }
{
    let Ok(engines) = engines_in(alloc, head, bytes) else {
        return Status::NoMemory;
    };
    match write_shown_trace(
        alloc,
        Version::Two,
        &head.setup,
        engines.as_slice(),
        bus,
        out,
    ) {
        Ok(()) => Status::Ok,
        Err(WriteStop::Fault) => Status::WriteFault,
        Err(WriteStop::NoMemory) => Status::NoMemory,
    }
}

/// Writes a text that is its own upgrade.
fn write_same<K: Sink>(bytes: &[u8], out: &mut K) -> Status
    ensures written { HasWritten bytes.now (writing K.held K.faults out.old out.new) result }
    ensures write_fault { result ≡ Status.WriteFault →
        HasRisen (K.faults out.old) (K.faults out.new) }
    ensures no_write_fault { result ≢ Status.WriteFault → K.faults out.new ≡ K.faults out.old }
{
    match put_all(out, bytes) {
        Ok(()) => Status::Ok,
        Err(_) => Status::WriteFault,
    }
}

/// Whether a text that was checked is its own upgrade: it is of format 2, and has its count lines.
fn is_upgraded(head: &TraceHead, checked: Checked) -> bool
    ensures { result ≡ true → (head.now.version ≡ Two) × (checked.counted ≡ true) }
{
    match head.version {
        Version::One => false,
        Version::Two => checked.counted,
    }
}

/// Writes, in format 2, the trace whose head was read of these bytes, where it is valid.
fn upgrade_valid<T: TraceTool, K: Sink>(
    alloc: Global,
    bytes: &[u8],
    head: &TraceHead,
    tools: Vec<T>,
    out: &mut K,
) -> Status
    requires head { IsHeadOf bytes.now head.now }
    requires valid { IsValid head.now.setup }
    ensures upgraded { HasUpgraded (map T.tool tools.items) head.now.version head.now.setup
        bytes.now (writing K.held K.faults out.old out.new) result }
    ensures wrong_unwritten { (line : ℕ) → result ≡ Status.Invalid line → out.new ≡ out.old }
    ensures read { IsUnwritten result → ⊥ }
    ensures write_fault { result ≡ Status.WriteFault →
        HasRisen (K.faults out.old) (K.faults out.new) }
    ensures no_write_fault { result ≢ Status.WriteFault → K.faults out.new ≡ K.faults out.old }
{
    let Ok(mut bus) = Bus::open(alloc, tools) else {
        return Status::NoMemory;
    };
    let Ok(checked) = check_counted(alloc, bytes, head, &mut bus) else {
        return Status::NoMemory;
    };
    match checked.verdict {
        Verdict::Valid(_) => {}
        Verdict::Invalid(line) => return Status::Invalid(line),
    }
    if is_upgraded(head, checked) {
        return write_same(bytes, out);
    }
    write_upgrade(alloc, head, bytes, &bus, out)
}

/// Reads a trace, and where it is valid for its set, writes it in format 2 with the count line of each of these tools.
pub(crate) fn upgrade<T: TraceTool, S: Source, K: Sink>(
    alloc: Global,
    src: &mut S,
    out: &mut K,
    tools: Vec<T>,
) -> Status
    ensures answers { UpgradeAnswers (map T.tool tools.items)
        (reading S.left S.faults src.old src.new) (writing K.held K.faults out.old out.new) result }
    ensures unwritten { IsUnwritten result → out.new ≡ out.old }
    ensures wrong_unwritten { (line : ℕ) → result ≡ Status.Invalid line → out.new ≡ out.old }
    ensures faults { TellsFaults (reading S.left S.faults src.old src.new)
        (writing K.held K.faults out.old out.new) result }
    ensures not_usage { result ≢ Status.Usage }
{
    let (bytes, head) = match read_trace_input(alloc, src) {
        Ok(input) => input,
        Err(status) => return status,
    };
    upgrade_valid(alloc, bytes.as_slice(), &head, tools, out)
}
