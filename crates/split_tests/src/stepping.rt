//! Split runs whose processors step in an order that is given, on one thread.
ghost use Rattle.std.specs.Prelude.{◌≡◌, ◌<◌, true, length, IfOk};
ghost use Rattle.split_part.specs.Splits.{AreSeatsOf, cells_in};
ghost use Rattle.split_set.specs.SplitSets.{is_split_set};
ghost use Rattle.split_turns.specs.SplitTurns.{AreTurns};

use cpu_site::Gate;
use part_seat::{PartSeat, Played2};
use rt_base::{CpuNo, NoMemory};
use rt_task::Setup;
use set_read::read_set;
use split_inbox::Names;
use split_part::{Split, SplitEnd};
use split_run::{play_out, text_of_run};
use split_set::is_split_set;
use split_turns::SemTurns;
use std::alloc::Global;
use std::marker::Brand;
use std::sync::Wait;
use std::sync::atomic::{AtomicBool, Ordering};
use std::test::Fail;
use std::thread::Threads;

/// What the last step came to, and the text.
pub type Stepped = (Option<Played2>, Vec<u8>);

/// Remembers whether a processor was asked for more than one step.
#[derive(Drop)]
struct OnceEach {
    is_more: AtomicBool,
}

impl Gate for OnceEach {
    fn before<R: Wait>(&self, _rt: &R, _cpu: CpuNo, n: u32) {
        if n > 0 {
            self.is_more.store(true, Ordering::SeqCst);
        }
    }
}

/// The set of a document, which can be run split.
fn split_set_of(alloc: Global, set: &str) -> Result<Setup, Fail>
    ensures { IfOk result (λ s. is_split_set s ≡ true) }
{
    let Ok(setup) = read_set(alloc, set.as_bytes()) else {
        return Err(Fail::new("the document is no set"));
    };
    if is_split_set(setup.parts()) {
        Ok(setup)
    } else {
        Err(Fail::new("the set cannot be run split"))
    }
}

/// Plays one step of a processor.
fn step_at<N: Names, R: Wait>(
    rt: &R,
    split: &Split<N>,
    seats: &mut [PartSeat<N>],
    cpu: usize,
) -> Result<Played2, NoMemory>
    requires seats { AreSeatsOf split.now seats.old }
    requires there { cpu < length seats.old }
    ensures seats { AreSeatsOf split.now seats.new }
    ensures count { length seats.new ≡ length seats.old }
{
    split.step(rt, &mut seats[cpu])
}

/// Plays a step of each processor that the order names, one after another. The answer is what the last step came to.
fn step_each<N: Names, R: Wait>(
    rt: &R,
    split: &Split<N>,
    seats: &mut [PartSeat<N>],
    order: &[u8],
) -> Result<Option<Played2>, Fail>
    requires { AreSeatsOf split.now seats.old }
    ensures { AreSeatsOf split.now seats.new }
{
    let mut last = None;
    for digit in order {
        let cpu = usize::from(digit.saturating_sub(b'0'));
        if cpu >= seats.len() {
            return Err(Fail::new("there is no such processor"));
        }
        last = Some(step_at(rt, split, seats, cpu)?);
    }
    Ok(last)
}

/// Plays these steps at turns that were opened for the set, and closes the run, in which no step of a script is left.
fn text_at<N: Names + Send + Sync, R: Threads + Wait + Sync>(
    rt: &R,
    alloc: Global,
    setup: &Setup,
    turns: SemTurns,
    order: &[u8],
) -> Result<Stepped, Fail>
    requires split { is_split_set setup.now ≡ true }
    requires turns { AreTurns setup.now turns }
    requires names { cells_in turns ≡ N.turns }
{
    let (split, mut seats) = Split::<N>::open(alloc, setup, turns)?;
    let last = step_each(rt, &split, seats.as_mut_slice(), order)?;
    let gate = OnceEach {
        is_more: AtomicBool::new(false),
    };
    let end = play_out(rt, alloc, split, seats, &gate)?;
    if gate.is_more.load(Ordering::SeqCst) {
        return Err(Fail::new("a step was left"));
    }
    Ok((last, text_of_run(alloc, setup, &end)?))
}

/// Plays these steps at turns that were opened for the set, and closes the run.
fn end_at<N: Names, R: Wait>(
    rt: &R,
    alloc: Global,
    setup: &Setup,
    turns: SemTurns,
    order: &[u8],
) -> Result<SplitEnd, Fail>
    requires split { is_split_set setup.now ≡ true }
    requires turns { AreTurns setup.now turns }
    requires names { cells_in turns ≡ N.turns }
{
    let (split, mut seats) = Split::<N>::open(alloc, setup, turns)?;
    step_each(rt, &split, seats.as_mut_slice(), order)?;
    Ok(split.close(rt, alloc, seats)?)
}

/// What the last step of an order comes to, after which nothing is left to play, and the text of the run.
pub(crate) fn text_in_order<R: Threads + Wait + Sync>(
    rt: &R,
    alloc: Global,
    set: &str,
    order: &str,
) -> Result<Stepped, Fail> {
    let setup = split_set_of(alloc, set)?;
    let turns = SemTurns::open(alloc, &setup)?;
    text_at::<Brand, R>(rt, alloc, &setup, turns, order.as_bytes())
}

/// What a run comes to that is closed after the steps of an order.
pub(crate) fn end_in_order<R: Wait>(
    rt: &R,
    alloc: Global,
    set: &str,
    order: &str,
) -> Result<SplitEnd, Fail> {
    let setup = split_set_of(alloc, set)?;
    let turns = SemTurns::open(alloc, &setup)?;
    end_at::<Brand, R>(rt, alloc, &setup, turns, order.as_bytes())
}
