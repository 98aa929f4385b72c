//! A group whose processors play in turns, each by a seat of its own.
ghost use Rattle.std.specs.Prelude.{◌≡◌, ℕ, ◌+◌, ◌<◌, ◌≤◌, [], true, nat_lt, length, map, reverse, slice_index, vec_capacity, if◌then◌else◌, All, Contains, IfOk, Some};
ghost use Rattle.rt_base.specs.declared.TheConstants.{MOST_CPUS, MOST_STEPS};
ghost use Rattle.rt_model.specs.Group.{group_processors};
ghost use Rattle.rt_model.specs.Histories.{raises};
ghost use Rattle.rt_plays.specs.Groups.{group_of, IsGroupOf};
ghost use Rattle.rt_plays.specs.Homes.{IsProcessorOf};
ghost use Rattle.rt_plays.specs.Plays.{group_with, IsBegunPlay};
ghost use Rattle.turn_cell.specs.Words.{AgreeOn, StartsWith};
ghost use Rattle.turn_cell.specs.SeatViews.{fresh};
ghost use Rattle.cpu_site.specs.Played.{turns_after, IfDid, IfEnded, IfTurnOver};
ghost use Rattle.cpu_site.specs.Raises.{cpu_at, cpu_count};
ghost use Rattle.cpu_site.specs.Seats.{about, cpu_of, cpu_seat_view, group_at, is_irq, looked_up, unused_seat, unused_seats, word_taken, About, IsEnd, IsPlay, IsTurnEnd};

use crate::cpus::cpus_of;
use crate::gate::Gate;
use crate::group::Group;
use crate::interrupts::{changed, copy, no_counts, no_positions};
use crate::played::Played;
use crate::progress::Progress;
use group_engine::KeepingEngine;
use rt_base::{CpuNo, GroupNo, MOST_CPUS, NoMemory};
use rt_task::{Act, Setup};
use std::alloc::Global;
use std::marker::Model;
use std::sync::{Mutex, Wait};
use turn_cell::{Turn, TurnSeat};

/// Room for the seats when they come back.
#[derive(Drop)]
struct Back {
    seats: Vec<TurnSeat<Group>>,
    ghost none: { seats.items ≡ [] },
    ghost room: { MOST_CPUS ≤ vec_capacity seats },
}

/// A group whose processors play in turns. Contracts see its turn.
#[derive(Drop)]
pub struct Site {
    turn: Turn<Group>,
    back: Mutex<Back>,
}

impl Model for Site {
    ghost use Rattle.std.specs.Prelude.{◌≡◌, Some};
    ghost use Rattle.turn_cell.specs.SeatViews.{TurnOf};
    ghost use Rattle.cpu_site.specs.declared.story.GroupOf.{GroupOf};
    ghost use Rattle.cpu_site.specs.Seats.{IsSite};

    ghost Value = { TurnOf GroupOf };

    ghost view = { λ a. a.turn };

    ghost invariant = { λ a.
        (s : GroupOf) × (a.turn.cell.subject ≡ Some s) × IsSite s a.turn.cpus };
}

/// A processor's seat at a site. Contracts see what it has seen.
#[derive(Drop)]
pub struct CpuSeat {
    seat: TurnSeat<Group>,
    cpu: CpuNo,
    // The processor's position among those of the group.
    position: u32,
    // How far it is in its turns.
    at: Progress,
    // How often a gate was asked before a play of it.
    plays: u32,
    // The interrupt word that it took last.
    taken: u64,
    // Room for what a play compares and tells.
    counts: Vec<u64>,
    raised: Vec<u32>,
}

impl Model for CpuSeat {
    ghost use Rattle.std.specs.Prelude.{◌≡◌, false, vec_capacity};
    ghost use Rattle.cpu_site.specs.Seats.{cpu_seat_view, About, CpuSeatView, IsSeat};

    ghost Value = { CpuSeatView };

    ghost view = { λ a. cpu_seat_view a.cpu.0 a.at.turns a.seat };

    ghost invariant = { λ a. (a.seat.holds ≡ false) × (a.seat.cpu ≡ a.position)
        × About a.seat.cell
        (λ s. IsSeat s a.seat a.cpu.0 a.at a.taken a.counts.items (vec_capacity a.raised)) };
}

/// The word that is taken by an act: that of the processor at an interrupt, and else the one that was taken before.
fn word_after(act: Act, counts: &[u64], position: u32, taken: u64) -> u64
    requires { position < length counts.now }
    ensures { result ≡ (if is_irq act then slice_index counts.now position else taken) }
{
    match act {
        Act::Irq => counts[position as usize],
        _ => taken,
    }
}

/// The seat of a processor that has seen nothing. `position` is its position among the processors of its group.
fn seated(
    alloc: Global,
    seat: TurnSeat<Group>,
    cpu: CpuNo,
    position: u32,
    count: usize,
) -> Result<CpuSeat, NoMemory>
    requires seat { seat ≡ fresh seat.cell position }
    requires position { About seat.cell (λ s. (position < count) × (count ≡ cpu_count (group_at s))
        × (cpu_at (group_at s) position ≡ cpu.0)) }
    ensures { IfOk result (λ r. r ≡ unused_seat seat.cell cpu.0) }
{
    let counts = no_counts(alloc, count)?;
    let raised = no_positions(alloc, count)?;
    Ok(CpuSeat {
        seat,
        cpu,
        position,
        at: Progress::start(),
        plays: 0,
        taken: 0,
        counts,
        raised,
    })
}

fn room(alloc: Global) -> Result<Back, NoMemory> {
    let seats = Vec::with_capacity(alloc, MOST_CPUS as usize)?;
    Ok(Back { seats })
}

/// The same items from the last to the first.
fn turn_round<T>(items: &mut Vec<T>)
    ensures { items.new.items ≡ reverse items.old.items }
{
    items.as_mut_slice().reverse();
}

impl CpuSeat {
    /// Its processor.
    pub fn cpu(&self) -> CpuNo
        ensures { result.0 ≡ self.now.cpu }
    {
        self.cpu
    }

    /// How many of its turns it gave as over.
    pub fn turns(&self) -> u64
        ensures { result ≡ self.now.turns }
    {
        self.at.turns
    }

    /// Asks the gate before a play.
    pub(crate) fn ask<R: Wait, G: Gate>(&mut self, rt: &R, gate: &G)
        ensures { self.new ≡ self.old }
    {
        gate.before(rt, self.cpu, self.plays);
        self.plays = self.plays.saturating_add(1);
    }
}

impl Site {
    /// A group of a setup, before its first step, and the seat of each of its processors, by rising number.
    pub fn open(
        alloc: Global,
        setup: &Setup,
        group: GroupNo,
    ) -> Result<(Site, Vec<CpuSeat>), NoMemory>
        requires group { IsGroupOf setup.now group.0 }
        ensures about { IfOk result (λ r.
            r.0.cell.subject ≡ Some (record { setup = setup.now; number = group.0 })) }
        ensures seats { let g = group_with setup.now group.0 in
            IfOk result (λ r. r.1.items ≡ unused_seats r.0.cell (group_processors g)) }
        ensures few { IfOk result (λ r. length r.1.items ≤ MOST_CPUS) }
    {
        let cpus = cpus_of(alloc, setup, group)?;
        let count = cpus.len();
        let value = Group::open(alloc, setup, group)?;
        let back = Mutex::new(room(alloc)?);
        let (turn, mut seats) = Turn::open(alloc, value, count as u32)?;
        let mut all = Vec::new(alloc);
        while let Some(seat) = seats.pop() {
            let position = seats.len();
            let cpu = cpus[position];
            let seat = seated(alloc, seat, cpu, position as u32, count)?;
            all.push(seat)?;
        }
        turn_round(&mut all);
        Ok((Site { turn, back }, all))
    }

    /// The engine, once all seats are back. It neither waits nor takes memory.
    pub fn close(self, mut seats: Vec<CpuSeat>) -> KeepingEngine
        requires few { length seats.items ≤ MOST_CPUS }
        requires seats { All (λ p. p.cell ≡ self.cell) seats.items }
        requires all { About self.cell (λ s. (q : ℕ) → IsProcessorOf (group_at s) q
            → Contains (map (λ p. p.cpu) seats.items) q) }
        ensures about { self.cell.subject ≡ Some (about result) }
        ensures later { All (λ p. StartsWith result.entries p.seen) seats.items }
        ensures whole { All (λ p. AgreeOn cpu_of p.cpu result.entries p.seen) seats.items }
        ensures begun { IsBegunPlay (group_of result) result.entries }
    {
        let Site { turn, back } = self;
        let Back { seats: mut back } = back.into_inner();
        while let Some(seat) = seats.pop() {
            let CpuSeat { seat, .. } = seat;
            back.push_reserved(seat);
        }
        turn.close(back).into_engine()
    }

    /// Waits for the turn, and takes the processor's next step, of its script or of its turns. In a body run it is
    /// `TurnOver` exactly where the turn after those that the seat gave as over is over in what it then knows: its Tick and
    /// its Irq were played, and after them the most acts that a turn has, or the processor has no next act. It is `Ended`
    /// exactly where no step is left and each turn was given as over.
    ///
    /// The call takes no memory, and waits for nothing but the turn.
    pub fn play<R: Wait>(&self, rt: &R, seat: &mut CpuSeat) -> Played
        requires { seat.old.cell ≡ self.now.cell }
        ensures did { About self.now.cell (λ s.
            IfDid result (λ e. IsPlay s seat.old e seat.new)) }
        ensures turn_over { About self.now.cell (λ s.
            IfTurnOver result (IsTurnEnd s seat.old seat.new)) }
        ensures ended { About self.now.cell (λ s. IfEnded result (IsEnd s seat.old seat.new)) }
        ensures begun { About self.now.cell (λ s. IsBegunPlay (group_at s) seat.new.seen) }
        ensures turns { seat.new.turns ≡ turns_after result seat.old.turns }
        ensures few { seat.new.turns ≤ MOST_STEPS }
        ensures later { StartsWith seat.new.seen seat.old.seen }
        ensures same { (seat.new.cell ≡ seat.old.cell)
            × (seat.new.cpu ≡ seat.old.cpu)
            × (seat.new.looks ≡ seat.old.looks) }
    {
        let mut group = self.turn.take(rt, &mut seat.seat);
        copy(group.raises(), &mut seat.counts);
        match group.advance(seat.cpu, &mut seat.at) {
            Played::Did(entry) => {
                changed(seat.counts.as_slice(), group.raises(), &mut seat.raised);
                seat.taken = word_after(entry.step.act, group.raises(), seat.position, seat.taken);
                self.turn
                    .give(&mut seat.seat, group, seat.raised.as_slice());
                Played::Did(entry)
            }
            Played::TurnOver => {
                self.turn.give(&mut seat.seat, group, &[]);
                Played::TurnOver
            }
            Played::Ended => {
                self.turn.give(&mut seat.seat, group, &[]);
                Played::Ended
            }
        }
    }

    /// Whether an interrupt was raised at the processor since it took one last, by one look at its word.
    ///
    /// The call neither waits nor takes memory.
    pub fn pending(&self, seat: &mut CpuSeat) -> bool
        requires { seat.old.cell ≡ self.now.cell }
        ensures word { About self.now.cell (λ s.
            raises (group_at s) seat.old.cpu seat.old.seen ≤ seat.new.found) }
        ensures pending { About self.now.cell (λ s.
            result ≡ nat_lt (word_taken (group_at s) seat.old.cpu seat.old.seen) seat.new.found) }
        ensures looked { seat.new ≡ looked_up seat.new.found seat.old }
    {
        self.turn.irq_word(&mut seat.seat, seat.position) > seat.taken
    }
}
