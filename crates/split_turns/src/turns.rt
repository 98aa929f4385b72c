//! The turns of a set's semaphores.
ghost use Rattle.std.specs.Prelude.{◌≡◌, ◌<◌, ◌≤◌, true, length, IfOk};
ghost use Rattle.rt_plays.specs.Limits.{IsInLimits};
ghost use Rattle.rt_plays.specs.Drives.{steps_given};
ghost use Rattle.rt_plays.specs.Room.{processor_count};
ghost use Rattle.set_books.specs.SetBooks as books;
ghost use Rattle.split_set.specs.SplitSets.{is_split_set};
ghost use Rattle.split_set.specs.declared.TheConstants.{MOST_SPLIT_STEPS};
ghost use Rattle.split_turns.specs.SplitTurns.{AreTurns, IsTurnOf};

use crate::quotas::{counts, steps_at};
use crate::tasks::{cpu_count, homes, prios};
use rt_base::{NoMemory, SemNo};
use rt_task::{Drive, Parts, Protocol, Setup, Step};
use split_inbox::{SemBook, SemRule};
use std::alloc::Global;
use std::marker::Model;
use turn_cell::{Turn, TurnSeat};

/// The turn of a semaphore's book, and the seat of each processor, by rising number.
#[derive(Drop)]
pub struct SemTurn {
    pub turn: Turn<SemBook>,
    pub seats: Vec<TurnSeat<SemBook>>,
}

/// The turns of all semaphores of a set, by rising number from 1.
#[derive(Drop)]
pub struct SemTurns {
    turns: Vec<SemTurn>,
}

impl Model for SemTurns {
    ghost use Rattle.std.specs.Prelude.{List};
    ghost use Rattle.split_turns.specs.declared.turns.SemTurn.{SemTurn};

    ghost Value = { List SemTurn };

    ghost view = { λ a. a.turns.items };
}

impl SemTurns {
    /// The turns of a split set, each with a book that has no entry.
    pub fn open(alloc: Global, setup: &Setup) -> Result<SemTurns, NoMemory>
        requires { is_split_set setup.now ≡ true }
        ensures { IfOk result (λ t. AreTurns setup.now t) }
    {
        let parts = setup.parts();
        let homes = homes(alloc, parts)?;
        let mut turns = Vec::new(alloc);
        for (i, _) in parts.sems.as_slice().iter().enumerate() {
            let sem = SemNo(i as u32 + 1);
            turns.push(open_turn(alloc, parts, sem, &homes)?)?;
        }
        Ok(SemTurns { turns })
    }

    /// The turns, by rising number of their semaphores.
    pub fn as_slice(&self) -> &[SemTurn]
        ensures { result.now ≡ self.now }
    {
        self.turns.as_slice()
    }

    /// The turns themselves, in that order.
    pub fn into_vec(self) -> Vec<SemTurn>
        ensures { result.items ≡ self }
    {
        self.turns
    }
}

/// The steps that a split set gives.
fn steps_of(parts: &Parts) -> &[Step]
    requires { is_split_set parts.now ≡ true }
    ensures steps { result.now ≡ steps_given parts.now.drive }
    ensures few { length result.now ≤ MOST_SPLIT_STEPS }
{
    match &parts.drive {
        Drive::Steps(steps) => steps.as_slice(),
        Drive::Horizon(_) => &[],
    }
}

/// Who is next at a release under a protocol.
fn rule_of(protocol: Protocol) -> SemRule
    ensures { result ≡ books.rule_of protocol }
{
    match protocol {
        Protocol::Mpcp => SemRule::Mpcp,
        Protocol::Fmlp | Protocol::Omlp | Protocol::Pcp | Protocol::Srp => SemRule::Fmlp,
    }
}

fn open_turn(
    alloc: Global,
    parts: &Parts,
    sem: SemNo,
    homes: &Vec<u32>,
) -> Result<SemTurn, NoMemory>
    requires split { is_split_set parts.now ≡ true }
    requires limits { IsInLimits parts.now }
    requires cpus { 0 < processor_count parts.now }
    requires low { 1 ≤ sem.0 }
    requires high { sem.0 ≤ length parts.now.sems }
    requires homes { homes.now.items ≡ books.homes parts.now }
    ensures { IfOk result (λ t. IsTurnOf parts.now sem.0 t) }
{
    let uses = steps_at(alloc, steps_of(parts), sem)?;
    let cpus = cpu_count(parts.clusters.as_slice());
    let quotas = counts(alloc, uses.as_slice(), cpus)?;
    let prios = prios(alloc, parts)?;
    let rule = rule_of(parts.sems.as_slice()[sem.0 as usize - 1].protocol);
    let book = SemBook::open(alloc, sem, rule, homes, prios, &quotas, uses.len() as u32)?;
    let (turn, seats) = Turn::open(alloc, book, cpus)?;
    Ok(SemTurn { turn, seats })
}
