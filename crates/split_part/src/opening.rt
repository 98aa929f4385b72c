//! What a split run is opened of.
ghost use Rattle.std.specs.Prelude.{◌≡◌, ◌<◌, ◌≤◌, ◌^◌, ◌==◌, ◌&&◌, true, IfOk, length, map};
ghost use Rattle.rt_rules.specs.Numbers.{numbers_from};
ghost use Rattle.rt_plays.specs.Drives.{steps_given};
ghost use Rattle.rt_plays.specs.Scripts.{script};
ghost use Rattle.split_counts.specs.Room.{is_unlock as unlocks};
ghost use Rattle.split_inbox.specs.Sums.{sum_of};
ghost use Rattle.split_inbox.specs.declared.TheConstants.{MOST_GRANTS};
ghost use Rattle.split_laws.specs.Counts.{count_steps};
ghost use Rattle.split_set.specs.SplitSets.{is_split_set};
ghost use Rattle.split_set.specs.declared.TheConstants.{MOST_SPLIT_STEPS};
ghost use Rattle.part_seat.specs.PartSeats.{unlocks_of};
ghost use Rattle.split_part.specs.Columns.{AreBoth};
ghost use Rattle.split_part.specs.inside.Deals.{lists};
ghost use Rattle.split_part.specs.Openings.{AreFreshRows, AreOpenParts, AreSeated, CanSeat, IsFreshTaker, inboxes_at, posters_at, rows_in, turns_in};

use crate::deal::{pop_each, turn_round};
use crate::senders::senders_of;
use part_seat::{PartSeat, Partition};
use rt_base::{CpuNo, NoMemory};
use rt_task::{Act, Drive, Op, Parts, Setup, Step};
use split_inbox::{Inbox, Names, Poster, SemBook, Taker};
use split_turns::{SemTurn, SemTurns};
use std::alloc::Global;
use turn_cell::{Turn, TurnSeat};

/// The turns of all semaphores, and the seats at each.
pub(crate) fn apart(
    alloc: Global,
    turns: SemTurns,
) -> Result<(Vec<Turn<SemBook>>, Vec<Vec<TurnSeat<SemBook>>>), NoMemory>
    ensures turns { IfOk result (λ r. r.0.items ≡ turns_in turns) }
    ensures seats { IfOk result (λ r. lists r.1.items ≡ rows_in turns) }
{
    let mut kept = Vec::new(alloc);
    let mut rows = Vec::new(alloc);
    for one in turns.into_vec() {
        let SemTurn { turn, seats } = one;
        kept.push(turn)?;
        rows.push(seats)?;
    }
    Ok((kept, rows))
}

/// The partitions of all processors of a split set before their first step, by rising number, with their seats at the turns.
pub(crate) fn partitions(
    alloc: Global,
    setup: &Setup,
    mut rows: Vec<Vec<TurnSeat<SemBook>>>,
) -> Result<Vec<Partition>, NoMemory>
    requires split { is_split_set setup.now ≡ true }
    requires rows { AreFreshRows setup.now (lists rows.items) }
    ensures { IfOk result (λ v. AreOpenParts setup.now (lists rows.items) v.items) }
{
    let mut parts = Vec::new(alloc);
    // Each cluster has one processor.
    for cpu in (0..setup.parts().clusters.as_slice().len()).rev() {
        let (rests, seats) = pop_each(alloc, rows)?;
        rows = rests;
        parts.push(Partition::open(alloc, setup, CpuNo(cpu as u32), seats)?)?;
    }
    turn_round(&mut parts);
    Ok(parts)
}

/// The steps that a split set gives.
fn steps_of(parts: &Parts) -> &[Step]
    requires { is_split_set parts.now ≡ true }
    ensures steps { result.now ≡ steps_given parts.now.drive }
    ensures few { length result.now ≤ MOST_SPLIT_STEPS }
{
    match &parts.drive {
        Drive::Steps(steps) => steps.as_slice(),
        Drive::Horizon(_) => &[],
    }
}

fn is_unlock_of(step: Step, cpu: CpuNo) -> bool
    ensures { result ≡ (step.cpu.0 == cpu.0 && unlocks step.act) }
{
    step.cpu == cpu && matches!(step.act, Act::Do(Op::Unlock(_)))
}

/// How many of the steps are of a processor and unlock a semaphore.
fn unlocks_in(steps: &[Step], cpu: CpuNo) -> u32
    requires { length steps.now < 2 ^ 32 }
    ensures { result ≡ count_steps unlocks (script steps.now cpu.0) }
{
    let mut count = 0;
    for step in steps {
        if is_unlock_of(*step, cpu) {
            count += 1;
        }
    }
    count
}

/// How many grants each processor may post to an inbox: as many as its script has steps that unlock a semaphore.
pub(crate) fn quotas(alloc: Global, setup: &Setup) -> Result<Vec<u32>, NoMemory>
    requires { is_split_set setup.now ≡ true }
    ensures { IfOk result (λ v. v.items ≡ unlocks_of setup.now) }
{
    let parts = setup.parts();
    let steps = steps_of(parts);
    let mut quotas = Vec::new(alloc);
    for cpu in 0..parts.clusters.as_slice().len() {
        quotas.push(unlocks_in(steps, CpuNo(cpu as u32)))?;
    }
    Ok(quotas)
}

/// The inboxes of the partitions, in their order, with the posters and the taker of each.
pub(crate) fn inboxes<N: Names>(
    alloc: Global,
    parts: &[Partition],
    quotas: &[u32],
) -> Result<(Vec<Inbox<N>>, Vec<Vec<Poster<N>>>, Vec<Taker<N>>), NoMemory>
    requires { sum_of quotas.now ≤ MOST_GRANTS }
    ensures inboxes { IfOk result (λ r. r.0.items ≡ inboxes_at r.2.items) }
    ensures posters { IfOk result (λ r. lists r.1.items ≡ posters_at r.2.items) }
    ensures takers { IfOk result (λ r. AreBoth (IsFreshTaker quotas.now) parts.now r.2.items) }
{
    let mut inboxes = Vec::new(alloc);
    let mut rows = Vec::new(alloc);
    let mut takers = Vec::new(alloc);
    for part in parts {
        let (inbox, posters, taker) = Inbox::open(alloc, part.tasks(), quotas)?;
        inboxes.push(inbox)?;
        rows.push(posters)?;
        takers.push(taker)?;
    }
    Ok((inboxes, rows, takers))
}

/// The seats of the partitions, in their order: each has the posters that stand at its view of the rows, and its taker.
pub(crate) fn seated<N: Names>(
    alloc: Global,
    mut parts: Vec<Partition>,
    mut rows: Vec<Vec<Poster<N>>>,
    mut takers: Vec<Taker<N>>,
) -> Result<Vec<PartSeat<N>>, NoMemory>
    requires { CanSeat N.turns parts.items (lists rows.items) takers.items }
    ensures { IfOk result (λ v. AreSeated parts.items (lists rows.items) takers.items v.items) }
{
    let mut seats = Vec::new(alloc);
    while let Some(part) = parts.pop() {
        let Some(taker) = takers.pop() else {
            unreachable!()
        };
        let (rests, posters) = pop_each(alloc, rows)?;
        rows = rests;
        seats.push(PartSeat::new(part, senders_of(alloc, posters)?, taker))?;
    }
    turn_round(&mut seats);
    Ok(seats)
}
