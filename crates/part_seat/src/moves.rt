//! The steps of a partition at the semaphores.
ghost use Rattle.std.specs.Prelude.{◌≡◌, ◌<◌, true, map, option_map, None, Some};
ghost use Rattle.part_player.specs.Players.{IsAnswered, IsAsking, IsFreeing, group_of, has_entry, own_script, past_at};
ghost use Rattle.split_counts.specs.Room.{ComesNext};
ghost use Rattle.split_rules.specs.PartAnswers.{asked};
ghost use Rattle.rt_rules.specs.declared.history.Reply.TheVariants as replies;
ghost use Rattle.part_seat.specs.AtTurns.{HasActed, IsPassedAt};
ghost use Rattle.part_seat.specs.Partitions.{IsMeeting, books_in, cells_of};

use crate::passed::{Passed, PlayedStep};
use crate::turns::{ask, release};
use part_player::Player;
use rt_base::{Ask, SemNo, TaskNo};
use rt_rules::Reply;
use rt_task::Step;
use split_inbox::SemBook;
use split_rules::SplitAct;
use std::sync::Wait;
use turn_cell::{Turn, TurnSeat};

/// The step that was begun asks for a semaphore: its answer ends the step.
pub(crate) fn asks<R: Wait>(
    rt: &R,
    player: &mut Player,
    seats: &mut [TurnSeat<SemBook>],
    turns: &[Turn<SemBook>],
    step: Step,
    task: TaskNo,
    sem: SemNo,
) -> PlayedStep
    requires begun { (player.old.begun ≡ true) × (0 < player.old.room) }
    requires next { ComesNext (own_script player.old.setup player.old.cpu) player.old.cpu
        player.old.entries step }
    requires answers { (x : Ask) → IsAnswered (group_of player.old) player.old.cpu
        (past_at player.old) step (asked x) }
    requires asks { IsAsking (group_of player.old) player.old.cpu (past_at player.old) step
        task.0 sem.0 }
    requires meeting { IsMeeting player.old.setup player.old.cpu seats.old (past_at player.old) }
    requires turns { map (λ t. t.cell) turns.now ≡ cells_of seats.old }
    ensures player { player.new ≡ has_entry result.entry player.old }
    ensures plain { result.entry.act ≡ SplitAct.Plain step.act }
    ensures meeting { IsMeeting player.new.setup player.new.cpu seats.new (past_at player.new) }
    ensures cells { cells_of seats.new ≡ cells_of seats.old }
    ensures acted { HasActed player.old.cpu (books_in seats.old) (books_in seats.new)
        result.passed }
    ensures passed { result.passed ≡ None }
{
    let position = sem.0 as usize - 1;
    let cpu = player.cpu();
    let answer = ask(rt, &turns[position], &mut seats[position], cpu, task);
    let entry = player.finish(step, reply_of(answer));
    PlayedStep {
        entry,
        passed: None,
    }
}

/// The step that was begun frees a semaphore, which is passed on if a task waits for it.
pub(crate) fn frees<R: Wait>(
    rt: &R,
    player: &mut Player,
    seats: &mut [TurnSeat<SemBook>],
    turns: &[Turn<SemBook>],
    step: Step,
    task: TaskNo,
    sem: SemNo,
) -> PlayedStep
    requires begun { (player.old.begun ≡ true) × (0 < player.old.room) }
    requires next { ComesNext (own_script player.old.setup player.old.cpu) player.old.cpu
        player.old.entries step }
    requires answers { IsAnswered (group_of player.old) player.old.cpu (past_at player.old) step
        replies.Done }
    requires frees { IsFreeing (group_of player.old) player.old.cpu (past_at player.old) step
        task.0 sem.0 }
    requires meeting { IsMeeting player.old.setup player.old.cpu seats.old (past_at player.old) }
    requires turns { map (λ t. t.cell) turns.now ≡ cells_of seats.old }
    ensures player { player.new ≡ has_entry result.entry player.old }
    ensures plain { result.entry.act ≡ SplitAct.Plain step.act }
    ensures meeting { IsMeeting player.new.setup player.new.cpu seats.new (past_at player.new) }
    ensures cells { cells_of seats.new ≡ cells_of seats.old }
    ensures acted { HasActed player.old.cpu (books_in seats.old) (books_in seats.new)
        result.passed }
    ensures passed { (c : Passed) → result.passed ≡ Some c
        → IsPassedAt player.old.setup player.old.cpu seats.new c }
{
    let position = sem.0 as usize - 1;
    let cpu = player.cpu();
    let (next, no) = release(rt, &turns[position], &mut seats[position], cpu, task);
    let entry = player.finish(step, Reply::Done);
    PlayedStep {
        entry,
        passed: passed_by(sem, no, next),
    }
}

/// The reply to a step whose request was answered so.
fn reply_of(answer: Ask) -> Reply
    ensures { result ≡ asked answer }
{
    match answer {
        Ask::Granted => Reply::Granted,
        Ask::Queued => Reply::Queued,
    }
}

fn passed_by(sem: SemNo, no: u32, next: Option<TaskNo>) -> Option<Passed>
    ensures { result ≡ option_map (λ t. record { sem = sem; no = no; task = t }) next }
{
    let task = next?;
    Some(Passed { sem, no, task })
}
