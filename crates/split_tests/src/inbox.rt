//! A grant on its way through an inbox, on one thread.
ghost use Rattle.std.specs.Prelude.{◌≡◌, ◌∷◌, [], true, IfOk, Some};
ghost use Rattle.split_inbox.specs.Books.{entry};
ghost use Rattle.split_inbox.specs.Grants.{claim};
ghost use Rattle.split_tests.specs.inside.OneBook.{one_book, IsAtTurn};

use rt_base::{Ask, CpuNo, NoMemory, SemNo, TaskNo};
use split_inbox::{Grant, Inbox, Names, SemBook, SemRule};
use split_rules::{SemAct, SemEntry};
use std::alloc::Global;
use std::marker::Brand;
use std::process::Abort;
use std::sync::Wait;
use std::test::Fail;
use turn_cell::{Turn, TurnSeat};

/// The book of a semaphore for two tasks of one processor.
fn new_book(alloc: Global) -> Result<SemBook, NoMemory>
    ensures about { IfOk result (λ b. b.about ≡ one_book) }
    ensures empty { IfOk result (λ b. b.entries ≡ []) }
{
    let homes = vec![in alloc; 0, 0, 0]?;
    let prios = vec![in alloc; 0, 1, 2]?;
    let quotas = vec![in alloc; 3]?;
    SemBook::open(alloc, SemNo(1), SemRule::Fmlp, &homes, prios, &quotas, 3)
}

/// Whether the entry is a request by a task of processor 0 that was answered so.
fn is_ask(made: SemEntry, task: u32, answer: Ask) -> bool
    ensures { result ≡ true
        → made ≡ entry (record { 0 = 0 }) (record { 0 = task }) (SemAct.Ask answer) }
{
    match made.act {
        SemAct::Ask(answered) => { made.cpu.0 == 0 && made.task.0 == task && answered == answer }
        SemAct::Release(_) => false,
    }
}

/// Task 2, where that is next.
fn task_two(next: Option<TaskNo>) -> Result<TaskNo, Fail>
    ensures { IfOk result (λ _. next ≡ Some (record { 0 = 2 })) }
{
    match next {
        Some(TaskNo(2)) => Ok(TaskNo(2)),
        _ => Err(Fail::new("another task is next")),
    }
}

/// Task 1 asks for the semaphore, which is free.
fn ask_first<R: Wait>(
    rt: &R,
    turn: &Turn<SemBook>,
    seat: &mut TurnSeat<SemBook>,
) -> Result<(), Fail>
    requires { IsAtTurn turn.now seat.old }
    ensures { IfOk result (λ _. IsAtTurn turn.now seat.new) }
{
    let mut book = turn.take(rt, seat);
    let [] = book.entries() else {
        return Err(Fail::new("the history has an entry"));
    };
    let _answer = book.ask(CpuNo(0), TaskNo(1));
    turn.give(seat, book, &[]);
    Ok(())
}

/// Task 2 asks for it, while task 1 holds it.
fn ask_second<R: Wait>(
    rt: &R,
    turn: &Turn<SemBook>,
    seat: &mut TurnSeat<SemBook>,
) -> Result<(), Fail>
    requires { IsAtTurn turn.now seat.old }
    ensures { IfOk result (λ _. IsAtTurn turn.now seat.new) }
{
    let mut book = turn.take(rt, seat);
    let [first] = book.entries() else {
        return Err(Fail::new("the history has other entries"));
    };
    if !is_ask(*first, 1, Ask::Granted) {
        return Err(Fail::new("the first entry is another"));
    }
    let _answer = book.ask(CpuNo(0), TaskNo(2));
    turn.give(seat, book, &[]);
    Ok(())
}

/// Task 1 frees it, which passes it on to task 2, and the grant is made of that.
fn grant_of<N: Names, R: Wait>(
    rt: &R,
    turn: &Turn<SemBook>,
    seat: &mut TurnSeat<SemBook>,
) -> Result<Grant<N>, Fail>
    requires turn { IsAtTurn turn.now seat.old }
    requires names { N.turns ≡ turn.now.cell ∷ [] }
    ensures { IfOk result (λ g. g.claim ≡ claim 1 2 2 0 0) }
{
    let mut book = turn.take(rt, seat);
    let [first, second] = book.entries() else {
        return Err(Fail::new("the history has other entries"));
    };
    if !is_ask(*first, 1, Ask::Granted) || !is_ask(*second, 2, Ask::Queued) {
        return Err(Fail::new("an entry is another"));
    }
    let next = book.release(CpuNo(0), TaskNo(1));
    let _task = task_two(next)?;
    let _history = book.entries();
    turn.give(seat, book, &[]);
    let seen = turn.split(seat)?;
    Ok(Grant::new(SemNo(1), 2, TaskNo(2), CpuNo(0), 0, seen))
}

/// Posts a grant to the inbox of its task, and takes it from there.
fn send<N: Names, R: Wait + Abort>(rt: &R, alloc: Global, grant: Grant<N>) -> Result<(), Fail>
    requires { grant.claim ≡ claim 1 2 2 0 0 }
{
    let (inbox, mut posters, mut taker) = Inbox::<N>::open(alloc, &[TaskNo(2)], &[1])?;
    let mut poster = posters.pop().expect(rt, "a poster");
    assert!(rt; inbox.take(rt, &mut taker).is_none(), "nothing was posted");
    inbox.post(rt, &mut poster, grant);
    let taken = inbox
        .take(rt, &mut taker)
        .expect(rt, "the grant that was posted");
    assert_eq!(rt;
        (taken.sem(), taken.no(), taken.task()),
        (SemNo(1), 2, TaskNo(2))
    );
    assert_eq!(rt; (taken.from(), taken.seq()), (CpuNo(0), 0));
    assert!(rt; inbox.take(rt, &mut taker).is_none(), "it was taken once");
    Ok(())
}

/// Passes the semaphore on at the turn, and sends the grant.
fn pass_on<N: Names, R: Wait + Abort>(
    rt: &R,
    alloc: Global,
    turn: &Turn<SemBook>,
    mut seat: TurnSeat<SemBook>,
) -> Result<(), Fail>
    requires turn { IsAtTurn turn.now seat }
    requires names { N.turns ≡ turn.now.cell ∷ [] }
{
    ask_first(rt, turn, &mut seat)?;
    ask_second(rt, turn, &mut seat)?;
    let grant = grant_of::<N, R>(rt, turn, &mut seat)?;
    send(rt, alloc, grant)
}

#[test]
fn an_inbox_gives_the_grant_that_was_posted(rt: HostRuntime) -> Result<(), Fail> {
    let book = new_book(rt.alloc())?;
    let (turn, mut seats) = Turn::open(rt.alloc(), book, 1)?;
    let seat = seats.pop().expect(&rt, "a seat");
    pass_on::<Brand, HostRuntime>(&rt, rt.alloc(), &turn, seat)
}
