//! An inbox, to which the other processors post grants and from which its own takes them.
ghost use Rattle.std.specs.Prelude.{◌≡◌, ◌<◌, ◌≤◌, ◌++◌, ◌∷◌, [], true, length, map, slice_index, vec_capacity, ◌==◌, if◌then◌else◌, All, IfOk, IfNone, IfSome};
ghost use Rattle.rt_base.specs.TaskNos.{numbers};
ghost use Rattle.rt_rules.specs.Numbers.{has};
ghost use Rattle.crossbeam_queue.specs.Passes.{IsPassOf, IsSamePass};
ghost use Rattle.split_inbox.specs.Grants.{claim_of};
ghost use Rattle.split_inbox.specs.Inboxes.{count_on, fresh_posters, fresh_taker, hand_of, inbox_of, poster_at, room_for, IsPosterSeat};
ghost use Rattle.split_inbox.specs.Posting.{blank, maker, new_poster, new_taker, nos_of, of_poster, AreBelow, AreNamed, AreRising};
ghost use Rattle.split_inbox.specs.Sums.{sum_of};
ghost use Rattle.split_inbox.specs.declared.TheConstants.{MOST_GRANTS};

use crate::closing::{drain, gather};
use crate::grant::Grant;
use crate::names::Names;
use crate::rule::{Begin, Hand, Next, Plan, Post, Posts, Take};
use crossbeam_queue::{Pass, RuledArrayQueue};
use rt_base::{NoMemory, TaskNo};
use std::alloc::Global;
use std::marker::{Brand, Model};
use std::sync::Wait;

/// The queue of an inbox.
pub(crate) type Queue<N> = RuledArrayQueue<Grant<N>, Hand, Posts>;

/// A seat at the queue of an inbox.
pub(crate) type Seat<N> = Pass<Grant<N>, Hand>;

/// The inbox of a processor: what others have posted to it and was not taken yet. Contracts see which one it is.
#[derive(Drop)]
pub struct Inbox<N: Names> {
    pub(crate) queue: Queue<N>,
}

impl<N: Names> Model for Inbox<N> {
    ghost use Rattle.split_inbox.specs.Inboxes.{inbox_of, InboxId};

    ghost Value = { InboxId };

    ghost view = { λ a. inbox_of a.queue };
}

/// The seat of a processor that posts to an inbox. Contracts see what it has posted.
#[derive(Drop)]
pub struct Poster<N: Names> {
    pub(crate) pass: Seat<N>,
}

impl<N: Names> Model for Poster<N> {
    ghost use Rattle.std.specs.Prelude.{◌≡◌, []};
    ghost use Rattle.split_inbox.specs.Inboxes.{hand_of, poster_at, IsPosterSeat, PosterOf};

    ghost Value = { PosterOf };

    ghost view = { λ a. poster_at a.pass.table_id (hand_of a.pass) };

    ghost invariant = { λ a. (a.pass.me.1 ≡ []) × IsPosterSeat (hand_of a.pass) };
}

/// The seat of the processor that takes from an inbox. Contracts see what it has taken.
#[derive(Drop)]
pub struct Taker<N: Names> {
    pass: Seat<N>,
    takes: u64,
    // Room for what is left at the end.
    rest: Vec<Grant<N>>,
}

impl<N: Names> Model for Taker<N> {
    ghost use Rattle.std.specs.Prelude.{◌≡◌, ◌≤◌, [], vec_capacity};
    ghost use Rattle.split_inbox.specs.Inboxes.{hand_of, taker_at, IsTakerSeat, TakerOf};
    ghost use Rattle.split_inbox.specs.Sums.{sum_of};
    ghost use Rattle.split_inbox.specs.declared.TheConstants.{MOST_GRANTS};

    ghost Value = { TakerOf };

    ghost view = { λ a. taker_at a.pass.table_id a.takes (hand_of a.pass) };

    ghost invariant = { λ a. (a.pass.me.1 ≡ [])
        × IsTakerSeat (hand_of a.pass)
        × (a.rest.items ≡ [])
        × (sum_of (hand_of a.pass).quotas ≤ vec_capacity a.rest) };
}

impl<N: Names> Inbox<N> {
    /// The inbox of a processor with these tasks, the seat of each processor that posts to it, by rising number, of so
    /// many grants each, and the seat that takes.
    pub fn open(
        alloc: Global,
        tasks: &[TaskNo],
        quotas: &[u32],
    ) -> Result<(Inbox<N>, Vec<Poster<N>>, Taker<N>), NoMemory>
        requires { sum_of quotas.now ≤ MOST_GRANTS }
        ensures room { IfOk result (λ r. r.0.room ≡ room_for quotas.now) }
        ensures posters { IfOk result (λ r. r.1.items ≡ fresh_posters r.0.table (numbers tasks.now)
            quotas.now (length quotas.now)) }
        ensures taker { IfOk result (λ r.
            r.2 ≡ fresh_taker r.0.table (numbers tasks.now) quotas.now) }
    {
        let room = sum(quotas);
        let rest = with_room(alloc, room as usize)?;
        let (queue, mut seat) = new_queue(alloc, room)?;
        let taker = begin::<N, Brand>(&queue, &mut seat, tasks, quotas);
        let posters = new_posters(alloc, &queue, seat, tasks, quotas)?;
        Ok((
            Inbox { queue },
            posters,
            Taker {
                pass: taker,
                takes: 0,
                rest,
            },
        ))
    }

    /// Posts a grant of the seat's processor, the next one, to a task of the inbox, within its quota, with a greater
    /// number than each of the same semaphore that it has posted. It may wait for another thread that posts, and the
    /// call need not return.
    pub fn post<R: Wait>(&self, rt: &R, seat: &mut Poster<N>, grant: Grant<N>)
        requires inbox { seat.old.inbox ≡ self.now }
        requires from { grant.claim.from ≡ seat.old.cpu }
        requires seq { grant.claim.seq ≡ length seat.old.posted }
        requires task { has grant.claim.task seat.old.tasks ≡ true }
        requires quota { length seat.old.posted < slice_index seat.old.quotas seat.old.cpu }
        requires rising { AreBelow grant.claim.no (nos_of grant.claim.sem seat.old.posted) }
        ensures { seat.new ≡ record seat.old { posted = seat.old.posted ++ grant.claim ∷ [] } }
    {
        match self.queue.push_as::<Post, R>(rt, &mut seat.pass, grant) {
            Ok(()) => {}
            Err(_) => unreachable!(),
        }
    }

    /// Takes the grant that waits longest, if there is one. It names a task of the inbox, and of the grants of one
    /// poster and one semaphore the numbers rise in all that was taken. It may wait for another thread that posts, and
    /// the call need not return.
    pub fn take<R: Wait>(&self, rt: &R, seat: &mut Taker<N>) -> Option<Grant<N>>
        requires { seat.old.inbox ≡ self.now }
        ensures none { IfNone result
            (seat.new ≡ record seat.old { takes = count_on seat.old.takes }) }
        ensures some { IfSome result (λ g. seat.new ≡ record seat.old {
          takes = count_on seat.old.takes;
          taken = seat.old.taken ++ g.claim ∷ [];
        }) }
        ensures task { IfSome result (λ g. has g.claim.task seat.old.tasks ≡ true) }
        ensures rising { AreRising seat.new.taken }
    {
        seat.takes = seat.takes.saturating_add(1);
        self.queue.pop_as::<Take, R>(rt, &mut seat.pass)
    }

    /// What is left, in order: of each poster that is handed in what was taken and then what is left are what it
    /// posted. The call takes no memory; it may wait for another thread that posts, and need not return.
    pub fn close<R: Wait>(self, rt: &R, posters: Vec<Poster<N>>, taker: Taker<N>) -> Vec<Grant<N>>
        requires taker { taker.inbox ≡ self }
        requires posters { All (λ p. p.inbox ≡ self) posters.items }
        ensures all { All (λ p. p.posted ≡ of_poster p.cpu
            (taker.taken ++ map claim_of result.items)) posters.items }
        ensures tasks { AreNamed taker.tasks (map claim_of result.items) }
        ensures rising { AreRising (taker.taken ++ map claim_of result.items) }
    {
        let Taker {
            mut pass,
            takes: _,
            rest,
        } = taker;
        gather(&self.queue, &mut pass, posters);
        drain(rt, &self.queue, &mut pass, rest)
    }
}

fn sum(quotas: &[u32]) -> u32
    requires { sum_of quotas.now ≤ MOST_GRANTS }
    ensures { result ≡ sum_of quotas.now }
{
    let mut sum = 0;
    for quota in quotas {
        sum += *quota;
    }
    sum
}

fn with_room<N: Names>(alloc: Global, room: usize) -> Result<Vec<Grant<N>>, NoMemory>
    ensures { IfOk result (λ v. (v.items ≡ []) × (room ≤ vec_capacity v)) }
{
    Ok(Vec::with_capacity(alloc, room)?)
}

// A queue for so many grants, or for one where there are none.
fn new_queue<N: Names>(alloc: Global, room: u32) -> Result<(Queue<N>, Seat<N>), NoMemory>
    ensures room { IfOk result (λ r. (inbox_of r.0).room ≡ (if room == 0 then 1 else room)) }
    ensures seat { IfOk result (λ r. IsPassOf r.0 r.1 × (hand_of r.1 ≡ blank)) }
{
    let room = if room == 0 { 1 } else { room as usize };
    Ok(RuledArrayQueue::ruled(alloc, room)?)
}

// Says whose inbox it is. The seat then makes those of the posters, and the answer is the taker's.
fn begin<N: Names, K: Plan>(
    queue: &Queue<N>,
    seat: &mut Seat<N>,
    tasks: &[TaskNo],
    quotas: &[u32],
) -> Seat<N>
    requires queue { IsPassOf queue.now seat.old }
    requires blank { hand_of seat.old ≡ blank }
    requires plan { (numbers tasks.now ≡ K.tasks) × (quotas.now ≡ K.quotas) }
    ensures queue { IsSamePass seat.old seat.new × IsPassOf queue.now result }
    ensures seat { hand_of seat.new ≡ maker (numbers tasks.now) quotas.now 0 }
    ensures taker { hand_of result ≡ new_taker (numbers tasks.now) quotas.now }
{
    let _ = tasks;
    let _ = quotas;
    queue.another::<Begin<K>>(seat)
}

// The seats of the posters, by rising number.
fn new_posters<N: Names>(
    alloc: Global,
    queue: &Queue<N>,
    mut seat: Seat<N>,
    tasks: &[TaskNo],
    quotas: &[u32],
) -> Result<Vec<Poster<N>>, NoMemory>
    requires queue { IsPassOf queue.now seat }
    requires seat { hand_of seat ≡ maker (numbers tasks.now) quotas.now 0 }
    ensures { IfOk result (λ v. v.items ≡ fresh_posters (inbox_of queue.now).table
        (numbers tasks.now) quotas.now (length quotas.now)) }
{
    let _ = tasks;
    let mut posters = Vec::new(alloc);
    for _ in 0..quotas.len() {
        let pass = queue.another::<Next>(&mut seat);
        add(&mut posters, pass)?;
    }
    Ok(posters)
}

fn add<N: Names>(posters: &mut Vec<Poster<N>>, pass: Seat<N>) -> Result<(), NoMemory>
    requires { (pass.me.1 ≡ []) × IsPosterSeat (hand_of pass) }
    ensures { IfOk result (λ _. posters.new.items ≡
        posters.old.items ++ poster_at pass.table_id (hand_of pass) ∷ []) }
{
    Ok(posters.push(Poster { pass })?)
}
