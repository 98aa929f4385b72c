//! What a release passed on, on its way to the inbox of the task's processor.
ghost use Rattle.std.specs.Prelude.{◌≡◌, ℕ, ◌<◌, ◌≤◌, ◌++◌, length, map};
ghost use Rattle.rt_model.specs.Group.{home};
ghost use Rattle.rt_plays.specs.Plays.{group_with};
ghost use Rattle.split_laws.specs.Counts.{count_steps};
ghost use Rattle.split_laws.specs.Parts.{Among};
ghost use Rattle.split_counts.specs.Room.{is_unlock};
ghost use Rattle.split_rules.specs.PartPast as rules;
ghost use Rattle.part_player.specs.Players.{own_script};
ghost use Rattle.part_seat.specs.AtTurns.{IsPassedAt};
ghost use Rattle.part_seat.specs.Partitions.{books_in, cells_of, group_of};
ghost use Rattle.part_seat.specs.Steps.{HasStepped};
ghost use Rattle.split_laws.specs.Posts.{HasPosted};
ghost use Rattle.part_seat.specs.PartSeats.{ArePosters, inboxes_of, passed_to, posted_in};

use crate::partition::Partition;
use crate::passed::{Passed, Played2};
use crate::sender::Sender;
use rt_base::TaskNo;
use rt_task::Parts;
use split_inbox::{Inbox, Names, SemBook};
use std::sync::Wait;
use turn_cell::Turn;

/// The processor of a task of a split set, each of whose clusters has one.
fn home_of(parts: &Parts, task: TaskNo) -> usize
    requires low { 1 ≤ task.0 }
    requires high { task.0 ≤ length parts.now.tasks }
    ensures { result ≡ home (group_with parts.now 0) task.0 }
{
    parts.tasks.as_slice()[task.0 as usize - 1].cluster.0 as usize
}

/// Posts what a release of the partition passed on to the inbox of the task's processor.
pub(crate) fn post<N: Names, R: Wait>(
    rt: &R,
    part: &mut Partition,
    senders: &mut [Sender<N>],
    turns: &[Turn<SemBook>],
    inboxes: &[Inbox<N>],
    passed: Passed,
)
    requires turns { map (λ t. t.cell) turns.now ≡ cells_of part.old.seats }
    requires names { cells_of part.old.seats ≡ N.turns }
    requires inboxes { inboxes.now ≡ inboxes_of senders.old }
    requires senders { ArePosters part.old.setup part.old.cpu senders.old }
    requires passed { IsPassedAt part.old.setup part.old.cpu part.old.seats passed }
    requires quota { (r : ℕ) → length (posted_in senders.old r)
        < count_steps is_unlock (own_script part.old.setup part.old.cpu) }
    requires rising { (r : ℕ) (k : rules.Claim) → Among k (posted_in senders.old r)
        → k.sem ≡ passed.sem.0 → k.no < passed.no }
    ensures part { part.new ≡ part.old }
    ensures senders { ArePosters part.old.setup part.old.cpu senders.new }
    ensures inboxes { inboxes_of senders.new ≡ inboxes_of senders.old }
    ensures posted { (r : ℕ) → posted_in senders.new r
        ≡ posted_in senders.old r ++ passed_to (group_of part.old) r passed }
{
    // A proof knows that the set is a split set once the history is read.
    let _entries = part.entries();
    let home = home_of(part.setup().parts(), passed.task);
    let cpu = part.cpu();
    let seen = part.spare(rt, turns, passed.sem);
    senders[home].post(rt, &inboxes[home], cpu, passed, seen);
}

/// Plays the next step of the partition's script, if one is left, and posts what it passes on.
pub(crate) fn play<N: Names, R: Wait>(
    rt: &R,
    part: &mut Partition,
    senders: &mut [Sender<N>],
    turns: &[Turn<SemBook>],
    inboxes: &[Inbox<N>],
) -> Played2
    requires room { 0 < part.old.room }
    requires turns { map (λ t. t.cell) turns.now ≡ cells_of part.old.seats }
    requires names { cells_of part.old.seats ≡ N.turns }
    requires inboxes { inboxes.now ≡ inboxes_of senders.old }
    requires senders { ArePosters part.old.setup part.old.cpu senders.old }
    requires posted { HasPosted (group_of part.old) part.old.cpu (books_in part.old.seats)
        (posted_in senders.old) }
    ensures step { HasStepped result part.old part.new }
    ensures senders { ArePosters part.new.setup part.new.cpu senders.new }
    ensures inboxes { inboxes_of senders.new ≡ inboxes_of senders.old }
    ensures posted { HasPosted (group_of part.new) part.new.cpu (books_in part.new.seats)
        (posted_in senders.new) }
{
    // A proof knows that the history is legal once it is read.
    let _entries = part.entries();
    let Some(played) = part.play(rt, turns) else {
        return Played2::Ended;
    };
    match played.passed {
        None => {}
        Some(passed) => post(rt, part, senders, turns, inboxes, passed),
    }
    Played2::Did(played.entry)
}
