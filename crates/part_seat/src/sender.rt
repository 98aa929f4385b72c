//! The poster of a processor at an inbox, which counts what it posts.
ghost use Rattle.std.specs.Prelude.{◌≡◌, ◌<◌, ◌^◌, ◌++◌, ◌∷◌, [], true, length, slice_index};
ghost use Rattle.rt_rules.specs.Numbers.{has};
ghost use Rattle.split_inbox.specs.Grants.{claim, IsGrant};
ghost use Rattle.split_inbox.specs.Posting.{AreBelow, nos_of};

use crate::passed::Passed;
use rt_base::CpuNo;
use split_inbox::{Grant, Inbox, Names, Poster, SemBook};
use std::marker::Model;
use std::sync::Wait;
use turn_cell::TurnSeat;

/// The poster of a processor at an inbox. Contracts see the poster, with what it has posted.
#[derive(Drop)]
pub struct Sender<N: Names> {
    poster: Poster<N>,
    /// How many grants it has posted.
    count: u32,
}

impl<N: Names> Model for Sender<N> {
    ghost use Rattle.std.specs.Prelude.{◌≡◌, length};
    ghost use Rattle.split_inbox.specs.Inboxes.{PosterOf};

    ghost Value = { PosterOf };

    ghost view = { λ a. a.poster };

    ghost invariant = { λ a. a.count ≡ length a.poster.posted };
}

impl<N: Names> Sender<N> {
    /// The sender of a poster that has posted nothing.
    pub fn new(poster: Poster<N>) -> Sender<N>
        requires { poster.posted ≡ [] }
        ensures { result ≡ poster }
    {
        Sender { poster, count: 0 }
    }

    /// Posts what a release of its processor passed on, with a seat that has seen the release. It may wait for another
    /// thread that posts, and the call need not return.
    pub fn post<R: Wait>(
        &mut self,
        rt: &R,
        inbox: &Inbox<N>,
        cpu: CpuNo,
        passed: Passed,
        seen: TurnSeat<SemBook>,
    )
        requires inbox { self.old.inbox ≡ inbox.now }
        requires cpu { cpu.0 ≡ self.old.cpu }
        requires grant { IsGrant N.turns (record {
          claim = claim passed.sem.0 passed.no passed.task.0 cpu.0 (length self.old.posted);
          seen = seen;
        }) }
        requires task { has passed.task.0 self.old.tasks ≡ true }
        requires quota { length self.old.posted < slice_index self.old.quotas self.old.cpu }
        requires few { slice_index self.old.quotas self.old.cpu < 2 ^ 32 }
        requires rising { AreBelow passed.no (nos_of passed.sem.0 self.old.posted) }
        ensures { self.new ≡ record self.old {
          posted = self.old.posted
              ++ claim passed.sem.0 passed.no passed.task.0 cpu.0 (length self.old.posted) ∷ [];
        } }
    {
        let Passed { sem, no, task } = passed;
        let grant = Grant::new(sem, no, task, cpu, self.count, seen);
        self.count += 1;
        inbox.post(rt, &mut self.poster, grant);
    }

    /// The poster.
    pub fn into_poster(self) -> Poster<N>
        ensures { result ≡ self }
    {
        self.poster
    }
}
