//! The list of requests of a past, with the critical sections that each saw end, and what one entry makes of it: each function has a law as its contract, and does nothing.

ghost use Rattle.rt_changes.specs.CountLaws.{OpensEmpty, EntryFeeds, WaitingListsWait};
ghost use Rattle.rt_changes.specs.OpenLaws.{WaitingHasOpen, OpenIsNewest, ClosedStaysClosed, ClosesByGrant, CountsItsOwn, CountsOthers, SeenWithinBound, HolderHasNone, WaitingOnce};

/// Before any entry there is no request, and a move of the clock changes none.
pub fn opens_empty()
    ensures { OpensEmpty }
{}

/// One entry makes of the list what the longer past has.
pub fn entry_feeds()
    ensures { EntryFeeds }
{}

/// The tasks that wait for a semaphore are those on its waiting list.
pub fn waiting_lists_wait()
    ensures { WaitingListsWait }
{}

/// Each waiting task has an open request for the semaphore that it waits for.
pub fn waiting_has_open()
    ensures { WaitingHasOpen }
{}

/// The open requests of a semaphore are the newest ones of the tasks on its waiting list.
pub fn open_is_newest()
    ensures { OpenIsNewest }
{}

/// A request that is not open, once it was asked, is never open again.
pub fn closed_stays_closed()
    ensures { ClosedStaysClosed }
{}

/// A request that is open no longer has been granted.
pub fn closes_by_grant()
    ensures { ClosesByGrant }
{}

/// Who holds a semaphore has no open request for it.
pub fn holder_has_none()
    ensures { HolderHasNone }
{}

/// No task stands twice on a waiting list.
pub fn waiting_once()
    ensures { WaitingOnce }
{}

/// An Unlock of one semaphore leaves the counts of the requests for another one, whatever it grants.
pub fn counts_its_own()
    ensures { CountsItsOwn }
{}

/// Each end that is counted is another task's.
pub fn counts_others()
    ensures { CountsOthers }
{}

/// Each request has seen at most as many ends while its task was priority-blocked as its bound says, and under FMLP at most as many in all.
pub fn seen_within_bound()
    ensures { SeenWithinBound }
{}
