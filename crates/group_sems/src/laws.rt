//! What is kept of a group's semaphores and of the keys of its tasks is what the rules say of its past. Each function has
//! a law as its contract, and does nothing.
ghost use Rattle.group_sems.specs.Fitting.{LockFits, UnlockFits};
ghost use Rattle.group_sems.specs.Keeping.{BasesAreKept, BasesAreTold, LockIsKept, OpeningIsKept, QuietIsKept, UnlockIsKept};
ghost use Rattle.group_sems.specs.Leaving.{LockLeaves, QuietLeaves, UnlockLeaves};
ghost use Rattle.group_sems.specs.Reading.{GrantIsRead, HolderIsRead, HoldingIsRead, KeyIsRead, LockRefusalIsRead, OwnerIsRead, PassingIsRead, ServedIsRead, UnlockRefusalIsRead};

/// At first nobody holds, waits or is boosted.
pub fn opening_is_kept()
    ensures { OpeningIsKept }
{}

/// Once the base keys of all tasks were told they are kept.
pub fn bases_are_told()
    ensures { BasesAreTold }
{}

/// A move leaves the base keys but of the tasks whose jobs it renews.
pub fn bases_are_kept()
    ensures { BasesAreKept }
{}

/// A move that does nothing at a semaphore leaves all else.
pub fn quiet_is_kept()
    ensures { QuietIsKept }
{}

/// A lock with the task's base key makes of it what an accepted Lock does.
pub fn lock_is_kept()
    ensures { LockIsKept }
{}

/// An unlock makes of it what an accepted Unlock does.
pub fn unlock_is_kept()
    ensures { UnlockIsKept }
{}

/// What a lock rests on holds whenever a Lock is accepted.
pub fn lock_fits()
    ensures { LockFits }
{}

/// What an unlock rests on holds whenever an Unlock is accepted.
pub fn unlock_fits()
    ensures { UnlockFits }
{}

/// The effective key of each task is read off.
pub fn key_is_read()
    ensures { KeyIsRead }
{}

/// So is why a task may not ask for a semaphore.
pub fn lock_refusal_is_read()
    ensures { LockRefusalIsRead }
{}

/// So is why it may not free one.
pub fn unlock_refusal_is_read()
    ensures { UnlockRefusalIsRead }
{}

/// So is whether it holds nothing, and whether it waits.
pub fn holding_is_read()
    ensures { HoldingIsRead }
{}

/// So is whether it passes the test of SRP.
pub fn passing_is_read()
    ensures { PassingIsRead }
{}

/// So is who holds a semaphore.
pub fn holder_is_read()
    ensures { HolderIsRead }
{}

/// So is its owner.
pub fn owner_is_read()
    ensures { OwnerIsRead }
{}

/// So is whether a request is granted.
pub fn grant_is_read()
    ensures { GrantIsRead }
{}

/// So is whom a release serves.
pub fn served_is_read()
    ensures { ServedIsRead }
{}

/// A move that does nothing at a semaphore leaves the wait and the key of each task whose job it does not renew.
pub fn quiet_leaves()
    ensures { QuietLeaves }
{}

/// An accepted Lock leaves those of each other task but the owners.
pub fn lock_leaves()
    ensures { LockLeaves }
{}

/// An accepted Unlock leaves those of each other task but the owners and the one that is served.
pub fn unlock_leaves()
    ensures { UnlockLeaves }
{}
