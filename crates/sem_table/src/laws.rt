//! What is kept of a group's semaphores is what the rules say of its past. Each function has a law as its contract, and
//! does nothing.

ghost use Rattle.sem_table.specs.Keeping.{NewKeeps, QuietKeeps, AskKeeps, ReleaseKeeps, NewRows, QuietRows, AskRows, ReleaseRows};
ghost use Rattle.sem_table.specs.Fitting.{AskFits, ReleaseFits, AskIsKnown, ReleaseIsKnown};
ghost use Rattle.sem_table.specs.Telling.{TellsState, GrantsAsRules, TellsOwner, TellsServed, TellsWaiters, WaitersAreFew, TellsWaits, TellsLast, TellsPassing};

/// A move that does nothing at a semaphore leaves all of them.
pub fn quiet_keeps()
    ensures { QuietKeeps }
{}

/// A request with the task's base key makes of them what an accepted Lock does.
pub fn ask_keeps()
    ensures { AskKeeps }
{}

/// A release makes of them what an accepted Unlock does.
pub fn release_keeps()
    ensures { ReleaseKeeps }
{}

/// At first they are those of the opening.
pub fn new_keeps()
    ensures { NewKeeps }
{}

/// Whenever a Lock is accepted, a request with the task's base key is allowed.
pub fn ask_fits()
    ensures { AskFits }
{}

/// Whenever an Unlock is accepted, a release is allowed.
pub fn release_fits()
    ensures { ReleaseFits }
{}

/// What is told of a semaphore is what the rules say of it.
pub fn tells_state()
    ensures { TellsState }
{}

/// A request is granted where the rules grant it.
pub fn grants_as_rules()
    ensures { GrantsAsRules }
{}

/// At first nobody holds or waits.
pub fn new_rows()
    ensures { NewRows }
{}

/// A move that does nothing at a semaphore leaves what tasks hold and wait for.
pub fn quiet_rows()
    ensures { QuietRows }
{}

/// A request makes of it what an accepted Lock does.
pub fn ask_rows()
    ensures { AskRows }
{}

/// A release makes of it what an accepted Unlock does.
pub fn release_rows()
    ensures { ReleaseRows }
{}

/// Whom the waiting tasks of a semaphore wait for is its owner.
pub fn tells_owner()
    ensures { TellsOwner }
{}

/// The tasks that wait for the owner of a semaphore are those of the rules.
pub fn tells_waiters()
    ensures { TellsWaiters }
{}

/// Those that wait for a semaphore, and those that wait for its owner, are tasks of the group, each once, so that a
/// list with room for all its tasks has room for them.
pub fn waiters_are_few()
    ensures { WaitersAreFew }
{}

/// Whom a task waits for is the one of the rules.
pub fn tells_waits()
    ensures { TellsWaits }
{}

/// The PCP or SRP semaphore that a task was granted last is the one of the rules.
pub fn tells_last()
    ensures { TellsLast }
{}

/// A task passes the test of SRP where it does by the rules.
pub fn tells_passing()
    ensures { TellsPassing }
{}

/// A release grants a semaphore to the task that the accepted Unlock serves, and to no other.
pub fn tells_served()
    ensures { TellsServed }
{}

/// Whenever a Lock is accepted, its task and its semaphore are known, and the task waits for nothing.
pub fn ask_is_known()
    ensures { AskIsKnown }
{}

/// Whenever an Unlock is accepted, its task and its semaphore are known.
pub fn release_is_known()
    ensures { ReleaseIsKnown }
{}
