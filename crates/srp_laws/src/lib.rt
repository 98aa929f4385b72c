//! The theorem of the stack resource policy (Baker, Real-Time Systems, 1991): a job that has begun is delayed by no job of lower
//! base key, and before it begins at most one critical section of a job of lower base key and no higher preemption level delays
//! it. Each function has a law as its contract, and does nothing.
#![tactic(auto)]

ghost use Rattle.srp_laws.specs.StackLaws.{BegunIsEligible, BegunIsNotOvertaken, DelayedOnce, DelayedReaches, OneReaches, ReachesDelayed, ReachesOvertaken};

/// A job that has begun, and did not sleep since, is eligible: it waits for nothing, and no test keeps it back.
pub fn begun_is_eligible()
    ensures { BegunIsEligible }
{}

/// While a job has begun, what runs in its place on its processor is a job of higher base key.
pub fn begun_is_not_overtaken()
    ensures { BegunIsNotOvertaken }
{}

/// At every moment at most one task whose preemption level is not above a task's holds a semaphore whose ceiling keeps that
/// task from beginning.
pub fn one_reaches()
    ensures { OneReaches }
{}

/// Where interrupts are taken before a lock, at most one critical section delays a job before it begins, of all those of
/// jobs of lower base key and no higher preemption level.
pub fn delayed_once()
    ensures { DelayedOnce }
{}

/// A job that is released and not linked, though no job of higher base key is eligible, is kept back by a held semaphore.
pub fn delayed_reaches()
    ensures { DelayedReaches }
{}

/// There is a valid set in which a critical section delays a job.
pub fn delayed_is_reached()
    ensures { ReachesDelayed }
{}

/// There is a valid set in which a job of lower base key, and of a higher preemption level, begins and runs while a job
/// is kept back: the test is of each job by itself.
pub fn overtaken_is_reached()
    ensures { ReachesOvertaken }
{}
