//! What is kept of jobs and processors, what each move makes of it, and what is read off it. Each function has a law as its
//! contract, and does nothing.

ghost use Rattle.group_jobs.specs.Words.{WordsAreRead};
ghost use Rattle.group_jobs.specs.FactMoves.{OperationIsCounted, ArrivalIsCounted, OthersCountNothing, OtherJobsStay};
ghost use Rattle.group_jobs.specs.FactMoves.{CpuIsCounted, RefusedStays, ClockStays};
ghost use Rattle.group_jobs.specs.Ways.{WaysAfterAct, WaysAfterClock, WaysAtOpening};
ghost use Rattle.group_jobs.specs.Kept.{KeptAtOpening, KeptAfterClock, KeptAfterAct, KeptAfterStep, KeptIsThere, WordsOfKept};
ghost use Rattle.group_jobs.specs.Replies.{ReplyIsRead, HeldIsRead};
ghost use Rattle.group_jobs.specs.Timers.{TimersAreRenewed, DueAreTakenOut, TimersAtOpening, TimersAfterAct, TimerStays, DueOneByOne};
ghost use Rattle.group_jobs.specs.Timers.{TimersAfterClock, TimerIsRead};
ghost use Rattle.group_jobs.specs.Situations.{SituationIsRead};
ghost use Rattle.group_jobs.specs.Bounds.{FactsAreBounded, WakesAreBounded};
ghost use Rattle.group_jobs.specs.DueTasks.{SetAfterDue, SetAfterQuiet, ReservationsAfterDue};

/// Releases, deadlines, base keys and whether a job is there, sleeps, is ready or is to end are read off the facts that are kept.
pub fn words_are_read()
    ensures { WordsAreRead }
{}

/// An accepted operation counts for the task that runs, and ends its job by an End or by force.
pub fn operation_is_counted()
    ensures { OperationIsCounted }
{}

/// An accepted arrival counts for the task that arrives, and ends no job.
pub fn arrival_is_counted()
    ensures { ArrivalIsCounted }
{}

/// A Tick and an interrupt count for no task, and end no job.
pub fn others_count_nothing()
    ensures { OthersCountNothing }
{}

/// An act changes no facts of a task that it does not touch.
pub fn other_jobs_stay()
    ensures { OtherJobsStay }
{}

/// An act changes the facts of its own processor by its reply and by whether it ended a job, and those of no other.
pub fn cpu_is_counted()
    ensures { CpuIsCounted }
{}

/// An act that is refused changes no facts.
pub fn refused_stays()
    ensures { RefusedStays }
{}

/// A move of the clock changes the clock alone.
pub fn clock_stays()
    ensures { ClockStays }
{}

/// What is kept at the opening is of the past with no move.
pub fn kept_at_opening()
    ensures { KeptAtOpening }
{}

/// What is kept after a move of the clock is of the past with that move.
pub fn kept_after_clock()
    ensures { KeptAfterClock }
{}

/// At the opening no task is under way.
pub fn ways_at_opening()
    ensures { WaysAtOpening }
{}

/// A move of the clock leaves which tasks are under way.
pub fn ways_after_clock()
    ensures { WaysAfterClock }
{}

/// Which tasks are under way after an act: an interrupt starts the task that its processor then runs, and an operation that
/// ends the job or puts it to sleep ends it.
pub fn ways_after_act()
    ensures { WaysAfterAct }
{}

/// What is kept after an act is of the past with that act.
pub fn kept_after_act()
    ensures { KeptAfterAct }
{}

/// Each reply is read off what is kept, the processor's link, the budget that is left and what the semaphores say.
pub fn reply_is_read()
    ensures { ReplyIsRead }
{}

/// Whether a task holds nothing, and how many semaphores it holds, is read off any list of just those.
pub fn held_is_read()
    ensures { HeldIsRead }
{}

/// Where only the moments of some tasks change, those alone are armed anew.
pub fn timers_are_renewed()
    ensures { TimersAreRenewed }
{}

/// The tasks that are taken out as due, one after the other, are just those whose moment has come; the others wait on.
pub fn due_are_taken_out()
    ensures { DueAreTakenOut }
{}

/// At the opening each task is armed once.
pub fn timers_at_opening()
    ensures { TimersAtOpening }
{}

/// After an act the tasks that it touches are armed anew.
pub fn timers_after_act()
    ensures { TimersAfterAct }
{}

/// An operation but a Sleep leaves the moment that its task waits for, where the job goes on.
pub fn timer_stays()
    ensures { TimerStays }
{}

/// As the clock moves, the tasks that are taken out as due are just those that come due, no other task's readiness changes,
/// and they alone are armed anew.
pub fn timers_after_clock()
    ensures { TimersAfterClock }
{}

/// What is kept after a step, a move of the clock and an act, is of the past with that step.
pub fn kept_after_step()
    ensures { KeptAfterStep }
{}

/// At each past there is what is kept of it.
pub fn kept_is_there()
    ensures { KeptIsThere }
{}

/// What a processor's next act depends on is read off what is kept, the processor's link and the budget that is left.
pub fn situation_is_read()
    ensures { SituationIsRead }
{}

/// Counts are at most the number of acts, and moments of arrivals at most the clock.
pub fn facts_are_bounded()
    ensures { FactsAreBounded }
{}

/// A sleep ends at most the longest sleep after the clock.
pub fn wakes_are_bounded()
    ensures { WakesAreBounded }
{}

/// The words of the model are read off what is kept.
pub fn words_of_kept()
    ensures { WordsOfKept }
{}

/// What a task waits for is read off what is kept.
pub fn timer_is_read()
    ensures { TimerIsRead }
{}

/// Without reservations, as the clock moves, a set of just the eligible tasks of a cluster stays one where those that are due are
/// looked at again.
pub fn set_after_due()
    ensures { SetAfterDue }
{}

/// So does such a set after an act that does nothing at semaphores, where the tasks that it touches are looked at again.
pub fn set_after_quiet()
    ensures { SetAfterQuiet }
{}

/// As the clock moves each reservation stays of which no client is due and that is not refilled.
pub fn reservations_after_due()
    ensures { ReservationsAfterDue }
{}

/// The tasks that are due can be taken out one by one.
pub fn due_one_by_one()
    ensures { DueOneByOne }
{}
