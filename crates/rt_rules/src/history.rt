//! Replies to steps, the entries of a group's history, and what a processor's next act depends on.
use rt_base::TaskNo;
use rt_task::Step;

/// What a step is answered. The first five are accepted; the others refuse the act, and change nothing but the clock and the history.
#[derive(Clone, Copy, Debug, PartialEq, Eq)]
pub enum Reply {
    /// The act was done.
    Done,
    /// An interrupt: the processor runs this task from now on.
    Runs(TaskNo),
    /// An interrupt: the processor runs nothing from now on.
    Idles,
    /// A Lock: the task holds the semaphore.
    Granted,
    /// A Lock: the task waits.
    Queued,
    /// An interrupt: none is pending.
    Quiet,
    /// An interrupt: what runs is non-preemptive.
    Deferred,
    /// An operation: the processor runs nothing.
    Idle,
    /// Work: the processor's last accepted Work was at this clock.
    Spent,
    /// Work: the budget of the task's reservation is used up.
    NoBudget,
    /// A Lock: the task does not declare the semaphore.
    NotDeclared,
    /// A Lock: the job holds a semaphore beside which it may not ask for this one.
    Nested,
    /// An Unlock: the task does not hold the semaphore.
    NotHeld,
    /// An Unlock: the task was granted another PCP semaphore after this one, and holds it.
    NotLast,
    /// A Sleep or an End: the job holds a semaphore.
    Holding,
    /// The operation is none for a non-preemptive job.
    InNp,
    /// An NpOff: the job is not non-preemptive.
    NotInNp,
    /// An arrival: the phase, or a period since the last arrival, is not over.
    TooEarly,
    /// An arrival: the task is periodic.
    NotSporadic,
}

/// One entry of a history: a step, and what it was answered.
#[derive(Clone, Copy, PartialEq, Eq)]
pub struct Entry {
    pub step: Step,
    pub reply: Reply,
}

/// What a processor's next act depends on.
#[derive(Clone, Copy, PartialEq, Eq)]
pub struct Situation {
    /// What the processor runs.
    pub runs: Option<TaskNo>,
    /// How many operations that job has done; 0 where nothing runs.
    pub at: u32,
    /// Whether that job is non-preemptive.
    pub np: bool,
    /// Whether an interrupt is pending at the processor.
    pub pending: bool,
    /// Whether the processor's last accepted Work was at this clock.
    pub worked: bool,
    /// False exactly where the plugin is P-RES, something runs, and its reservation has no budget left.
    pub budget: bool,
}
