//! The state of one partition of a split run: its clock, its jobs and what its processor runs, and what each of its tasks
//! holds and waits for.
#![tactic(auto)]

ghost use Rattle.part_state.specs.Entries.{HeldIsKnown, KeptAfterEntry};
ghost use Rattle.part_state.specs.Keeping.{KeptAfterAct, KeptAfterClock, KeptAfterTake, KeptAtOpening, StateStays};
ghost use Rattle.part_state.specs.Reading.{CanBeRead, LinkIsRead, TasksAreRead};
ghost use Rattle.part_state.specs.Replies.{ReplyIsRead};

mod locks;
mod reads;
mod replies;
mod state;

pub use locks::TaskLock;
pub use replies::PartReply;
pub use state::PartState;

/// What is kept at the opening is of the past with no move.
pub fn kept_at_opening()
    ensures { KeptAtOpening }
{}

/// What is kept after a move of the clock is of the past with that move.
pub fn kept_after_clock()
    ensures { KeptAfterClock }
{}

/// What is kept after an act is of the past with that act.
pub fn kept_after_act()
    ensures { KeptAfterAct }
{}

/// What is kept after a grant is taken is of the past with that grant.
pub fn kept_after_take()
    ensures { KeptAfterTake }
{}

/// Of each task the key that is read is its effective key, and it may run where it is eligible.
pub fn tasks_are_read()
    ensures { TasksAreRead }
{}

/// The link that is read of the tasks of a partition is its processor's.
pub fn link_is_read()
    ensures { LinkIsRead }
{}

/// What an act comes to is what the definitions say, however the task's request at the semaphore is answered.
pub fn reply_is_read()
    ensures { ReplyIsRead }
{}

/// Of each task of the group all can be read, within the limits of steps and of ticks.
pub fn can_be_read()
    ensures { CanBeRead }
{}

/// What is kept after an entry of a legal history is of the past with that entry.
pub fn kept_after_entry()
    ensures { KeptAfterEntry }
{}

/// What is held in a legal history are semaphores of the set.
pub fn held_is_known()
    ensures { HeldIsKnown }
{}

/// An act that is refused leaves what is kept, and so does a tick.
pub fn state_stays()
    ensures { StateStays }
{}
