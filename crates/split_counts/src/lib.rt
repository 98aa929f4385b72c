//! How far the script of a partition bounds what it does: that there is room for a further entry in a semaphore's history, and
//! for a further grant in an inbox. Each function has a law as its contract, and does nothing.
#![tactic(auto)]

ghost use Rattle.split_counts.specs.Room.{EntriesHaveRoom, FreedAreUnlocks, PostedAreFreed, PostsHaveRoom};

/// A partition freed semaphores at most as often as the steps that it has played unlock one.
pub fn freed_are_unlocks()
    ensures { FreedAreUnlocks }
{}

/// While a step comes that locks or unlocks a semaphore, the processor has fewer entries in its history than such steps.
pub fn entries_have_room()
    ensures { EntriesHaveRoom }
{}

/// A partition has posted at most as many grants to each other as it freed semaphores.
pub fn posted_are_freed()
    ensures { PostedAreFreed }
{}

/// While a step comes that unlocks a semaphore, a partition has posted fewer grants to each other than its script has such steps.
pub fn posts_have_room()
    ensures { PostsHaveRoom }
{}
