//! What a valid setup says of its groups and of its numbers. Each function has a law as its contract, and does nothing.

ghost use Rattle.rt_plays.specs.Limits.{SetsAreInLimits};
ghost use Rattle.rt_plays.specs.AtHome.{GroupsAreCounted, ProcessorsAreAtHome, TasksAreAtHome};

/// The numbers of a valid setup are within the limits.
pub fn sets_are_in_limits()
    ensures { SetsAreInLimits }
{}

/// The groups of a valid setup are numbered from 0 on, without a gap.
pub fn groups_are_counted()
    ensures { GroupsAreCounted }
{}

/// The cluster of a group's processor is of the group, and the processor is one of that cluster.
pub fn processors_are_at_home()
    ensures { ProcessorsAreAtHome }
{}

/// The cluster of a group's task is of the group.
pub fn tasks_are_at_home()
    ensures { TasksAreAtHome }
{}
