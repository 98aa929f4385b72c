//! The laws of what is kept of reservations. Each function has a law as its contract, and does nothing.
ghost use Rattle.group_resvs.specs.Laws.{MoveIsKept, OpeningIsKept, ResvsAreRead, WorkHasUnit};

/// The opening, once its clients are told and it is settled, is kept as the definitions have it, and the tasks that are
/// listed as changed are all whose being served it changes.
pub fn opening_is_kept()
    ensures { OpeningIsKept }
{}

/// So is each move.
pub fn move_is_kept()
    ensures { MoveIsKept }
{}

/// Which task is served, and whether its reservation has budget left, is as the definitions say.
pub fn resvs_are_read()
    ensures { ResvsAreRead }
{}

/// A task that does an accepted Work has a unit left.
pub fn work_has_unit()
    ensures { WorkHasUnit }
{}
