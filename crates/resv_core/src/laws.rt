//! The laws of reservations: what is kept of each, call by call, is what the definitions say of the whole past. Each
//! function has a law as its contract, and does nothing.

ghost use Rattle.resv_core.specs.Kept.{MoveIsKept, MoveIsKeptInAnyOrder, OpeningIsKept, StateIsShown, WorkFindsBudget};
ghost use Rattle.resv_core.specs.Serving.{AllMovedAreServing, AllMovedInAnyOrder, AllOpenedAreServing};
ghost use Rattle.resv_core.specs.Serving.{AllOpenedInAnyOrder, ClientsAreListed, EachIsTold};
ghost use Rattle.resv_core.specs.Serving.{NobodyIsListed, WorkMayBeCharged};
ghost use Rattle.resv_core.specs.Tables.{LinkedInSlot, OneHasClock, OneHasLeft, TablesAreFollowed};

/// At the opening, once the ready clients are told and it is settled, the state is that of the empty past.
pub fn opening_is_kept()
    ensures { OpeningIsKept }
{}

/// The calls that a move brings, a tick or a charge, the clients that changed, and `settle`, make the state of a past
/// that of the longer past.
pub fn move_is_kept()
    ensures { MoveIsKept }
{}

/// So they do however the clients are told, once the releases are those of the longer past.
pub fn move_is_kept_in_any_order()
    ensures { MoveIsKeptInAnyOrder }
{}

/// An accepted Work of a client is charged to a reservation with a unit left.
pub fn work_finds_budget()
    ensures { WorkFindsBudget }
{}

/// The budget, the last refill and the front client that the state shows are those of the definitions.
pub fn state_is_shown()
    ensures { StateIsShown }
{}

/// At the opening of a group of a valid set under P-RES, the calls of `Resvs` make the state of all its reservations
/// that of the empty past.
pub fn all_opened_are_serving()
    ensures { AllOpenedAreServing }
{}

/// The calls of `Resvs` that a move brings make the state of all reservations that of the longer past.
pub fn all_moved_are_serving()
    ensures { AllMovedAreServing }
{}

/// So they do in whatever order the clients are told.
pub fn all_moved_in_any_order()
    ensures { AllMovedInAnyOrder }
{}

/// The opening makes it so too in whatever order the clients are told.
pub fn all_opened_in_any_order()
    ensures { AllOpenedInAnyOrder }
{}

/// The clients are told where each is whose readiness or release changed.
pub fn each_is_told()
    ensures { EachIsTold }
{}

/// At the opening no client is listed as ready.
pub fn nobody_is_listed()
    ensures { NobodyIsListed }
{}

/// As a move begins the ready clients are listed with their releases in the past before it.
pub fn clients_are_listed()
    ensures { ClientsAreListed }
{}

/// A task that does an accepted Work has a reservation that may be charged.
pub fn work_may_be_charged()
    ensures { WorkMayBeCharged }
{}

/// In a cluster with table reservations each linked task is a client of the one whose slot holds the clock, modulo the
/// cycle.
pub fn linked_in_slot()
    ensures { LinkedInSlot }
{}

/// No other reservation of the cluster has a slot that holds it.
pub fn one_has_clock()
    ensures { OneHasClock }
{}

/// At most one reservation of the cluster has anything left.
pub fn one_has_left()
    ensures { OneHasLeft }
{}

/// So tables are followed throughout: by the links, and by what is left.
pub fn tables_are_followed()
    ensures { TablesAreFollowed }
{}
