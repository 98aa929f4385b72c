//! What one move changes: which tasks' facts and eligibility, and how rankings and links are kept by looking at those
//! tasks alone. Each function has a law as its contract, and does nothing.

ghost use Rattle.ready_queue.specs.Refreshed.{RankingIsRefreshed};
ghost use Rattle.ready_queue.specs.ReadySet.{SetIsRefreshed, FirstAreTheRanking, SetIsRestored};
ghost use Rattle.rt_changes.specs.Touched.{ActsTouchFew, ClockKeepsJobs, ClockTouchesDue};
ghost use Rattle.rt_changes.specs.Eligibility.{QuietKeepsSems, EligibleAfterAct, EligibleAfterClock};
ghost use Rattle.rt_changes.specs.Clusters.{RankingIsKept, TopIsTaken, LinksSettle, LinksStay, ClusterStays};
ghost use Rattle.rt_changes.specs.Clusters.{RunsStay, OtherClustersStay};
ghost use Rattle.rt_changes.specs.Served.{EligibleIsServed, AtMostTwoChange, KeysAreFixed, ReservationsAfterAct};
ghost use Rattle.rt_changes.specs.Served.{ReservationsAfterClock};
ghost use Rattle.rt_changes.specs.Fronts.{FrontIsFirst};
ghost use Rattle.rt_changes.specs.Quiet.{KeysAfterQuiet, StandingAfterAct, StandingAfterClock};
ghost use Rattle.rt_changes.specs.ClusterMoves.{RankingAfterMove, SetAfterMove, ClusterAfterQuietAct};
ghost use Rattle.rt_changes.specs.ClusterMoves.{ClusterAfterClock, StandingIsServed, ClientsShareHome};
ghost use Rattle.rt_changes.specs.ClusterMoves.{ReservedAfterAct, ReservedAfterClock};

/// The ranking by new keys and tests is the old one, with the tasks that were touched taken out and put back.
pub fn ranking_is_refreshed()
    ensures { RankingIsRefreshed }
{}

/// A set of just the tasks that pass stays one where the tasks that were touched are put in, taken out or given their
/// keys.
pub fn set_is_refreshed()
    ensures { SetIsRefreshed }
{}

/// The tasks that are taken out of such a set as its first, one after the other, are the first of the ranking.
pub fn first_are_the_ranking()
    ensures { FirstAreTheRanking }
{}

/// An act changes no fact of a task but of the one that its processor runs and of the one that arrives; where it is
/// refused, of none.
pub fn acts_touch_few()
    ensures { ActsTouchFew }
{}

/// A move of the clock changes nothing that is counted of a task, nor its release.
pub fn clock_keeps_jobs()
    ensures { ClockKeepsJobs }
{}

/// A move of the clock changes whether a task is ready only where its release or the end of its sleep comes in it.
pub fn clock_touches_due()
    ensures { ClockTouchesDue }
{}

/// A move that neither asks for a semaphore nor frees one leaves every semaphore, and what each task waits for.
pub fn quiet_keeps_sems()
    ensures { QuietKeepsSems }
{}

/// Without reservations an act leaves the eligibility of a task that it does not touch and that waits for what it
/// waited for.
pub fn eligible_after_act()
    ensures { EligibleAfterAct }
{}

/// Without reservations a move of the clock leaves the eligibility of a task whose release or end of sleep does not
/// come in it.
pub fn eligible_after_clock()
    ensures { EligibleAfterClock }
{}

/// The ranking of a cluster is kept by taking out the touched tasks and putting back those that are eligible now.
pub fn ranking_is_kept()
    ensures { RankingIsKept }
{}

/// The tasks that are taken as the first of a set of just the eligible tasks of a cluster are its top.
pub fn top_is_taken()
    ensures { TopIsTaken }
{}

/// Placing the links again changes none.
pub fn links_settle()
    ensures { LinksSettle }
{}

/// A move that leaves the top of a cluster and what runs there leaves its links.
pub fn links_stay()
    ensures { LinksStay }
{}

/// A move that leaves the standing of each task of a cluster and what runs there leaves its ranking, its top and its
/// links.
pub fn cluster_stays()
    ensures { ClusterStays }
{}

/// What runs in a cluster is changed by acts of its own processors alone.
pub fn runs_stay()
    ensures { RunsStay }
{}

/// Without reservations an act of another cluster leaves a cluster where it leaves what its tasks wait for and their
/// keys.
pub fn other_clusters_stay()
    ensures { OtherClustersStay }
{}

/// Under P-RES a task is eligible exactly where it is the front client of its reservation, and budget is left.
pub fn eligible_is_served()
    ensures { EligibleIsServed }
{}

/// Under P-RES the eligibility of at most two clients of a reservation differs in two pasts: those that it serves.
pub fn at_most_two_change()
    ensures { AtMostTwoChange }
{}

/// Under P-RES no key depends on the past.
pub fn keys_are_fixed()
    ensures { KeysAreFixed }
{}

/// An act leaves the front client and the budget of each reservation of which it touches no client.
pub fn reservations_after_act()
    ensures { ReservationsAfterAct }
{}

/// A move of the clock leaves the front client and the budget of each reservation that it does not refill, and of which
/// no client comes due.
pub fn reservations_after_clock()
    ensures { ReservationsAfterClock }
{}

/// A move that neither asks for a semaphore nor frees one changes the effective key of a task only where it changes its
/// base key.
pub fn keys_after_quiet()
    ensures { KeysAfterQuiet }
{}

/// Without reservations such an act leaves the eligibility and the key of each task that it does not touch.
pub fn standing_after_act()
    ensures { StandingAfterAct }
{}

/// Without reservations a move of the clock leaves the eligibility and the key of each task that does not come due.
pub fn standing_after_clock()
    ensures { StandingAfterClock }
{}

/// A set from which tasks were taken out holds the same again once each is put back.
pub fn set_is_restored()
    ensures { SetIsRestored }
{}

/// The ranking of a cluster after a move: the tasks whose standing changed are taken out, and put back where they are
/// eligible now.
pub fn ranking_after_move()
    ensures { RankingAfterMove }
{}

/// The same of a set of just the eligible tasks of a cluster.
pub fn set_after_move()
    ensures { SetAfterMove }
{}

/// Without reservations an act of another cluster leaves a cluster where it does nothing at semaphores.
pub fn cluster_after_quiet_act()
    ensures { ClusterAfterQuietAct }
{}

/// Without reservations a move of the clock leaves a cluster of which no task comes due.
pub fn cluster_after_clock()
    ensures { ClusterAfterClock }
{}

/// Under P-RES a task whose reservation has the same front client and budget has the same standing.
pub fn standing_is_served()
    ensures { StandingIsServed }
{}

/// Under P-RES the clients of a reservation are of one cluster.
pub fn clients_share_home()
    ensures { ClientsShareHome }
{}

/// Under P-RES an act of another cluster leaves a cluster.
pub fn reserved_after_act()
    ensures { ReservedAfterAct }
{}

/// Under P-RES a move of the clock leaves a cluster none of whose reservations is refilled or has a client that comes
/// due.
pub fn reserved_after_clock()
    ensures { ReservedAfterClock }
{}

/// The first of a set of just the ready clients of a reservation, by release, is its front client.
pub fn front_is_first()
    ensures { FrontIsFirst }
{}
