//! The rules of a set, tried row by row.
ghost use Rattle.std.specs.Prelude.{◌≡◌, Some};
ghost use Rattle.rt_task.specs.Refusals.{bad};
ghost use Rattle.rt_task.specs.Answers.{Keeps, StopsAt};
ghost use Rattle.rt_task.specs.Validity.{refusal, whole_refusal};

mod bodies;
mod ends;
mod fmlp;
mod name;
mod range;
mod seen;
mod shape;
mod sharing;
mod size;
mod slots;
mod spread;
mod tables;

pub use bodies::is_well_formed;
pub use ends::ends_of;
pub use name::{
    act_is_known, are_without_repeat, is_known, is_name, pieces_are_known, resv_is_known,
    uses_are_known,
};
pub use range::{
    act_in_range, allows_clusters, horizon_in_range, is_partitioned, is_prio, is_span,
    pieces_in_range,
};
use rt_task::{BadSet, Draft, Part, Place, SetKind, SetStop};
pub use shape::has_horizon;
pub use sharing::{act_is_in_group, is_of_one_cluster, is_p_res, resv_fits, stands_under};
pub use size::{body_fits, horizon_fits};
pub use slots::{may_have, slots_in_range};
use std::alloc::Global;

/// The refusal at an element, or of memory where its index has no 32 bits.
fn stop(kind: SetKind, part: Part, index: usize) -> SetStop
    ensures { StopsAt result (Some (bad kind part index)) }
{
    if index > 4_294_967_295 {
        return SetStop::NoMemory;
    }
    SetStop::Bad(BadSet {
        kind,
        place: Place {
            part,
            index: index as u32,
        },
    })
}

#[tactic(auto, unfolding(rt_task::specs::Validity::refusal))]
fn try_later_rules(alloc: Global, d: &Draft) -> Result<(), SetStop>
    ensures { Keeps result (refusal d.now) }
{
    range::check_ranges(d)?;
    name::check_names(alloc, d)?;
    sharing::check_sharing(alloc, d)?;
    size::check_sizes(d)
}

/// Tries each rule, in the order of their kinds.
#[tactic(auto, unfolding(rt_task::specs::Validity::whole_refusal))]
pub(crate) fn try_rules(alloc: Global, d: &Draft) -> Result<(), SetStop>
    ensures { Keeps result (whole_refusal d.now) }
{
    shape::check_shapes(d)?;
    try_later_rules(alloc, d)
}
