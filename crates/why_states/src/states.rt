//! The lines of a state.
ghost use Rattle.std.specs.Prelude.{◌≡◌, ◌++◌, OnOk};
ghost use Rattle.rt_model.specs.Past.{Past};
ghost use Rattle.why_texts.specs.StateText.{state_text};
ghost use Rattle.why_states.specs.States.{IsAt, group_of};

use crate::clusters::put_clusters;
use crate::resvs::put_resvs;
use crate::sems::put_sems;
use crate::state::State;
use crate::tasks::put_tasks;
use rt_base::NoMemory;
use std::alloc::Global;
use why_lines::put_clock_line;

/// The lines of a state: its clock, clusters, semaphores, reservations and tasks.
#[tactic(auto, using(std::proofs::Common::append_assoc))]
pub fn put_state(alloc: Global, out: &mut Vec<u8>, state: &State) -> Result<(), NoMemory>
    requires { (past : Past) × IsAt past state.now }
    ensures { OnOk result ((past : Past) → IsAt past state.now → out.new.items
        ≡ out.old.items ++ state_text (group_of state.now) past) }
{
    put_clock_line(out, state.clock)?;
    put_clusters(alloc, out, state)?;
    put_sems(alloc, out, state)?;
    put_resvs(out, state)?;
    put_tasks(alloc, out, state)
}
