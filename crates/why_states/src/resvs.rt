//! The lines of the reservations.
ghost use Rattle.std.specs.Prelude.{◌≡◌, ◌++◌, OnOk, flat_map, option_map, true};
ghost use Rattle.rt_base.specs.declared.Tick as ticks;
ghost use Rattle.rt_rules.specs.Numbers.{has};
ghost use Rattle.rt_model.specs.Past.{Past};
ghost use Rattle.chart_texts.specs.Charts.{group_resvs};
ghost use Rattle.why_texts.specs.ResvLines.{resv_line};
ghost use Rattle.why_states.specs.States.{IsAt, group_of};

use crate::state::State;
use rt_base::{NoMemory, ResvNo, Tick};
use why_lines::put_resv_line;

/// A clock as a number.
fn number_of(tick: Option<Tick>) -> Option<u64>
    ensures { result ≡ option_map (λ (t : ticks.Tick). t.0) tick }
{
    match tick {
        Some(tick) => Some(tick.0),
        None => None,
    }
}

/// The line of a reservation.
fn put_resv(out: &mut Vec<u8>, state: &State, resv: ResvNo) -> Result<(), NoMemory>
    requires at { (past : Past) × IsAt past state.now }
    requires resv { has resv.0 (group_resvs (group_of state.now)) ≡ true }
    ensures { OnOk result ((past : Past) → IsAt past state.now → out.new.items
        ≡ out.old.items ++ resv_line (group_of state.now) resv.0 past) }
{
    let left = state.afresh.left(resv);
    let refilled = number_of(state.afresh.refilled(resv));
    let front = state.afresh.front(resv);
    put_resv_line(out, &state.set, resv, left, refilled, front)
}

/// The lines of the reservations of the group.
pub(crate) fn put_resvs(out: &mut Vec<u8>, state: &State) -> Result<(), NoMemory>
    requires { (past : Past) × IsAt past state.now }
    ensures { OnOk result ((past : Past) → IsAt past state.now → out.new.items
        ≡ out.old.items
        ++ flat_map (λ r. resv_line (group_of state.now) r past)
        (group_resvs (group_of state.now))) }
{
    for resv in state.resvs {
        put_resv(out, state, *resv)?;
    }
    Ok(())
}
