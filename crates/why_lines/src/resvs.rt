//! The line of a reservation.
ghost use Rattle.std.specs.Prelude.{◌≡◌, ◌++◌, ◌∷◌, [], OnOk, codes, decimal};
ghost use Rattle.rt_base.specs.TaskNos.{number_of_task};
ghost use Rattle.rt_model.specs.Group as groups;
ghost use Rattle.set_canonical.specs.Words as words;
ghost use Rattle.trace_lines.specs.Grammar.{number_word};
ghost use Rattle.why_texts.specs.Pieces.{state_line, task_or_dash};
ghost use Rattle.why_lines.specs.GroupSets.{group_in};

use crate::pieces::{GroupSet, put, put_number, put_task_or_dash};
use rt_base::{NoMemory, ResvNo, TaskNo};
use rt_task::ResvKind;

fn kind_word(kind: ResvKind) -> &'static [u8]
    ensures { result.now ≡ words.resv_kind_word kind }
{
    match kind {
        ResvKind::Polling => b"polling",
        ResvKind::Sporadic => b"sporadic",
        ResvKind::Table => b"table",
    }
}

/// A number, or a dash for none.
pub(crate) fn put_number_or_dash(out: &mut Vec<u8>, n: Option<u64>) -> Result<(), NoMemory>
    ensures { OnOk result (out.new.items ≡ out.old.items ++ number_word n) }
{
    match n {
        Some(n) => put_number(out, n),
        None => put(out, b"-"),
    }
}

/// The name, kind and budget of a reservation.
#[tactic(auto, unfolding(rt_model::specs::Group::resv))]
fn resv_row<'a>(set: &GroupSet<'a>, resv: ResvNo) -> (&'a [u8], ResvKind, u64)
    ensures name { result.0.now ≡ (groups.resv (group_in set.now) resv.0).name }
    ensures kind { result.1 ≡ (groups.resv (group_in set.now) resv.0).kind }
    ensures budget { result.2 ≡ (groups.resv (group_in set.now) resv.0).budget }
{
    match set
        .parts
        .resvs
        .as_slice()
        .get(resv.0.saturating_sub(1) as usize)
    {
        Some(resv) => (resv.name.as_slice(), resv.kind, resv.budget),
        None => (&[], ResvKind::Polling, 0),
    }
}

/// The name and the kind of a reservation.
#[tactic(auto, using(std::proofs::Common::append_assoc))]
fn put_resv(out: &mut Vec<u8>, name: &[u8], kind: ResvKind) -> Result<(), NoMemory>
    ensures { OnOk result (out.new.items ≡ out.old.items
        ++ (codes "  resv " ++ (name.now ++ (codes " " ++ words.resv_kind_word kind)))) }
{
    put(out, b"  resv ")?;
    put(out, name)?;
    put(out, b" ")?;
    put(out, kind_word(kind))
}

/// What is left of a budget.
#[tactic(auto, using(std::proofs::Common::append_assoc))]
fn put_left(out: &mut Vec<u8>, left: u64, budget: u64) -> Result<(), NoMemory>
    ensures { OnOk result (out.new.items ≡ out.old.items
        ++ (codes " left " ++ (decimal left ++ (codes " of " ++ decimal budget)))) }
{
    put(out, b" left ")?;
    put_number(out, left)?;
    put(out, b" of ")?;
    put_number(out, budget)
}

/// The clock of the last refill and the front client, to the end of the line.
#[tactic(auto, using(std::proofs::Common::append_assoc))]
fn put_refilled(
    out: &mut Vec<u8>,
    set: &GroupSet,
    refilled: Option<u64>,
    front: Option<TaskNo>,
) -> Result<(), NoMemory>
    ensures { let name = task_or_dash (group_in set.now) (number_of_task front) in
        OnOk result (out.new.items ≡ out.old.items ++ (codes " refilled "
        ++ (number_word refilled ++ (codes " front " ++ (name ++ 10 ∷ []))))) }
{
    put(out, b" refilled ")?;
    put_number_or_dash(out, refilled)?;
    put(out, b" front ")?;
    put_task_or_dash(out, set, front)?;
    put(out, b"\n")
}

/// What is left of a reservation's budget, the clock of its last refill, and the client at its front.
#[tactic(auto, using(std::proofs::Common::append_assoc))]
pub fn put_resv_line(
    out: &mut Vec<u8>,
    set: &GroupSet,
    resv: ResvNo,
    left: u64,
    refilled: Option<u64>,
    front: Option<TaskNo>,
) -> Result<(), NoMemory>
    ensures { let g = group_in set.now in OnOk result (out.new.items ≡ out.old.items ++ state_line (
        codes "resv " ∷ (groups.resv g resv.0).name ∷ codes " "
        ∷ words.resv_kind_word (groups.resv g resv.0).kind
        ∷ codes " left " ∷ decimal left ∷ codes " of " ∷ decimal (groups.resv g resv.0).budget
        ∷ codes " refilled " ∷ number_word refilled
        ∷ codes " front " ∷ task_or_dash g (number_of_task front) ∷ [])) }
{
    let (name, kind, budget) = resv_row(set, resv);
    put_resv(out, name, kind)?;
    put_left(out, left, budget)?;
    put_refilled(out, set, refilled, front)
}
