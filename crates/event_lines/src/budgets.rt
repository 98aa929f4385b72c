//! What is left of budgets.
ghost use Rattle.std.specs.Prelude.{◌≡◌, ◌++◌, map, OnOk};
ghost use Rattle.event_texts.specs.Records.{count_event};
ghost use Rattle.event_lines.specs.inside.Commas.{with_comma, with_commas};
ghost use Rattle.event_lines.specs.inside.Openings.{count_to};
ghost use Rattle.event_lines.specs.Shown.{budget_span_shown};
ghost use Rattle.event_lines.specs.TrackEvents.{budget_event, some_group};

use crate::elements::resv_name;
use crate::put::{put, put_microseconds, put_number};
use crate::records::{END, Phase, put_begun};
use crate::text_pieces::Pieces;
use crate::tracks::BudgetSpan;
use rt_base::ResvNo;
use rt_task::Parts;
use std::alloc::{AllocError, Global};

/// What a count comes to, up to its name.
#[tactic(auto, using(crate::proofs::Joins::joins))]
fn open_count(text: &mut Vec<u8>, process: u64, tick: u64) -> Result<(), AllocError>
    ensures { OnOk result (text.new.items ≡ text.old.items ++ count_to process tick) }
{
    put_begun(text, Phase::Count, process)?;
    put(text, b",\"ts\":")?;
    put_microseconds(text, u128::from(tick))?;
    put(text, b",\"name\":\"")
}

/// What a count with this name comes to from a tick on.
fn put_count(
    text: &mut Vec<u8>,
    process: u64,
    tick: u64,
    name: &[u8],
    left: u64,
) -> Result<(), AllocError>
    ensures { OnOk result (text.new.items ≡ text.old.items
        ++ with_comma (count_event process tick name.now left)) }
{
    open_count(text, process, tick)?;
    put(text, name)?;
    put(text, b"\",\"args\":{\"left\":")?;
    put_number(text, left)?;
    put(text, END)
}

/// A span of a reservation.
#[tactic(auto, unfolding(crate::specs::TrackEvents::budget_event, rt_model::specs::Group::resv))]
fn put_budget(
    text: &mut Vec<u8>,
    set: &Parts,
    process: u64,
    resv: ResvNo,
    span: BudgetSpan,
) -> Result<(), AllocError>
    ensures { OnOk result (text.new.items ≡ text.old.items ++ with_comma
        (budget_event (some_group set.now) process resv.0 (budget_span_shown span))) }
{
    let name = resv_name(set.resvs.as_slice(), resv);
    put_count(text, process, span.from, name, span.left)
}

/// The spans of a reservation.
#[tactic(auto, using(crate::proofs::Joins::loops))]
pub(crate) fn put_budget_spans(
    alloc: Global,
    text: &mut Pieces,
    set: &Parts,
    process: u64,
    resv: ResvNo,
    spans: &[BudgetSpan],
) -> Result<(), AllocError>
    ensures { OnOk result (text.new ≡ text.old
        ++ with_commas (map (budget_event (some_group set.now) process resv.0)
        (map budget_span_shown spans.now))) }
{
    for span in spans {
        put_budget(&mut text.last, set, process, resv, *span)?;
        text.settle(alloc)?;
    }
    Ok(())
}
