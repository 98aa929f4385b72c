//! What an act would be as a unit of work, in the state before it.
ghost use Rattle.std.specs.Prelude.{◌≡◌, ℕ, IfOk, Some, map, true};
ghost use Rattle.rt_task.specs.Validity.{IsValid};
ghost use Rattle.rt_rules.specs.Numbers.{has};
ghost use Rattle.rt_model.specs.Group.{Group, served_by, tasks};
ghost use Rattle.rt_model.specs.Past.{Past};
ghost use Rattle.rt_model.specs.Reservations.{left};
ghost use Rattle.rt_plays.specs.Homes.{IsProcessorOf};
ghost use Rattle.rank_afresh.specs.Standing.{IsAt, group_of};
ghost use Rattle.trace_views.specs.Moments.{Moment, is_unit};
ghost use Rattle.chart_texts.specs.Charts.{group_resvs};
ghost use Rattle.view_acts.specs.ShownActs.{act_shown};
ghost use Rattle.chart_rows.specs.Foretold.{IsForetold, moment_of, server};
ghost use Rattle.chart_rows.specs.Rows.{ResvKept, resvs_listed};
ghost use Rattle.chart_rows.specs.Units.{IsTold, IsUnitOf, number_of_resv};

use crate::look::cell_with;
use crate::resvs::ResvFeed;
use crate::units::{Unit, asks_work, is_unit};
use chart_cells::Doing;
use rank_afresh::Afresh;
use rt_base::{CpuNo, NoMemory, ResvNo, TaskNo};
use rt_task::{Act, Parts};
use std::alloc::Global;
use view_acts::ShownAct;

fn is_one_of(rows: &[ResvFeed], resv: ResvNo) -> bool
    ensures { result ≡ has resv.0 (map (λ (k : ResvKept). k.resv) rows.now) }
{
    for row in rows {
        if resv.0 == row.resv().0 {
            return true;
        }
    }
    false
}

/// The reservation that serves a task, 0 for none.
#[tactic(auto, unfolding(rt_model::specs::Group::task, rt_model::specs::Group::served_by))]
fn server_of(parts: &Parts, task: TaskNo) -> ResvNo
    ensures { (g : Group) → g.setup ≡ parts.now → result.0 ≡ served_by g task.0 }
{
    match parts
        .tasks
        .as_slice()
        .get(task.0.saturating_sub(1) as usize)
    {
        Some(task) => match task.resv {
            Some(resv) => resv,
            None => ResvNo(0),
        },
        None => ResvNo(0),
    }
}

/// The reservation that serves a task, if that is one of these.
fn server_in(parts: &Parts, rows: &[ResvFeed], task: TaskNo) -> Option<ResvNo>
    ensures { (g : Group) → g.setup ≡ parts.now → resvs_listed rows.now ≡ group_resvs g
        → number_of_resv result ≡ server g task.0 }
{
    let resv = server_of(parts, task);
    if is_one_of(rows, resv) {
        Some(resv)
    } else {
        None
    }
}

/// What is left of a reservation of the group; 0 for none.
fn left_of(afresh: &Afresh, resv: Option<ResvNo>) -> u64
    requires listed { (r : ℕ) → number_of_resv resv ≡ Some r
        → has r (group_resvs (group_of afresh.now)) ≡ true }
    requires at { (past : Past) × IsAt afresh.now past }
    ensures { (past : Past) (r : ℕ) → IsAt afresh.now past → number_of_resv resv ≡ Some r
        → result ≡ left (group_of afresh.now) r past }
{
    match resv {
        Some(resv) => afresh.left(resv),
        None => 0,
    }
}

/// The unit of a task on a processor.
fn unit_of(
    alloc: Global,
    parts: &Parts,
    afresh: &Afresh,
    rows: &[ResvFeed],
    cpu: CpuNo,
    task: TaskNo,
) -> Result<Unit, NoMemory>
    requires parts { parts.now ≡ afresh.now.setup }
    requires rows { resvs_listed rows.now ≡ group_resvs (group_of afresh.now) }
    requires cpu { IsProcessorOf (group_of afresh.now) cpu.0 }
    requires task { has task.0 (tasks (group_of afresh.now)) ≡ true }
    requires at { (past : Past) × IsAt afresh.now past }
    ensures { IfOk result (λ u. (m : Moment) → IsAt afresh.now m.before → m.act.cpu ≡ cpu.0
        → m.act.task ≡ Some task.0 → is_unit m ≡ true
        → IsUnitOf (group_of afresh.now) m u) }
{
    let cell = cell_with(alloc, afresh, task, Doing::Ready)?;
    let resv = server_in(parts, rows, task);
    Ok(Unit {
        task,
        cell,
        link: afresh.linked(cpu),
        resv,
        left: left_of(afresh, resv),
    })
}

/// What an act of a processor would be as a unit, with the rows of reservations; none where it can be none.
pub fn foretell(
    alloc: Global,
    parts: &Parts,
    afresh: &Afresh,
    rows: &[ResvFeed],
    cpu: CpuNo,
    act: Act,
) -> Result<Option<Unit>, NoMemory>
    requires valid { IsValid parts.now }
    requires parts { parts.now ≡ afresh.now.setup }
    requires rows { resvs_listed rows.now ≡ group_resvs (group_of afresh.now) }
    requires cpu { IsProcessorOf (group_of afresh.now) cpu.0 }
    requires at { (past : Past) × IsAt afresh.now past }
    ensures { IfOk result (λ o. (past : Past) → IsAt afresh.now past
        → IsForetold (group_of afresh.now) (moment_of (group_of afresh.now) cpu.0 act past) o) }
{
    if !asks_work(act) {
        return Ok(None);
    }
    match afresh.runs(cpu) {
        Some(task) => {
            let unit = unit_of(alloc, parts, afresh, rows, cpu, task)?;
            Ok(Some(unit))
        }
        None => Ok(None),
    }
}

/// What was foretold of an act, once it is known whether it is a unit: dropped where it is none.
pub fn keep_if_done(unit: &mut Option<Unit>, act: &ShownAct)
    ensures { (g : Group) (m : Moment) → act_shown act.now ≡ m.act → IsForetold g m unit.old
        → IsTold g m unit.new }
{
    if !is_unit(act) {
        *unit = None;
    }
}
