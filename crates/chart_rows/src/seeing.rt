//! What a state of the group makes of the rows: a state more, or the last one of a column.
ghost use Rattle.std.specs.Prelude.{◌≡◌, ◌∷◌, All, IfOk, OnOk, map, true};
ghost use Rattle.rt_base.specs.TaskNos.{number_of_task};
ghost use Rattle.rt_rules.specs.Distinct.{IsDistinct};
ghost use Rattle.rt_rules.specs.Numbers.{has};
ghost use Rattle.rt_model.specs.Group as groups;
ghost use Rattle.rt_model.specs.Past.{Acted, Past, now};
ghost use Rattle.rt_plays.specs.Homes.{IsProcessorOf};
ghost use Rattle.rank_afresh.specs.Standing.{IsAt, group_of};
ghost use Rattle.chart_texts.specs.Charts.{group_resvs};
ghost use Rattle.view_acts.specs.ShownActs.{act_shown};
ghost use Rattle.chart_rows.specs.AwayTasks.{AreAway};
ghost use Rattle.chart_rows.specs.inside.Finding.{only};
ghost use Rattle.chart_rows.specs.inside.Plays.{played_shown};
ghost use Rattle.chart_rows.specs.Listed.{tasks_listed};
ghost use Rattle.chart_rows.specs.ReadyJobs.{AreReady, KnowsMore};
ghost use Rattle.chart_rows.specs.Rows as rows;
ghost use Rattle.chart_rows.specs.UpTo.{IsUpTo};

use crate::acting::arriving;
use crate::away_tasks::AwayTasks;
use crate::cpus::CpuFeed;
use crate::finding::{are_same, position_of};
use crate::look::{cpu_at_end, see_ready, see_state, shows_away, shows_ready};
use crate::loops::Played;
use crate::ready_jobs::ReadyJobs;
use crate::resvs::ResvFeed;
use crate::tasks::TaskFeed;
use rank_afresh::Afresh;
use rt_base::{NoMemory, TaskNo, Tick};
use std::alloc::Global;
use view_acts::ShownAct;

#[inline(always)]
fn see_task(row: &mut TaskFeed, alloc: Global, afresh: &Afresh) -> Result<(), NoMemory>
    requires task { has row.old.task (groups.tasks (group_of afresh.now)) ≡ true }
    requires at { (past : Past) × IsAt afresh.now past }
    ensures { OnOk result ((past : Past) → IsAt afresh.now past
        → row.new ≡ rows.task_seen (group_of afresh.now) past row.old) }
{
    let task = row.task();
    see_state(&mut row.kept, alloc, afresh, task)?;
    Ok(())
}

/// A state more for the row of a task, with what is known of tasks that are ready: of such a one nothing is read, and a task that is
/// found so is written down.
#[inline(always)]
pub fn see_task_with(
    row: &mut TaskFeed,
    alloc: Global,
    afresh: &Afresh,
    ready: &mut ReadyJobs,
) -> Result<(), NoMemory>
    requires task { has row.old.task (groups.tasks (group_of afresh.now)) ≡ true }
    requires at { (past : Past) × IsAt afresh.now past }
    ensures row { OnOk result ((past : Past) → IsAt afresh.now past
        → AreReady (group_of afresh.now) past ready.old
        → row.new ≡ rows.task_seen (group_of afresh.now) past row.old) }
    ensures ready { OnOk result ((past : Past) → IsAt afresh.now past
        → AreReady (group_of afresh.now) past ready.old
        → AreReady (group_of afresh.now) past ready.new) }
    ensures known { KnowsMore ready.old ready.new }
{
    let task = row.task();
    if shows_ready(&row.kept) && ready.get(task).is_some() {
        return Ok(());
    }
    if let Some(job) = ready.get(task) {
        see_ready(&mut row.kept, job);
        return Ok(());
    }
    let Some(job) = see_state(&mut row.kept, alloc, afresh, task)? else {
        return Ok(());
    };
    ready.set(task, Some(job));
    Ok(())
}

/// The same, with what is known of tasks whose job is not there yet too: of such a one nothing is read until its release, and a task
/// that is found so is written down.
#[inline(always)]
pub fn see_task_knowing(
    row: &mut TaskFeed,
    alloc: Global,
    afresh: &Afresh,
    clock: Tick,
    ready: &mut ReadyJobs,
    away: &mut AwayTasks,
) -> Result<(), NoMemory>
    requires task { has row.old.task (groups.tasks (group_of afresh.now)) ≡ true }
    requires at { (past : Past) × IsAt afresh.now past }
    ensures row { OnOk result ((past : Past) → IsAt afresh.now past → clock.0 ≡ now past
        → AreReady (group_of afresh.now) past ready.old
        → AreAway (group_of afresh.now) past away.old
        → row.new ≡ rows.task_seen (group_of afresh.now) past row.old) }
    ensures ready { OnOk result ((past : Past) → IsAt afresh.now past
        → AreReady (group_of afresh.now) past ready.old
        → AreReady (group_of afresh.now) past ready.new) }
    ensures away { OnOk result ((past : Past) → IsAt afresh.now past
        → AreReady (group_of afresh.now) past ready.old
        → AreAway (group_of afresh.now) past away.old
        → AreAway (group_of afresh.now) past away.new) }
    ensures known { KnowsMore ready.old ready.new }
{
    let task = row.task();
    if away.has(task, clock) {
        return Ok(());
    }
    see_task_with(row, alloc, afresh, ready)?;
    if shows_away(&row.kept) {
        away.learn(afresh, task);
    }
    Ok(())
}

/// A state more for the rows of tasks.
pub(crate) fn see_tasks(
    tasks: &mut [TaskFeed],
    alloc: Global,
    afresh: &Afresh,
) -> Result<(), NoMemory>
    requires tasks { All (λ (k : rows.TaskKept).
        has k.task (groups.tasks (group_of afresh.now)) ≡ true) tasks.old }
    requires at { (past : Past) × IsAt afresh.now past }
    ensures { OnOk result ((past : Past) → IsAt afresh.now past
        → tasks.new ≡ map (rows.task_seen (group_of afresh.now) past) tasks.old) }
{
    for row in tasks.iter_mut() {
        see_task(row, alloc, afresh)?;
    }
    Ok(())
}

/// The state after an act, for the row of this task, if there is one.
fn see_row(
    tasks: &mut [TaskFeed],
    alloc: Global,
    afresh: &Afresh,
    task: Option<TaskNo>,
) -> Result<(), NoMemory>
    requires tasks { All (λ (k : rows.TaskKept).
        has k.task (groups.tasks (group_of afresh.now)) ≡ true) tasks.old }
    requires once { IsDistinct (tasks_listed tasks.old) }
    requires at { (past : Past) × IsAt afresh.now past }
    ensures { OnOk result ((past : Past) → IsAt afresh.now past → tasks.new
        ≡ map (only (number_of_task task) (rows.task_seen (group_of afresh.now) past)) tasks.old) }
{
    let Some(task) = task else {
        return Ok(());
    };
    if let Some(position) = position_of(tasks, task) {
        see_task(&mut tasks[position], alloc, afresh)?;
    }
    Ok(())
}

/// The state after an act, for the rows of tasks: of those alone that the act touches it may show more, the task that its
/// processor ran and the one that arrives.
pub(crate) fn see_tasks_after(
    tasks: &mut [TaskFeed],
    alloc: Global,
    afresh: &Afresh,
    act: &ShownAct,
) -> Result<(), NoMemory>
    requires tasks { All (λ (k : rows.TaskKept).
        has k.task (groups.tasks (group_of afresh.now)) ≡ true) tasks.old }
    requires once { IsDistinct (tasks_listed tasks.old) }
    requires at { (past : Past) × IsAt afresh.now (Acted (act_shown act.now) ∷ past)
        × All (IsUpTo (group_of afresh.now) past) tasks.old }
    ensures { OnOk result ((past : Past) → IsAt afresh.now (Acted (act_shown act.now) ∷ past)
        → All (IsUpTo (group_of afresh.now) past) tasks.old → tasks.new ≡ map
        (rows.task_seen (group_of afresh.now) (Acted (act_shown act.now) ∷ past)) tasks.old) }
{
    see_row(tasks, alloc, afresh, act.task)?;
    let arrives = arriving(act.act);
    if are_same(arrives, act.task) {
        return Ok(());
    }
    see_row(tasks, alloc, afresh, arrives)?;
    Ok(())
}

fn play_of(row: &CpuFeed, afresh: &Afresh) -> Played
    requires { IsProcessorOf (group_of afresh.now) row.now.cpu }
    ensures { (past : Past) → IsAt afresh.now past
        → played_shown result ≡ rows.played (group_of afresh.now) past row.now }
{
    let cell = row.ends(cpu_at_end(afresh, row.cpu()));
    Played {
        cpu: row.cpu(),
        playing: cell.playing,
    }
}

/// What the processors do in a column that ends in this state.
pub(crate) fn plays(
    alloc: Global,
    cpus: &[CpuFeed],
    afresh: &Afresh,
) -> Result<Vec<Played>, NoMemory>
    requires { All (λ (k : rows.CpuKept). IsProcessorOf (group_of afresh.now) k.cpu) cpus.now }
    ensures { IfOk result (λ v. (past : Past) → IsAt afresh.now past
        → map played_shown v.items ≡ map (rows.played (group_of afresh.now) past) cpus.now) }
{
    let mut plays = Vec::new(alloc);
    for row in cpus {
        plays.push(play_of(row, afresh))?;
    }
    Ok(plays)
}

fn finish_cpu(row: &mut CpuFeed, afresh: &Afresh)
    requires { IsProcessorOf (group_of afresh.now) row.old.cpu }
    ensures { (past : Past) → IsAt afresh.now past
        → row.new ≡ rows.cpu_finished (group_of afresh.now) past row.old }
{
    let cell = cpu_at_end(afresh, row.cpu());
    row.work(cell);
}

/// Ends a column, in this state, for the cells that are kept of processors.
pub(crate) fn finish_cpus(cpus: &mut [CpuFeed], afresh: &Afresh)
    requires cpus { All (λ (k : rows.CpuKept). IsProcessorOf (group_of afresh.now) k.cpu) cpus.old }
    requires at { (past : Past) × IsAt afresh.now past }
    ensures { (past : Past) → IsAt afresh.now past
        → cpus.new ≡ map (rows.cpu_finished (group_of afresh.now) past) cpus.old }
{
    for row in cpus.iter_mut() {
        finish_cpu(row, afresh);
    }
}

fn close_cpu(row: &mut CpuFeed, afresh: &Afresh) -> Result<(), NoMemory>
    requires { IsProcessorOf (group_of afresh.now) row.old.cpu }
    ensures { OnOk result ((past : Past) → IsAt afresh.now past
        → row.new ≡ rows.cpu_closed (group_of afresh.now) past row.old) }
{
    let cell = cpu_at_end(afresh, row.cpu());
    row.close(cell)?;
    Ok(())
}

/// Ends a column for the rows of processors, in this state.
pub(crate) fn close_cpus(cpus: &mut [CpuFeed], afresh: &Afresh) -> Result<(), NoMemory>
    requires cpus { All (λ (k : rows.CpuKept). IsProcessorOf (group_of afresh.now) k.cpu) cpus.old }
    requires at { (past : Past) × IsAt afresh.now past }
    ensures { OnOk result ((past : Past) → IsAt afresh.now past
        → cpus.new ≡ map (rows.cpu_closed (group_of afresh.now) past) cpus.old) }
{
    for row in cpus.iter_mut() {
        close_cpu(row, afresh)?;
    }
    Ok(())
}

fn finish_resv(row: &mut ResvFeed, afresh: &Afresh)
    requires resv { has row.old.resv (group_resvs (group_of afresh.now)) ≡ true }
    requires at { (past : Past) × IsAt afresh.now past }
    ensures { (past : Past) → IsAt afresh.now past
        → row.new ≡ rows.resv_finished (group_of afresh.now) past row.old }
{
    let left = afresh.left(row.resv());
    row.work(left);
}

/// Ends a column, in this state, for what is kept of reservations.
pub(crate) fn finish_resvs(resvs: &mut [ResvFeed], afresh: &Afresh)
    requires resvs { All (λ (k : rows.ResvKept).
        has k.resv (group_resvs (group_of afresh.now)) ≡ true) resvs.old }
    requires at { (past : Past) × IsAt afresh.now past }
    ensures { (past : Past) → IsAt afresh.now past
        → resvs.new ≡ map (rows.resv_finished (group_of afresh.now) past) resvs.old }
{
    for row in resvs.iter_mut() {
        finish_resv(row, afresh);
    }
}

fn close_resv(row: &mut ResvFeed, afresh: &Afresh) -> Result<(), NoMemory>
    requires resv { has row.old.resv (group_resvs (group_of afresh.now)) ≡ true }
    requires at { (past : Past) × IsAt afresh.now past }
    ensures { OnOk result ((past : Past) → IsAt afresh.now past
        → row.new ≡ rows.resv_closed (group_of afresh.now) past row.old) }
{
    let left = afresh.left(row.resv());
    row.close(left)?;
    Ok(())
}

/// Ends a column for the rows of reservations, in this state.
pub(crate) fn close_resvs(resvs: &mut [ResvFeed], afresh: &Afresh) -> Result<(), NoMemory>
    requires resvs { All (λ (k : rows.ResvKept).
        has k.resv (group_resvs (group_of afresh.now)) ≡ true) resvs.old }
    requires at { (past : Past) × IsAt afresh.now past }
    ensures { OnOk result ((past : Past) → IsAt afresh.now past
        → resvs.new ≡ map (rows.resv_closed (group_of afresh.now) past) resvs.old) }
{
    for row in resvs.iter_mut() {
        close_resv(row, afresh)?;
    }
    Ok(())
}
