//! The rules on names.
ghost use Rattle.std.specs.Prelude.{◌≡◌, ◌==◌, ◌<◌, ◌+◌, ◌^◌, length, bytes_eq, map, IfOk};
ghost use Rattle.std.specs.List.{list_any, list_all};
ghost use Rattle.rt_task.specs.declared.Sem as sem_type;
ghost use Rattle.rt_task.specs.declared.draft.DraftResv as resv_type;
ghost use Rattle.rt_task.specs.declared.draft.DraftTask as task_type;
ghost use Rattle.set_explain.specs.NameRules as tests;
ghost use Rattle.set_explain.specs.Rules.{broken};
ghost use Rattle.set_explain.specs.Shown.{shown};

use crate::rule::{Rule, first, unless};
use crate::words::{A_NAME, A_NEW_NAME, DECLARED_SEMS};
use rt_task::{Draft, DraftResv, DraftStep, DraftTask, Sem};
use set_rules::single::{
    act_is_known, are_without_repeat, is_name, pieces_are_known, resv_is_known, uses_are_known,
};
use std::alloc::{AllocError, Global};

fn is_sem_named(sems: &[Sem], name: &[u8]) -> bool
    ensures { result ≡ list_any (λ (x : sem_type.Sem). bytes_eq x.name name.now) sems.now }
{
    sems.iter().any(|x| x.name.as_slice() == name)
}

fn is_resv_named(resvs: &[DraftResv], name: &[u8]) -> bool
    ensures { result ≡ list_any (λ (x : resv_type.DraftResv). bytes_eq x.name name.now) resvs.now }
{
    resvs.iter().any(|x| x.name.as_slice() == name)
}

fn is_task_named(tasks: &[DraftTask], name: &[u8]) -> bool
    ensures { result ≡ list_any (λ (x : task_type.DraftTask). bytes_eq x.name name.now) tasks.now }
{
    tasks.iter().any(|x| x.name.as_slice() == name)
}

pub(crate) fn sem_name(earlier: &[Sem], s: &Sem) -> Option<Rule>
    ensures { shown result ≡ broken (tests.sem_name earlier.now s.now) }
{
    let name = s.name.as_slice();
    first(&[
        unless(is_name(name), "name", A_NAME),
        unless(!is_sem_named(earlier, name), "name", A_NEW_NAME),
    ])
}

pub(crate) fn resv_name(earlier: &[DraftResv], r: &DraftResv) -> Option<Rule>
    ensures { shown result ≡ broken (tests.resv_name earlier.now r.now) }
{
    let name = r.name.as_slice();
    first(&[
        unless(is_name(name), "name", A_NAME),
        unless(!is_resv_named(earlier, name), "name", A_NEW_NAME),
    ])
}

/// Whether the number of the task is that of its place behind so many others.
fn stands_behind(p: &DraftTask, count: usize) -> bool
    requires { count + 1 < 2 ^ 64 }
    ensures { result ≡ (p.now.number.0 == count + 1) }
{
    p.number.0 as usize == count + 1
}

fn own_name(earlier: &[DraftTask], p: &DraftTask) -> Option<Rule>
    requires { length earlier.now + 1 < 2 ^ 64 }
    ensures { shown result ≡ broken (tests.own_name earlier.now p.now) }
{
    let name = p.name.as_slice();
    first(&[
        unless(
            stands_behind(p, earlier.len()),
            "number",
            "its place among the tasks; the first is 1",
        ),
        unless(is_name(name), "name", A_NAME),
        unless(!is_task_named(earlier, name), "name", A_NEW_NAME),
    ])
}

fn task_names(alloc: Global, d: &Draft, p: &DraftTask) -> Result<Option<Rule>, AllocError>
    ensures { IfOk result (λ r. shown r ≡ broken (tests.task_names d.now p.now)) }
{
    let uses = p.uses.as_slice();
    let no_repeat = are_without_repeat(alloc, uses)?;
    Ok(first(&[
        unless(uses_are_known(d, uses), "uses", DECLARED_SEMS),
        unless(no_repeat, "uses", "no semaphore stands twice"),
        unless(
            resv_is_known(d, p.resv),
            "resv",
            "a reservation that is declared in resvs",
        ),
        unless(
            pieces_are_known(d, p.pieces.as_slice()),
            "body",
            DECLARED_SEMS,
        ),
    ]))
}

pub(crate) fn task_name(
    alloc: Global,
    d: &Draft,
    earlier: &[DraftTask],
    p: &DraftTask,
) -> Result<Option<Rule>, AllocError>
    requires { length earlier.now + 1 < 2 ^ 64 }
    ensures { IfOk result (λ r. shown r ≡ broken (tests.task_name d.now earlier.now p.now)) }
{
    let names = task_names(alloc, d, p)?;
    Ok(first(&[own_name(earlier, p), names]))
}

pub(crate) fn step_name(d: &Draft, s: DraftStep) -> Option<Rule>
    ensures { shown result ≡ broken (tests.step_name d.now s) }
{
    first(&[unless(
        act_is_known(d, s.act),
        "act",
        "the task or semaphore that it names is declared",
    )])
}
