//! The elements of a set by their numbers, and their colours.
ghost use Rattle.std.specs.Prelude.{◌≡◌, ◌-◌, slice_index_or, decimal, IfOk};
ghost use Rattle.rt_model.specs.Group.{no_resv, no_sem, no_task};
ghost use Rattle.svg_texts.specs.Elements as spec;

use crate::put::put_number;
use rt_task::{Resv, Sem, Task};
use std::alloc::{AllocError, Global};

pub fn task_name(tasks: &[Task], number: u64) -> &[u8]
    ensures { result.now ≡ (slice_index_or tasks.now (number - 1) no_task).name }
{
    match tasks.get(number.saturating_sub(1) as usize) {
        Some(task) => task.name.as_slice(),
        None => &[],
    }
}

pub fn sem_name(sems: &[Sem], number: u64) -> &[u8]
    ensures { result.now ≡ (slice_index_or sems.now (number - 1) no_sem).name }
{
    match sems.get(number.saturating_sub(1) as usize) {
        Some(sem) => sem.name.as_slice(),
        None => &[],
    }
}

pub fn resv_name(resvs: &[Resv], number: u64) -> &[u8]
    ensures { result.now ≡ (slice_index_or resvs.now (number - 1) no_resv).name }
{
    match resvs.get(number.saturating_sub(1) as usize) {
        Some(resv) => resv.name.as_slice(),
        None => &[],
    }
}

pub fn resv_budget(resvs: &[Resv], number: u64) -> u64
    ensures { result ≡ (slice_index_or resvs.now (number - 1) no_resv).budget }
{
    match resvs.get(number.saturating_sub(1) as usize) {
        Some(resv) => resv.budget,
        None => 0,
    }
}

fn colour_number(task: u64) -> u64
    ensures { result ≡ spec.colour_number task }
{
    task.saturating_sub(1) % 16
}

/// The class of a task's colour.
pub fn colour(alloc: Global, task: u64) -> Result<Vec<u8>, AllocError>
    ensures { IfOk result (λ v. v.items ≡ spec.colour task) }
{
    let mut class = Vec::from_slice(alloc, b"c")?;
    put_number(&mut class, u128::from(colour_number(task)))?;
    Ok(class)
}

/// The class of words on a task's colour.
pub fn ink(task: u64) -> &'static [u8]
    ensures { result.now ≡ spec.ink task }
{
    if colour_number(task) >= 8 {
        b"m i"
    } else {
        b"m"
    }
}

/// A semaphore's short name.
pub fn short_name(alloc: Global, sem: u64) -> Result<Vec<u8>, AllocError>
    ensures { IfOk result (λ v. v.items ≡ spec.short_name sem) }
{
    let mut name = Vec::from_slice(alloc, b"s")?;
    put_number(&mut name, u128::from(sem))?;
    Ok(name)
}

pub fn number_text(alloc: Global, n: u64) -> Result<Vec<u8>, AllocError>
    ensures { IfOk result (λ v. v.items ≡ decimal n) }
{
    let mut text = Vec::new(alloc);
    put_number(&mut text, u128::from(n))?;
    Ok(text)
}
