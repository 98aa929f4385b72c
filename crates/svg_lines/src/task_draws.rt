//! The spans of a task.
ghost use Rattle.std.specs.Prelude.{◌≡◌, ◌-◌, ◌<◌, ◌^◌, ◌++◌, decimal, map, slice_index_or, IfOk, OnOk};
ghost use Rattle.rt_model.specs.Group.{no_sem};
ghost use Rattle.svg_texts.specs.Elements.{short_name as short};
ghost use Rattle.chart_cells.specs.Cells.{cpu_numbers, doing_shown, sem_numbers};
ghost use Rattle.svg_texts.specs.TaskLanes as spec;
ghost use Rattle.svg_lines.specs.Shown.{part_shown};
ghost use Rattle.svg_lines.specs.Words.{word_items};

use crate::bars::{Area, fit, fits, put_bar, put_words_if};
use crate::elements::{number_text, sem_name, short_name};
use crate::joined::joined;
use crate::parts::Part;
use crate::put::Pixels;
use crate::shapes::{put_rect, put_words};
use chart_cells::Doing;
use rt_base::{CpuNo, NoMemory, SemNo};
use rt_task::{Parts, Sem};
use std::alloc::{AllocError, Global};

/// A box with the semaphore that the task waits for.
#[tactic(auto, using(std::proofs::Common::append_assoc))]
fn put_box(
    alloc: Global,
    out: &mut Vec<u8>,
    set: &Parts,
    class: &[u8],
    sem: SemNo,
    a: Area,
) -> Result<(), NoMemory>
    requires x { a.x < 2 ^ 100 }
    requires y { a.y < 2 ^ 100 }
    requires w { a.w < 2 ^ 100 }
    ensures { OnOk result (out.new.items
        ≡ out.old.items ++ spec.box set.now class.now sem.0 a.y a.x a.w) }
{
    put_rect(out, class, a.x, a.y + 16, a.w, 22)?;
    let short = short_name(alloc, u64::from(sem.0))?;
    let words = fit(sem_name(set.sems.as_slice(), u64::from(sem.0)), &short, a.w);
    put_words_if(out, b"m", a.x + a.w / 2, a.y + 28, words)?;
    Ok(())
}

fn cpu_texts(alloc: Global, cpus: &[CpuNo]) -> Result<Vec<Vec<u8>>, AllocError>
    ensures { IfOk result (λ v. word_items v.items ≡ map decimal (cpu_numbers cpus.now)) }
{
    let mut words = Vec::new(alloc);
    for cpu in cpus {
        words.push(number_text(alloc, u64::from(cpu.0))?)?;
    }
    Ok(words)
}

/// The numbers of processors with a plus between them.
fn cpus_text(alloc: Global, cpus: &[CpuNo]) -> Result<Vec<u8>, AllocError>
    ensures { IfOk result (λ v. v.items ≡ spec.cpus_text (cpu_numbers cpus.now)) }
{
    joined(alloc, b'+', &cpu_texts(alloc, cpus)?)
}

#[tactic(auto, unfolding(svg_texts::specs::TaskLanes::draw_doing))]
fn put_doing(
    alloc: Global,
    out: &mut Vec<u8>,
    set: &Parts,
    task: u64,
    a: Area,
    doing: &Doing,
) -> Result<(), NoMemory>
    requires x { a.x < 2 ^ 99 }
    requires y { a.y < 2 ^ 99 }
    requires w { a.w < 2 ^ 99 }
    ensures { OnOk result (out.new.items
        ≡ out.old.items ++ spec.draw_doing set.now task a.y a.x a.w (doing_shown doing.now)) }
{
    let bar = Area {
        y: a.y + 16,
        h: 22,
        ..a
    };
    match doing {
        Doing::Works(cpus) => put_bar(alloc, out, true, task, bar, &cpus_text(alloc, cpus)?),
        Doing::Running(cpus) => put_bar(alloc, out, false, task, bar, &cpus_text(alloc, cpus)?),
        Doing::Waits(sem) => put_box(alloc, out, set, b"w", *sem, a),
        Doing::Blocked(sem) => put_box(alloc, out, set, b"B", *sem, a),
        Doing::Sleeping => Ok(put_rect(out, b"z", a.x, a.y + 26, a.w, 3)?),
        Doing::Ready => Ok(put_rect(out, b"y", a.x, a.y + 26, a.w, 3)?),
        Doing::Away => Ok(()),
    }
}

/// The names of semaphores.
fn held_names(alloc: Global, sems: &[Sem], held: &[SemNo]) -> Result<Vec<Vec<u8>>, AllocError>
    ensures { IfOk result (λ v. word_items v.items
        ≡ map (λ s. (slice_index_or sems.now (s - 1) no_sem).name) (sem_numbers held.now)) }
{
    let mut words = Vec::new(alloc);
    for sem in held {
        words.push(Vec::from_slice(alloc, sem_name(sems, u64::from(sem.0)))?)?;
    }
    Ok(words)
}

/// Their short names.
fn held_short(alloc: Global, held: &[SemNo]) -> Result<Vec<Vec<u8>>, AllocError>
    ensures { IfOk result (λ v. word_items v.items ≡ map short (sem_numbers held.now)) }
{
    let mut words = Vec::new(alloc);
    for sem in held {
        words.push(short_name(alloc, u64::from(sem.0))?)?;
    }
    Ok(words)
}

/// The names where they fit, else the short ones.
fn held_words(alloc: Global, set: &Parts, held: &[SemNo], w: Pixels) -> Result<Vec<u8>, AllocError>
    ensures { IfOk result (λ v. v.items ≡ spec.held_words set.now w (sem_numbers held.now)) }
{
    let names = joined(alloc, b',', &held_names(alloc, set.sems.as_slice(), held)?)?;
    if fits(&names, 6, 0, w) {
        Ok(names)
    } else {
        joined(alloc, b',', &held_short(alloc, held)?)
    }
}

#[tactic(auto, using(std::proofs::Common::append_assoc), unfolding(svg_texts::specs::TaskLanes::draw_held))]
fn put_held(
    alloc: Global,
    out: &mut Vec<u8>,
    set: &Parts,
    a: Area,
    held: &[SemNo],
) -> Result<(), NoMemory>
    requires x { a.x < 2 ^ 99 }
    requires y { a.y < 2 ^ 99 }
    ensures { OnOk result (out.new.items
        ≡ out.old.items ++ spec.draw_held set.now a.y a.x a.w (sem_numbers held.now)) }
{
    if held.is_empty() {
        return Ok(());
    }
    put_rect(out, b"s", a.x, a.y + 32, a.w, 6)?;
    let words = held_words(alloc, set, held, a.w)?;
    put_words(out, b"n", a.x + 1, a.y + 47, &words)?;
    Ok(())
}

fn put_strip(out: &mut Vec<u8>, class: &[u8], so: bool, a: Area) -> Result<(), AllocError>
    ensures { OnOk result (out.new.items
        ≡ out.old.items ++ spec.draw_if class.now a.y a.h a.x a.w so) }
{
    if so {
        put_rect(out, class, a.x, a.y, a.w, a.h)?;
    }
    Ok(())
}

/// A span of a task: its part, from x on, so wide, in the row at y.
#[tactic(auto, unfolding(svg_texts::specs::TaskLanes::draw_task_part))]
pub fn put_task_part(
    alloc: Global,
    out: &mut Vec<u8>,
    set: &Parts,
    task: u64,
    a: Area,
    part: &Part,
) -> Result<(), NoMemory>
    requires x { a.x < 2 ^ 99 }
    requires y { a.y < 2 ^ 99 }
    requires w { a.w < 2 ^ 99 }
    ensures { OnOk result (out.new.items ≡ out.old.items
        ++ spec.draw_task_part set.now task a.y a.x a.w (part_shown part.now)) }
{
    match part {
        Part::Job(doing, _) => put_doing(alloc, out, set, task, a, doing),
        Part::Held(held) => put_held(alloc, out, set, a, held),
        Part::Section(so) => {
            let strip = Area {
                y: a.y + 16,
                h: 3,
                ..a
            };
            Ok(put_strip(out, b"p", *so, strip)?)
        }
        Part::Raised(so) => {
            let strip = Area {
                y: a.y + 12,
                h: 4,
                ..a
            };
            Ok(put_strip(out, b"k", *so, strip)?)
        }
        _ => Ok(()),
    }
}
