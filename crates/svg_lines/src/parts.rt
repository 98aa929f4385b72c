//! The parts of cells that lanes show, and the runs of equal ones.
ghost use Rattle.std.specs.Prelude.{◌≡◌, ◌+◌, ◌<◌, ◌≤◌, ◌∷◌, false, length, map, replicate, slice_index_or, true, IfOk};
ghost use Rattle.rt_base.specs.TaskNos.{number_of_task};
ghost use Rattle.rt_rules.specs.Numbers.{same};
ghost use Rattle.chart_cells.specs.Cells.{cpu_cell_shown, cpu_numbers, doing_shown, playing_shown, sem_numbers};
ghost use Rattle.chart_cells.specs.declared.cells.Run as seen_run;
ghost use Rattle.svg_texts.specs.Parts as spec;
ghost use Rattle.svg_lines.specs.Shown.{RunsTo, cpu_part_of, lane_part, part_shown, run_parts, spans_left};

use chart_cells::{Cell, CpuCell, Doing, Playing, Run};
use rt_base::{CpuNo, NoMemory, SemNo, TaskNo};
use std::alloc::{AllocError, Global};

/// A part of a cell.
#[derive(Drop)]
pub enum Part {
    /// What a task does, with the number of its job.
    Job(Doing, u64),
    /// What it holds.
    Held(Vec<SemNo>),
    /// Whether it is in a non-preemptive section.
    Section(bool),
    /// Whether its key is raised.
    Raised(bool),
    /// What a processor plays.
    Playing(Playing),
    /// Its link.
    Link(Option<TaskNo>),
    /// What is left of a reservation.
    Left(u64),
}

/// The lanes of a task.
#[derive(Clone, Copy)]
pub enum TaskLane {
    Job,
    Held,
    Section,
    Raised,
}

/// A place in the row of a task: a run, and the column that is its first.
#[derive(Clone, Copy)]
pub struct Place {
    pub run: usize,
    pub column: usize,
}

/// The lanes of a processor.
#[derive(Clone, Copy)]
pub enum CpuLane {
    Playing,
    Link,
}

fn same_cpus(a: &[CpuNo], b: &[CpuNo]) -> bool
    ensures { result ≡ spec.same_list (cpu_numbers a.now) (cpu_numbers b.now) }
{
    if a.len() != b.len() {
        return false;
    }
    for i in 0..a.len() {
        if a[i] != b[i] {
            return false;
        }
    }
    true
}

fn same_sems(a: &[SemNo], b: &[SemNo]) -> bool
    ensures { result ≡ spec.same_list (sem_numbers a.now) (sem_numbers b.now) }
{
    if a.len() != b.len() {
        return false;
    }
    for i in 0..a.len() {
        if a[i] != b[i] {
            return false;
        }
    }
    true
}

fn same_doing(a: &Doing, b: &Doing) -> bool
    ensures { result ≡ spec.same_doing (doing_shown a.now) (doing_shown b.now) }
{
    match (a, b) {
        (Doing::Works(a), Doing::Works(b)) => same_cpus(a, b),
        (Doing::Running(a), Doing::Running(b)) => same_cpus(a, b),
        (Doing::Waits(a), Doing::Waits(b)) => a.0 == b.0,
        (Doing::Blocked(a), Doing::Blocked(b)) => a.0 == b.0,
        (Doing::Sleeping, Doing::Sleeping) => true,
        (Doing::Ready, Doing::Ready) => true,
        (Doing::Away, Doing::Away) => true,
        _ => false,
    }
}

fn same_playing(a: Playing, b: Playing) -> bool
    ensures { result ≡ spec.same_playing (playing_shown a) (playing_shown b) }
{
    match (a, b) {
        (Playing::WorksFor(a), Playing::WorksFor(b)) => a.0 == b.0,
        (Playing::RunsTask(a), Playing::RunsTask(b)) => a.0 == b.0,
        (Playing::Idle, Playing::Idle) => true,
        _ => false,
    }
}

fn same_link(a: Option<TaskNo>, b: Option<TaskNo>) -> bool
    ensures { result ≡ same (number_of_task a) (number_of_task b) }
{
    match (a, b) {
        (Some(a), Some(b)) => a.0 == b.0,
        (None, None) => true,
        _ => false,
    }
}

#[tactic(auto, unfolding(svg_texts::specs::Parts::same_part))]
fn same_part(a: &Part, b: &Part) -> bool
    ensures { result ≡ spec.same_part (part_shown a.now) (part_shown b.now) }
{
    match (a, b) {
        (Part::Job(a, i), Part::Job(b, k)) => same_doing(a, b) && i == k,
        (Part::Held(a), Part::Held(b)) => same_sems(a, b),
        (Part::Section(a), Part::Section(b)) => a == b,
        (Part::Raised(a), Part::Raised(b)) => a == b,
        (Part::Playing(a), Part::Playing(b)) => same_playing(*a, *b),
        (Part::Link(a), Part::Link(b)) => same_link(*a, *b),
        (Part::Left(m), Part::Left(n)) => m == n,
        _ => false,
    }
}

/// Where the run of equal parts that begins at a position ends.
pub fn run_end(parts: &[Part], from: usize) -> usize
    requires { from < length parts.now }
    ensures after { from < result }
    ensures within { result ≤ length parts.now }
    ensures run { RunsTo (map part_shown parts.now) from result }
{
    let mut to = from + 1;
    while to < parts.len() && same_part(&parts[from], &parts[to]) {
        to += 1;
    }
    to
}

#[tactic(auto, unfolding(svg_texts::specs::Parts::same_part))]
#[inline(always)]
fn same_in_lane(lane: TaskLane, a: &Cell, b: &Cell) -> bool
    ensures { result ≡ spec.same_part (lane_part lane a.now) (lane_part lane b.now) }
{
    match lane {
        TaskLane::Job => same_doing(&a.doing, &b.doing) && a.job == b.job,
        TaskLane::Held => same_sems(&a.held, &b.held),
        TaskLane::Section => a.non_preemptive == b.non_preemptive,
        TaskLane::Raised => a.raised == b.raised,
    }
}

/// Whether a lane shows nothing else in the columns of a run than this cell does.
fn goes_on(lane: TaskLane, cell: &Cell, run: &Run) -> bool
    ensures same { result ≡ true → run_parts lane run.now
        ≡ replicate (length run.now.marks.items) (lane_part lane cell.now) }
    ensures some { result ≡ false → 0 < length run.now.marks.items }
    ensures differ { result ≡ false
        → spec.same_part (lane_part lane cell.now) (lane_part lane run.now.cell) ≡ false }
{
    if run.marks.is_empty() {
        return true;
    }
    same_in_lane(lane, cell, &run.cell)
}

/// The column that stands so many behind one. No memory holds more columns than there are numbers.
pub fn columns_behind(column: usize, more: usize) -> Result<usize, NoMemory>
    ensures { IfOk result (λ n. n ≡ column + more) }
{
    match column.checked_add(more) {
        Some(behind) => Ok(behind),
        None => Err(NoMemory),
    }
}

/// Where the span of a lane ends that begins with a run.
pub fn task_span_end(lane: TaskLane, runs: &[Run], from: Place) -> Result<Place, NoMemory>
    requires inside { from.run < length runs.now }
    requires some { (d : seen_run.Run)
        → 0 < length (slice_index_or runs.now from.run d).marks.items }
    ensures after { IfOk result (λ to. from.run < to.run) }
    ensures within { IfOk result (λ to. to.run ≤ length runs.now) }
    ensures span { IfOk result (λ to. (d : seen_run.Run) → spans_left lane runs.now from
        ≡ record {
          from = from.column;
          to = to.column;
          value = lane_part lane (slice_index_or runs.now from.run d).cell;
        } ∷ spans_left lane runs.now to) }
{
    let mut to = from.run + 1;
    let mut column = columns_behind(from.column, runs[from.run].marks.len())?;
    while to < runs.len() && goes_on(lane, &runs[from.run].cell, &runs[to]) {
        column = columns_behind(column, runs[to].marks.len())?;
        to += 1;
    }
    Ok(Place { run: to, column })
}

fn clone_doing(alloc: Global, doing: &Doing) -> Result<Doing, AllocError>
    ensures { IfOk result (λ d. doing_shown d ≡ doing_shown doing.now) }
{
    Ok(match doing {
        Doing::Works(cpus) => Doing::Works(Vec::from_slice(alloc, cpus)?),
        Doing::Running(cpus) => Doing::Running(Vec::from_slice(alloc, cpus)?),
        Doing::Waits(sem) => Doing::Waits(*sem),
        Doing::Blocked(sem) => Doing::Blocked(*sem),
        Doing::Sleeping => Doing::Sleeping,
        Doing::Ready => Doing::Ready,
        Doing::Away => Doing::Away,
    })
}

/// The part of a task's cell that a lane shows.
pub fn task_part(alloc: Global, lane: TaskLane, cell: &Cell) -> Result<Part, AllocError>
    ensures { IfOk result (λ v. part_shown v ≡ lane_part lane cell.now) }
{
    Ok(match lane {
        TaskLane::Job => Part::Job(clone_doing(alloc, &cell.doing)?, cell.job),
        TaskLane::Held => Part::Held(Vec::from_slice(alloc, &cell.held)?),
        TaskLane::Section => Part::Section(cell.non_preemptive),
        TaskLane::Raised => Part::Raised(cell.raised),
    })
}

/// The parts of a processor's cells that a lane shows.
pub fn cpu_parts(alloc: Global, lane: CpuLane, cells: &[CpuCell]) -> Result<Vec<Part>, AllocError>
    ensures { IfOk result (λ v. map part_shown v.items
        ≡ map (cpu_part_of lane) (map cpu_cell_shown cells.now)) }
{
    let mut parts = Vec::with_capacity(alloc, cells.len())?;
    for cell in cells {
        parts.push(match lane {
            CpuLane::Playing => Part::Playing(cell.playing),
            CpuLane::Link => Part::Link(cell.link),
        })?;
    }
    Ok(parts)
}

/// What is left of a reservation, as parts.
pub fn left_parts(alloc: Global, left: &[u64]) -> Result<Vec<Part>, AllocError>
    ensures { IfOk result (λ v. map part_shown v.items ≡ map spec.left left.now) }
{
    let mut parts = Vec::with_capacity(alloc, left.len())?;
    for units in left {
        parts.push(Part::Left(*units))?;
    }
    Ok(parts)
}
