//! The lines of a processor, and of a reservation.
ghost use Rattle.std.specs.Prelude.{◌≡◌, ◌++◌, map, flat_map, IfOk, OnOk};
ghost use Rattle.rt_base.specs.TaskNos.{number_of_task};
ghost use Rattle.chart_texts.specs.CpuLines as spec;
ghost use Rattle.chart_cells.specs.Cells.{cpu_cell_shown};
ghost use Rattle.chart_cells.specs.Charts.{cpu_row_shown, resv_row_shown};

use crate::letters::{number_letter, task_letter};
use crate::rows::{put, put_number, put_row, put_two};
use chart_cells::{CpuCell, CpuRow, Playing, ResvRow};
use rt_base::{NoMemory, TaskNo};
use std::alloc::{AllocError, Global};

fn link_sign(link: Option<TaskNo>) -> u8
    ensures { result ≡ spec.link_sign (number_of_task link) }
{
    match link {
        Some(task) => task_letter(u64::from(task.0)),
        None => b' ',
    }
}

#[tactic(auto, using(std::proofs::Common::append_assoc))]
fn cpu_signs(alloc: Global, cells: &[CpuCell]) -> Result<Vec<u8>, AllocError>
    ensures { IfOk result (λ v. v.items ≡ flat_map spec.cpu_signs (map cpu_cell_shown cells.now)) }
{
    let mut signs = Vec::new(alloc);
    for cell in cells {
        match cell.playing {
            Playing::WorksFor(task) => {
                put_two(&mut signs, task_letter(u64::from(task.0)), b' ')?;
            }
            Playing::RunsTask(task) => {
                put_two(&mut signs, task_letter(u64::from(task.0)), b'=')?;
            }
            Playing::Idle => put_two(&mut signs, b' ', b' ')?,
        }
    }
    Ok(signs)
}

#[tactic(auto, using(std::proofs::Common::append_assoc))]
fn link_signs(alloc: Global, cells: &[CpuCell]) -> Result<Vec<u8>, AllocError>
    ensures { IfOk result (λ v. v.items ≡ flat_map spec.link_signs (map cpu_cell_shown cells.now)) }
{
    let mut signs = Vec::new(alloc);
    for cell in cells {
        put_two(&mut signs, link_sign(cell.link), b' ')?;
    }
    Ok(signs)
}

#[tactic(auto, using(std::proofs::Common::append_assoc))]
fn budget_signs(alloc: Global, left: &[u64]) -> Result<Vec<u8>, AllocError>
    ensures { IfOk result (λ v. v.items ≡ flat_map spec.budget_signs left.now) }
{
    let mut signs = Vec::new(alloc);
    for units in left {
        put_two(&mut signs, number_letter(*units), b' ')?;
    }
    Ok(signs)
}

fn cpu_label(alloc: Global, cpu: u32) -> Result<Vec<u8>, AllocError>
    ensures { IfOk result (λ v. v.items ≡ spec.cpu_label cpu) }
{
    let mut label = Vec::from_slice(alloc, b"processor ")?;
    put_number(&mut label, u64::from(cpu))?;
    Ok(label)
}

/// The lines of a processor.
#[tactic(auto, using(std::proofs::Common::append_assoc), unfolding(chart_texts::specs::CpuLines::cpu_lines))]
pub fn put_cpu(alloc: Global, out: &mut Vec<u8>, width: usize, row: &CpuRow) -> Result<(), NoMemory>
    ensures { OnOk result (out.new.items
        ≡ out.old.items ++ spec.cpu_lines width (cpu_row_shown row.now)) }
{
    let label = cpu_label(alloc, row.cpu.0)?;
    put_row(alloc, out, width, &label, &cpu_signs(alloc, &row.cells)?)?;
    put_row(
        alloc,
        out,
        width,
        b"  link",
        &link_signs(alloc, &row.cells)?,
    )
}

/// The line of a reservation with this name.
#[tactic(auto, unfolding(chart_texts::specs::CpuLines::resv_line))]
pub fn put_resv(
    alloc: Global,
    out: &mut Vec<u8>,
    name: &[u8],
    width: usize,
    row: &ResvRow,
) -> Result<(), NoMemory>
    ensures { OnOk result (out.new.items
        ≡ out.old.items ++ spec.resv_line name.now width (resv_row_shown row.now)) }
{
    put_row(alloc, out, width, name, &budget_signs(alloc, &row.left)?)
}
