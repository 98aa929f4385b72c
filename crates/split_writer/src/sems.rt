//! The histories of semaphores, as lines.
ghost use Rattle.std.specs.Prelude.{◌≡◌, ◌∷◌, [], ◌++◌, OnOk, codes, decimal};
ghost use Rattle.split_rules.specs.declared.SemAct.TheVariants.{Release};
ghost use Rattle.split_text.specs.SplitText.{line_of, sem_act_words, sem_lines, sems_from};
ghost use Rattle.split_writer.specs.PartPlays.{lists};
ghost use Rattle.split_writer.specs.inside.Texts.{texts};
ghost use Rattle.trace_lines.specs.Grammar.{task_word};
ghost use Rattle.trace_lines.specs.Known.{known_in};
ghost use Rattle.trace_lines.specs.Words.{further};
ghost use Rattle.trace_lines.specs.declared.format.Version.TheVariants.{Two};

use rt_base::{Ask, TaskNo};
use split_rules::{SemAct, SemEntry};
use std::alloc::AllocError;
use trace_lines::{Format, put_next_number, put_next_task, put_next_word, put_number, put_target};

/// A word, and a task or a dash, each after a space.
#[tactic(auto, using(std::proofs::Common::append_assoc))]
fn put_release(out: &mut Vec<u8>, format: &Format, next: Option<TaskNo>) -> Result<(), AllocError>
    ensures { OnOk result (out.new.items
        ≡ out.old.items ++ further 32 (sem_act_words (known_in format.now) (Release next))) }
{
    put_next_word(out, b"release")?;
    out.extend_from_slice(b" ")?;
    put_target(out, format, next)
}

/// What a task did at the semaphore, and what came of it, each word after a space.
#[tactic(auto, using(std::proofs::Common::append_assoc))]
fn put_sem_act(out: &mut Vec<u8>, format: &Format, act: SemAct) -> Result<(), AllocError>
    ensures { OnOk result (out.new.items
        ≡ out.old.items ++ further 32 (sem_act_words (known_in format.now) act)) }
{
    match act {
        SemAct::Ask(Ask::Granted) => out.extend_from_slice(b" ask granted"),
        SemAct::Ask(Ask::Queued) => out.extend_from_slice(b" ask queued"),
        SemAct::Release(next) => put_release(out, format, next),
    }
}

/// The line of an entry of a semaphore's history.
#[tactic(auto, using(crate::proofs::LineTexts::sem_text, std::proofs::Common::append_assoc))]
fn put_sem_line(
    out: &mut Vec<u8>,
    format: &Format,
    no: u64,
    entry: &SemEntry,
) -> Result<(), AllocError>
    ensures { let k = known_in format.now in OnOk result (out.new.items ≡ out.old.items
        ++ line_of (decimal no ∷ decimal entry.now.cpu.0 ∷ task_word k entry.now.task.0
        ∷ sem_act_words k entry.now.act)) }
{
    put_number(out, no)?;
    put_next_number(out, u64::from(entry.cpu.0))?;
    put_next_task(out, format, entry.task)?;
    put_sem_act(out, format, entry.act)?;
    out.extend_from_slice(b"\n")
}

/// The lines of a semaphore's history.
fn put_history(out: &mut Vec<u8>, format: &Format, entries: &[SemEntry]) -> Result<(), AllocError>
    ensures { OnOk result (out.new.items
        ≡ out.old.items ++ texts (sem_lines (known_in format.now) 0 entries.now)) }
{
    for (i, entry) in entries.iter().enumerate() {
        put_sem_line(out, format, i as u64, entry)?;
    }
    Ok(())
}

/// The line of a semaphore, by its number.
#[tactic(auto, using(crate::proofs::LineTexts::head_text, std::proofs::Common::append_assoc))]
fn put_sem_head(out: &mut Vec<u8>, sem: u64) -> Result<(), AllocError>
    ensures { OnOk result (out.new.items
        ≡ out.old.items ++ line_of (codes "sem" ∷ decimal sem ∷ [])) }
{
    out.extend_from_slice(b"sem")?;
    put_next_number(out, sem)?;
    out.extend_from_slice(b"\n")
}

/// The histories of all semaphores, by rising number from 1.
pub(crate) fn put_sems(
    out: &mut Vec<u8>,
    format: &Format,
    sems: &[Vec<SemEntry>],
) -> Result<(), AllocError>
    requires { format.now.version ≡ Two }
    ensures { OnOk result (out.new.items
        ≡ out.old.items ++ texts (sems_from format.now.parts.now 1 (lists sems.now))) }
{
    for (i, entries) in sems.iter().enumerate() {
        put_sem_head(out, i as u64 + 1)?;
        put_history(out, format, entries.as_slice())?;
    }
    Ok(())
}
