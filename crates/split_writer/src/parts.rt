//! The histories of partitions, as lines.
ghost use Rattle.std.specs.Prelude.{◌≡◌, ◌∷◌, [], ◌++◌, suc, OnOk, codes, decimal, length};
ghost use Rattle.rt_base.specs.TaskNos.{number_of_task, numbers_of_tasks};
ghost use Rattle.rt_rules.specs.Numbers.{same};
ghost use Rattle.split_text.specs.SplitText.{line_of, link_words, split_act_words};
ghost use Rattle.split_writer.specs.inside.Texts.{lines_with, part_words, texts};
ghost use Rattle.trace_lines.specs.Grammar.{target_word};
ghost use Rattle.trace_lines.specs.Known.{known_in};
ghost use Rattle.trace_lines.specs.Words.{further};

use rt_base::{CpuNo, SemNo, TaskNo};
use split_rules::{SplitAct, SplitEntry};
use std::alloc::AllocError;
use trace_lines::{
    Format, put_act, put_next_number, put_next_word, put_number, put_reply, put_target,
};

/// A task or a dash, after a space.
#[tactic(auto, using(std::proofs::Common::append_assoc))]
fn put_next_target(
    out: &mut Vec<u8>,
    format: &Format,
    task: Option<TaskNo>,
) -> Result<(), AllocError>
    ensures { OnOk result (out.new.items
        ≡ out.old.items ++ 32 ∷ target_word (known_in format.now) (number_of_task task)) }
{
    out.extend_from_slice(b" ")?;
    put_target(out, format, task)
}

/// A grant that is taken, each word after a space.
#[tactic(auto, using(std::proofs::Common::append_assoc))]
fn put_take(out: &mut Vec<u8>, sem: SemNo, no: u32) -> Result<(), AllocError>
    ensures { OnOk result (out.new.items
        ≡ out.old.items ++ further 32 (codes "take" ∷ decimal sem.0 ∷ decimal no ∷ [])) }
{
    put_next_word(out, b"take")?;
    put_next_number(out, u64::from(sem.0))?;
    put_next_number(out, u64::from(no))
}

/// What a partition does, each word after a space.
fn put_split_act(out: &mut Vec<u8>, format: &Format, act: SplitAct) -> Result<(), AllocError>
    ensures { OnOk result (out.new.items
        ≡ out.old.items ++ further 32 (split_act_words (known_in format.now) act)) }
{
    match act {
        SplitAct::Plain(act) => put_act(out, format, act),
        SplitAct::Take { sem, no, .. } => put_take(out, sem, no),
    }
}

fn is_same(was: Option<TaskNo>, now: Option<TaskNo>) -> bool
    ensures { result ≡ same (number_of_task was) (number_of_task now) }
{
    match (was, now) {
        (None, None) => true,
        (Some(was), Some(now)) => was.0 == now.0,
        _ => false,
    }
}

/// The new link, after a space, where it is another one.
fn put_link(
    out: &mut Vec<u8>,
    format: &Format,
    was: Option<TaskNo>,
    now: Option<TaskNo>,
) -> Result<(), AllocError>
    ensures { let links = link_words (known_in format.now) in OnOk result (out.new.items
        ≡ out.old.items ++ further 32 (links (number_of_task was) (number_of_task now))) }
{
    if is_same(was, now) {
        return Ok(());
    }
    put_next_target(out, format, now)
}

/// The line of an entry of a partition's history, by the links before it and after it.
#[tactic(auto, using(crate::proofs::LineTexts::part_text, std::proofs::Common::append_assoc))]
fn put_part_line(
    out: &mut Vec<u8>,
    format: &Format,
    no: u64,
    entry: &SplitEntry,
    was: Option<TaskNo>,
    now: Option<TaskNo>,
) -> Result<(), AllocError>
    ensures { let words = part_words (known_in format.now) in OnOk result (out.new.items
        ≡ out.old.items ++ line_of (words no entry.now (number_of_task was) (number_of_task now))) }
{
    put_number(out, no)?;
    put_next_number(out, entry.tick.0)?;
    put_split_act(out, format, entry.act)?;
    put_reply(out, format, entry.reply)?;
    put_link(out, format, was, now)?;
    out.extend_from_slice(b"\n")
}

/// The lines of a partition's entries, by the link at the opening and the one after each entry.
pub(crate) fn put_entries(
    out: &mut Vec<u8>,
    format: &Format,
    links: &[Option<TaskNo>],
    entries: &[SplitEntry],
) -> Result<(), AllocError>
    requires { length links.now ≡ suc (length entries.now) }
    ensures { let lines = lines_with (known_in format.now) in OnOk result (out.new.items
        ≡ out.old.items ++ texts (lines 0 (numbers_of_tasks links.now) entries.now)) }
{
    for (i, entry) in entries.iter().enumerate() {
        put_part_line(out, format, i as u64, entry, links[i], links[i + 1])?;
    }
    Ok(())
}

/// The line of a partition, by its processor and the link at the opening.
#[tactic(auto, using(crate::proofs::LineTexts::opening_text, std::proofs::Common::append_assoc))]
pub(crate) fn put_opening(
    out: &mut Vec<u8>,
    format: &Format,
    cpu: CpuNo,
    link: Option<TaskNo>,
) -> Result<(), AllocError>
    ensures { let link_word = target_word (known_in format.now) (number_of_task link) in
        OnOk result (out.new.items
        ≡ out.old.items ++ line_of (codes "part" ∷ decimal cpu.0 ∷ link_word ∷ [])) }
{
    out.extend_from_slice(b"part")?;
    put_next_number(out, u64::from(cpu.0))?;
    put_next_target(out, format, link)?;
    out.extend_from_slice(b"\n")
}
