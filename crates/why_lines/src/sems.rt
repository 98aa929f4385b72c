//! The line of a semaphore.
ghost use Rattle.std.specs.Prelude.{◌≡◌, ◌++◌, ◌∷◌, [], OnOk, codes};
ghost use Rattle.rt_base.specs.TaskNos.{number_of_task, numbers};
ghost use Rattle.rt_model.specs.Group.{protocol};
ghost use Rattle.set_canonical.specs.Words as words;
ghost use Rattle.why_texts.specs.Pieces.{key_piece, sem_name, state_line, task_or_dash};
ghost use Rattle.why_texts.specs.SemLines.{waiting_piece};
ghost use Rattle.why_lines.specs.GroupSets.{group_in};
ghost use Rattle.why_lines.specs.Ceilings.{ceiling_shown};

use crate::pieces::{GroupSet, protocol_of, put, put_key, put_sem, put_task, put_task_or_dash};
use rt_base::{NoMemory, SemNo, TaskNo};
use rt_rules::Key;
use rt_task::Protocol;
use set_canonical::protocol_word;

/// The ceiling of a semaphore, under PCP.
#[tactic(auto, using(std::proofs::Common::append_assoc))]
fn put_ceiling(out: &mut Vec<u8>, protocol: Protocol, ceiling: Key) -> Result<(), NoMemory>
    ensures { OnOk result (out.new.items ≡ out.old.items ++ ceiling_shown protocol ceiling) }
{
    if matches!(protocol, Protocol::Pcp) {
        put(out, b" ceiling ")?;
        put_key(out, ceiling)?;
    }
    Ok(())
}

/// The tasks that wait for a semaphore.
#[tactic(auto, using(std::proofs::Common::append_assoc))]
fn put_waiting(out: &mut Vec<u8>, set: &GroupSet, tasks: &[TaskNo]) -> Result<(), NoMemory>
    ensures { OnOk result (out.new.items
        ≡ out.old.items ++ waiting_piece (group_in set.now) (numbers tasks.now)) }
{
    for task in tasks {
        put(out, b" waiting ")?;
        put_task(out, set, *task)?;
    }
    Ok(())
}

/// The name and the protocol of a semaphore.
#[tactic(auto, using(std::proofs::Common::append_assoc))]
fn put_sem_start(
    out: &mut Vec<u8>,
    set: &GroupSet,
    sem: SemNo,
    protocol: Protocol,
) -> Result<(), NoMemory>
    ensures { OnOk result (out.new.items ≡ out.old.items ++ (codes "  sem "
        ++ (sem_name (group_in set.now) sem.0 ++ (codes " " ++ words.protocol_word protocol)))) }
{
    put(out, b"  sem ")?;
    put_sem(out, set, sem)?;
    put(out, b" ")?;
    put(out, protocol_word(protocol))
}

/// Who holds a semaphore, under PCP its ceiling, and who waits for it.
#[tactic(auto, using(std::proofs::Common::append_assoc))]
pub fn put_sem_line(
    out: &mut Vec<u8>,
    set: &GroupSet,
    sem: SemNo,
    holder: Option<TaskNo>,
    ceiling: Key,
    waiting: &[TaskNo],
) -> Result<(), NoMemory>
    ensures { let g = group_in set.now in OnOk result (out.new.items ≡ out.old.items ++ state_line (
        codes "sem " ∷ sem_name g sem.0 ∷ codes " " ∷ words.protocol_word (protocol g sem.0)
        ∷ codes " held by " ∷ task_or_dash g (number_of_task holder)
        ∷ ceiling_shown (protocol g sem.0) ceiling ∷ waiting_piece g (numbers waiting.now) ∷ [])) }
{
    let protocol = protocol_of(set, sem);
    put_sem_start(out, set, sem, protocol)?;
    put(out, b" held by ")?;
    put_task_or_dash(out, set, holder)?;
    put_ceiling(out, protocol, ceiling)?;
    put_waiting(out, set, waiting)?;
    put(out, b"\n")
}
