//! The lines of an entry about its act.
ghost use Rattle.std.specs.Prelude.{◌≡◌, ◌+◌, ◌++◌, ◌∷◌, [], OnOk, codes, decimal};
ghost use Rattle.rt_base.specs.TaskNos.{number_of_task};
ghost use Rattle.why_texts.specs.Pieces.{line, state_line, task_name, task_or_dash};
ghost use Rattle.why_texts.specs.Sentences as texts;
ghost use Rattle.why_lines.specs.GroupSets.{group_in};

use crate::pieces::{GroupSet, put, put_number, put_task, put_task_or_dash};
use crate::sentences::sentence;
use rt_base::{CpuNo, NoMemory, TaskNo, Tick};
use rt_rules::Reply;

/// The clock of a state.
#[tactic(auto, using(std::proofs::Common::append_assoc))]
pub fn put_clock_line(out: &mut Vec<u8>, clock: Tick) -> Result<(), NoMemory>
    ensures { OnOk result (out.new.items
        ≡ out.old.items ++ state_line (codes "clock " ∷ decimal clock.0 ∷ [])) }
{
    put(out, b"  clock ")?;
    put_number(out, clock.0)?;
    put(out, b"\n")
}

/// What a processor ran.
#[tactic(auto, using(std::proofs::Common::append_assoc))]
pub fn put_ran_line(
    out: &mut Vec<u8>,
    set: &GroupSet,
    cpu: CpuNo,
    task: Option<TaskNo>,
) -> Result<(), NoMemory>
    ensures { let g = group_in set.now in OnOk result (out.new.items ≡ out.old.items ++ line (
        codes "processor " ∷ decimal cpu.0 ∷ codes " ran " ∷ task_or_dash g (number_of_task task)
        ∷ [])) }
{
    put(out, b"processor ")?;
    put_number(out, u64::from(cpu.0))?;
    put(out, b" ran ")?;
    put_task_or_dash(out, set, task)?;
    put(out, b"\n")
}

/// The sentence that explains a reply.
#[tactic(auto, using(std::proofs::Common::append_assoc))]
pub fn put_sentence_line(out: &mut Vec<u8>, reply: Reply) -> Result<(), NoMemory>
    ensures { OnOk result (out.new.items ≡ out.old.items ++ line (texts.sentence reply ∷ [])) }
{
    put(out, sentence(reply))?;
    put(out, b"\n")
}

/// The job that an act ended.
#[tactic(auto, using(std::proofs::Common::append_assoc))]
pub fn put_ended_line(
    out: &mut Vec<u8>,
    set: &GroupSet,
    job: u64,
    task: TaskNo,
) -> Result<(), NoMemory>
    ensures { let g = group_in set.now in OnOk result (out.new.items ≡ out.old.items ++ line (
        codes "ended job " ∷ decimal job ∷ codes " of " ∷ task_name g task.0 ∷ [])) }
{
    put(out, b"ended job ")?;
    put_number(out, job)?;
    put(out, b" of ")?;
    put_task(out, set, task)?;
    put(out, b"\n")
}

/// The link of a processor.
#[tactic(auto, using(std::proofs::Common::append_assoc))]
pub fn put_link_line(
    out: &mut Vec<u8>,
    set: &GroupSet,
    cpu: CpuNo,
    link: Option<TaskNo>,
) -> Result<(), NoMemory>
    ensures { let g = group_in set.now in OnOk result (out.new.items ≡ out.old.items ++ state_line (
        codes "processor " ∷ decimal cpu.0 ∷ codes " linked " ∷ task_or_dash g (number_of_task link)
        ∷ [])) }
{
    put(out, b"  processor ")?;
    put_number(out, u64::from(cpu.0))?;
    put(out, b" linked ")?;
    put_task_or_dash(out, set, link)?;
    put(out, b"\n")
}
