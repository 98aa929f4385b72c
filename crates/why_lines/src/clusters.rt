//! The lines of a cluster.
ghost use Rattle.std.specs.Prelude.{◌≡◌, ◌++◌, ◌∷◌, [], OnOk, codes, decimal, not};
ghost use Rattle.rt_base.specs.TaskNos.{number_of_task, numbers};
ghost use Rattle.rt_rules.specs.Numbers.{same};
ghost use Rattle.why_texts.specs.ClusterLines.{pending_piece};
ghost use Rattle.why_texts.specs.Pieces.{state_line, task_names, task_or_dash};
ghost use Rattle.why_lines.specs.GroupSets.{group_in};

use crate::pieces::{GroupSet, put, put_number, put_task_or_dash, put_tasks};
use rt_base::{ClusterNo, CpuNo, NoMemory, TaskNo};

/// How the eligible tasks of a cluster are ranked, the top before the bar.
#[tactic(auto, using(std::proofs::Common::append_assoc))]
pub fn put_rank_line(
    out: &mut Vec<u8>,
    set: &GroupSet,
    cluster: ClusterNo,
    top: &[TaskNo],
    behind: &[TaskNo],
) -> Result<(), NoMemory>
    ensures { let g = group_in set.now in OnOk result (out.new.items ≡ out.old.items ++ state_line (
        codes "cluster " ∷ decimal cluster.0 ∷ codes " ranks" ∷ task_names g (numbers top.now)
        ∷ codes " |" ∷ task_names g (numbers behind.now) ∷ [])) }
{
    put(out, b"  cluster ")?;
    put_number(out, u64::from(cluster.0))?;
    put(out, b" ranks")?;
    put_tasks(out, set, top)?;
    put(out, b" |")?;
    put_tasks(out, set, behind)?;
    put(out, b"\n")
}

/// Whether two processors have the same task, or both none.
fn is_same(a: Option<TaskNo>, b: Option<TaskNo>) -> bool
    ensures { result ≡ same (number_of_task a) (number_of_task b) }
{
    match (a, b) {
        (Some(t), Some(u)) => t.0 == u.0,
        (None, None) => true,
        _ => false,
    }
}

fn pending_word(pending: bool) -> &'static [u8]
    ensures { result.now ≡ pending_piece pending }
{
    if pending { b" pending" } else { b"" }
}

#[tactic(auto, using(std::proofs::Common::append_assoc))]
fn put_cpu(out: &mut Vec<u8>, cpu: CpuNo) -> Result<(), NoMemory>
    ensures { OnOk result (out.new.items
        ≡ out.old.items ++ (codes "  processor " ++ decimal cpu.0)) }
{
    put(out, b"  processor ")?;
    put_number(out, u64::from(cpu.0))
}

/// What a processor runs and its link; where they differ, an interrupt is pending.
#[tactic(auto, using(std::proofs::Common::append_assoc))]
pub fn put_cpu_line(
    out: &mut Vec<u8>,
    set: &GroupSet,
    cpu: CpuNo,
    runs: Option<TaskNo>,
    link: Option<TaskNo>,
) -> Result<(), NoMemory>
    ensures { let g = group_in set.now in
        let r = number_of_task runs in
        let l = number_of_task link in
        OnOk result (out.new.items ≡ out.old.items ++ state_line (
        codes "processor " ∷ decimal cpu.0 ∷ codes " runs " ∷ task_or_dash g r
        ∷ codes " linked " ∷ task_or_dash g l ∷ pending_piece (not (same l r)) ∷ [])) }
{
    put_cpu(out, cpu)?;
    put(out, b" runs ")?;
    put_task_or_dash(out, set, runs)?;
    put(out, b" linked ")?;
    put_task_or_dash(out, set, link)?;
    put(out, pending_word(!is_same(link, runs)))?;
    put(out, b"\n")
}
