//! Links of processors, compared.
ghost use Rattle.std.specs.Prelude.{◌≡◌, OnOk, length};
ghost use Rattle.rt_base.specs.TaskNos.{number_of_task};
ghost use Rattle.rt_rules.specs.Numbers.{same};
ghost use Rattle.trace_lines.specs.Lines.{links_of};
ghost use Rattle.trace_text.specs.Groups.{changed_links};

use rt_base::{NoMemory, TaskNo};
use trace_lines::CpuLink;

/// Whether two processors are linked alike: to the same task, or to none.
pub fn is_same_task(a: Option<TaskNo>, b: Option<TaskNo>) -> bool
    ensures { result ≡ same (number_of_task a) (number_of_task b) }
{
    match (a, b) {
        (Some(t), Some(u)) => t.0 == u.0,
        (None, None) => true,
        _ => false,
    }
}

/// Puts those of the links that are others than before, position by position, in the place of what stood
/// in `changed`.
#[tactic(auto, using(std::proofs::Common::append_assoc))]
pub fn put_changed(
    before: &[CpuLink],
    links: &[CpuLink],
    changed: &mut Vec<CpuLink>,
) -> Result<(), NoMemory>
    requires { length links.now ≡ length before.now }
    ensures { OnOk result
        (links_of changed.new.items ≡ changed_links (links_of before.now) (links_of links.now)) }
{
    changed.clear();
    for (i, link) in links.iter().enumerate() {
        if is_same_task(before[i].task, link.task) {
            continue;
        }
        changed.push(*link)?;
    }
    Ok(())
}
