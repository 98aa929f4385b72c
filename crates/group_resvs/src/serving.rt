//! The client that each reservation serves.
ghost use Rattle.std.specs.Prelude.{◌≡◌, ◌≤◌, length, vec_capacity, vec_len};
ghost use Rattle.rt_base.specs.declared.TheConstants.{MOST_RESVS};
ghost use Rattle.rt_base.specs.TaskNos.{number_of_task, numbers_of_tasks};
ghost use Rattle.resv_core.specs.Served.{server, IsResv};
ghost use Rattle.group_resvs.specs.GroupResvs.{AllServe, Serves};

use resv_core::Resvs;
use rt_base::{ResvNo, TaskNo};

/// The client that the reservation serves: its front client, as long as it has budget.
pub(crate) fn served_by(resvs: &Resvs, resv: ResvNo) -> Option<TaskNo>
    requires { IsResv resvs.now resv.0 }
    ensures { Serves (server resvs.now resv.0) (number_of_task result) }
{
    if resvs.budget(resv) > 0 {
        resvs.front(resv)
    } else {
        None
    }
}

/// Lists the client that each reservation serves, by rising number, in room that was taken before.
pub(crate) fn list_served(resvs: &Resvs, into: &mut Vec<Option<TaskNo>>)
    requires few { length resvs.now.servers ≤ MOST_RESVS }
    requires room { length resvs.now.servers ≤ vec_capacity into.old }
    ensures all { AllServe resvs.now (numbers_of_tasks into.new.items) }
    ensures len { vec_len into.new ≡ length resvs.now.servers }
    ensures capacity { vec_capacity into.old ≤ vec_capacity into.new }
{
    into.clear();
    for i in 0..resvs.count() {
        into.push_reserved(served_by(resvs, ResvNo(i as u32 + 1)));
    }
}
