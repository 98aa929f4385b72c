//! The end of a move that touched one reservation alone.
ghost use Rattle.std.specs.Prelude.{◌≡◌, ◌+◌, ◌≤◌, length, vec_capacity};
ghost use Rattle.rt_base.specs.TaskNos.{numbers, numbers_of_tasks};
ghost use Rattle.resv_core.specs.Serving.{all_settled};
ghost use Rattle.group_resvs.specs.GroupResvs.{AllServe, all_changed};
ghost use Rattle.group_resvs.specs.Touched.{IsSettledBut};

use crate::changes::put_changed;
use crate::serving::served_by;
use crate::touched::Touched;
use resv_core::Resvs;
use rt_base::{ResvNo, TaskNo};

/// Settles the reservation, and lists the clients whose being served that changes, in room that was taken before.
pub(crate) fn settle_one(
    resvs: &mut Resvs,
    serves: &mut [Option<TaskNo>],
    changed: &mut Vec<TaskNo>,
    resv: ResvNo,
)
    requires others { IsSettledBut (Touched.One resv) resvs.old (numbers_of_tasks serves.old) }
    requires all { length serves.old ≡ length resvs.old.servers }
    requires room { length serves.old + length serves.old ≤ vec_capacity changed.old }
    ensures resvs { resvs.new ≡ all_settled resvs.old }
    ensures serves { AllServe resvs.new (numbers_of_tasks serves.new) }
    ensures changed { numbers changed.new.items
        ≡ all_changed (numbers_of_tasks serves.old) (numbers_of_tasks serves.new) }
    ensures capacity { vec_capacity changed.old ≤ vec_capacity changed.new }
{
    resvs.settle_one(resv);
    let now = served_by(resvs, resv);
    let served = &mut serves[resv.0 as usize - 1];
    changed.clear();
    put_changed(changed, *served, now);
    *served = now;
}
