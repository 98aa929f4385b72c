//! Telling tasks whom they wait for.
ghost use Rattle.std.specs.Prelude.{◌≡◌, ◌∷◌, [], Some, slice_set};
ghost use Rattle.rt_base.specs.TaskNos.{numbers};
ghost use Rattle.group_sems.specs.Telling.{CanTell, told};

use prio_inherit::Inherit;
use rt_base::TaskNo;

/// The task waits for the owner.
pub(crate) fn tell(keys: &mut Inherit, task: TaskNo, owner: TaskNo)
    requires { CanTell owner.0 (task.0 ∷ []) keys.old.bases keys.old.nexts }
    ensures { keys.new ≡ record keys.old {
      nexts = slice_set keys.old.nexts task.0 (Some owner.0);
    } }
{
    keys.waits(task, owner);
}

/// Each of these tasks waits for the owner.
pub(crate) fn tell_all(keys: &mut Inherit, waiters: &[TaskNo], owner: TaskNo)
    requires { CanTell owner.0 (numbers waiters.now) keys.old.bases keys.old.nexts }
    ensures { keys.new ≡ record keys.old {
      nexts = told owner.0 (numbers waiters.now) keys.old.nexts;
    } }
{
    for waiter in waiters {
        tell(keys, *waiter, owner);
    }
}
