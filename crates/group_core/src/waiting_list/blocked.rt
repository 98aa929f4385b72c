//! Whether a task that waits is priority-blocked.
ghost use Rattle.std.specs.Prelude.{◌≡◌, ◌<◌, ℕ, length, slice_index_or};
ghost use Rattle.rt_model.specs.Group.{no_task};
ghost use Rattle.group_core.specs.inside.Blocked as words;
ghost use Rattle.group_core.specs.inside.Blocked.{CanRank, CanRankTask};

use group_jobs::GroupJobs;
use rt_base::{ClusterNo, TaskNo};
use rt_rules::Key;
use rt_task::{Parts, Task};

/// Whether the task is of the cluster, and has a current job with a higher base key.
fn is_above(parts: &Parts, jobs: &GroupJobs, cluster: ClusterNo, key: Key, task: &Task) -> bool
    requires can { CanRank parts.now jobs.now.kept cluster.0 }
    requires task { (i : ℕ) × (i < length parts.now.tasks)
        × (task.now ≡ slice_index_or parts.now.tasks i no_task) }
    ensures { result ≡ words.is_above parts.now jobs.now.kept cluster.0 key task.now }
{
    if task.cluster.0 != cluster.0 {
        return false;
    }
    if !jobs.is_there(parts.tasks.as_slice(), task.number) {
        return false;
    }
    jobs.base_key(parts, task.number).is_higher(key)
}

/// Whether fewer tasks of the task's cluster than this has processors have a current job with a higher base key.
pub(crate) fn is_among_first(parts: &Parts, jobs: &GroupJobs, task: TaskNo) -> bool
    requires { CanRankTask parts.now jobs.now.kept task.0 }
    ensures { result ≡ words.is_among_first parts.now jobs.now.kept task.0 }
{
    let cluster = parts.tasks.as_slice()[task.0 as usize - 1].cluster;
    let key = jobs.base_key(parts, task);
    let mut above = 0;
    for other in parts.tasks.as_slice() {
        if is_above(parts, jobs, cluster, key, other) {
            above += 1;
        }
    }
    above < parts.clusters.as_slice()[cluster.0 as usize].cpus
}
