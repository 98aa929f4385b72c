//! What is kept of a semaphore's users.
ghost use Rattle.std.specs.Prelude.{◌≡◌, Some};
ghost use Rattle.mpcp_ceilings.specs.Ceilings as told;
ghost use Rattle.mpcp_ceilings.specs.inside.Noting as noted;

use rt_base::ClusterNo;

/// Two priority numbers of a semaphore's users, 1 being the highest.
#[derive(Clone, Copy, PartialEq, Eq)]
pub(crate) struct UserPrios {
    // The smallest of all, and the cluster of a user that has it.
    smallest: u32,
    cluster: ClusterNo,
    // The smallest among the users of other clusters than that.
    elsewhere: Option<u32>,
}

fn lower(prio: u32, other: Option<u32>) -> u32
    ensures { result ≡ noted.lowered prio other }
{
    match other {
        None => prio,
        Some(other) => prio.min(other),
    }
}

/// What is kept of the users, with one more of this priority number in this cluster.
pub(crate) fn with_user(row: Option<UserPrios>, prio: u32, cluster: ClusterNo) -> UserPrios
    ensures { result ≡ noted.with_user prio cluster row }
{
    let Some(users) = row else {
        return UserPrios {
            smallest: prio,
            cluster,
            elsewhere: None,
        };
    };
    if users.cluster.0 == cluster.0 {
        UserPrios {
            smallest: prio.min(users.smallest),
            ..users
        }
    } else if prio < users.smallest {
        UserPrios {
            smallest: prio,
            cluster,
            elsewhere: Some(users.smallest),
        }
    } else {
        UserPrios {
            elsewhere: Some(lower(prio, users.elsewhere)),
            ..users
        }
    }
}

/// The smallest priority number among the users outside a cluster.
pub(crate) fn smallest_outside(row: Option<UserPrios>, cluster: ClusterNo) -> Option<u32>
    ensures { result ≡ told.smallest_outside cluster.0 row }
{
    let users = row?;
    if users.cluster.0 == cluster.0 {
        users.elsewhere
    } else {
        Some(users.smallest)
    }
}
