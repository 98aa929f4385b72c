//! A group as the value of a turn.
use crate::group::Group;
use rt_rules::Entry;
use rt_task::Parts;
use turn_cell::Story;

/// A setup and a group of it. No value of it is made.
pub struct GroupOf {
    pub setup: Parts,
    pub number: u32,
}

/// The history are the group's entries. The turn numbers the group's processors from 0, by rising number.
impl Story for Group {
    type Entry = Entry;

    type Subject = GroupOf;

    ghost use Rattle.cpu_site.specs.Raises.{raises_of};
    ghost use Rattle.cpu_site.specs.Seats.{about, position_of_cpu};

    ghost list = { λ g. g.entries };

    ghost cpu = { position_of_cpu };

    ghost raises = { λ g. raises_of g };

    ghost subject = { λ g. about g };

    fn count(&self) -> u64 {
        self.len()
    }
}
