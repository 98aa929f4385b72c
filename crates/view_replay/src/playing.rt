//! A replay plays what it is told.
ghost use Rattle.std.specs.Prelude.{◌≡◌, ℕ};
ghost use Rattle.rt_model.specs.Group.{Group};
ghost use Rattle.rt_model.specs.Past.{Past};
ghost use Rattle.view_replay.specs.Replays as replays;

use crate::player::Player;
use crate::replay::Replay;
use block_counts::Seen;
use rank_afresh::Afresh;
use rt_base::{GroupNo, NoMemory, Tick};
use rt_rules::Reply;
use rt_task::{Parts, Setup, Step};
use std::alloc::Global;

impl Player for Replay {
    ghost at = { λ r g past. (replays.group_of r ≡ g) × replays.IsAt r past };

    ghost moved = { λ r tick g past. (replays.group_of r ≡ g) × replays.IsMoved r tick past };

    ghost spare = { λ r. replays.spare r };

    fn open(alloc: Global, setup: &Setup, group: GroupNo, room: u32) -> Result<Replay, NoMemory> {
        Replay::open(alloc, setup, group, room)
    }

    fn move_clock(&mut self, _alloc: Global, tick: Tick) -> Result<(), NoMemory> {
        self.clock(tick);
        Ok(())
    }

    fn answer(&mut self, _alloc: Global, _parts: &Parts, step: Step) -> Result<Reply, NoMemory> {
        Ok(self.act(step).reply)
    }

    fn afresh(&self) -> &Afresh {
        self.afresh()
    }

    fn requests(&self) -> &[Seen] {
        self.requests()
    }
}
