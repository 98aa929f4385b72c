//! A group whose spans and jobs are recorded as its steps are taken.
ghost use Rattle.std.specs.Prelude.{◌≡◌, ℕ};
ghost use Rattle.view_events.specs.inside.Recordings.{IsMoved, IsRecorded, group_of, spare};

use block_counts::Seen;
use job_marks::JobTimes;
use rank_afresh::Afresh;
use rt_base::{GroupNo, NoMemory, Tick};
use rt_rules::Reply;
use rt_task::{Parts, Setup, Step};
use span_feed::{Members, SpanFeed};
use std::alloc::Global;
use trace_text::cpus_of;
use view_replay::{Player, Replay};
use why_lines::{GroupSet, resvs_of, tasks_of};

/// A group whose steps are taken, its spans and the times of its jobs so far.
#[derive(Drop)]
pub(crate) struct Recording {
    pub(crate) replay: Replay,
    pub(crate) feed: SpanFeed,
    pub(crate) times: JobTimes,
}

impl Player for Recording {
    ghost at = { λ r g past. (group_of r ≡ g) × IsRecorded past r };

    ghost moved = { λ r tick g past. (group_of r ≡ g) × IsMoved tick past r };

    ghost spare = { λ r. spare r };

    fn open(
        alloc: Global,
        setup: &Setup,
        group: GroupNo,
        room: u32,
    ) -> Result<Recording, NoMemory> {
        let parts = setup.parts();
        let set = GroupSet { parts, group };
        let tasks = tasks_of(alloc, &set)?;
        let cpus = cpus_of(alloc, setup, group)?;
        let resvs = resvs_of(alloc, &set)?;
        let members = Members {
            group,
            tasks: tasks.as_slice(),
            cpus: cpus.as_slice(),
            resvs: resvs.as_slice(),
        };
        let replay = Replay::open(alloc, setup, group, room)?;
        let feed = SpanFeed::open(alloc, parts, &members, replay.afresh(), room)?;
        let times = JobTimes::open(alloc, parts.tasks.as_slice().len() as u32)?;
        Ok(Recording {
            replay,
            feed,
            times,
        })
    }

    fn move_clock(&mut self, alloc: Global, tick: Tick) -> Result<(), NoMemory> {
        let Recording { replay, feed, .. } = self;
        feed.turn(alloc, replay.afresh(), replay.now(), tick)?;
        replay.clock(tick);
        feed.see(alloc, replay.afresh(), replay.now())
    }

    fn answer(&mut self, alloc: Global, parts: &Parts, step: Step) -> Result<Reply, NoMemory> {
        let Recording {
            replay,
            feed,
            times,
        } = self;
        let mut unit = feed.foretell(alloc, parts, replay.afresh(), step.cpu, step.act)?;
        let act = replay.act(step);
        feed.act(alloc, replay.afresh(), &act, &mut unit)?;
        times.feed(replay.now(), &act)?;
        Ok(act.reply)
    }

    fn afresh(&self) -> &Afresh {
        self.replay.afresh()
    }

    fn requests(&self) -> &[Seen] {
        self.replay.requests()
    }
}
