ghost use Rattle.std.specs.Prelude.{◌≡◌, length};

use crate::seeds::next;
use release_queue::ReleaseQueue;
use rt_base::{TaskNo, Tick};
use std::alloc::Global;
use std::collections::{BTreeMap, BTreeSet};
use std::process::Abort;
use std::test::Fail;

// The timers that std's ordered collections keep.
#[derive(Drop)]
struct Plain {
    ticks: BTreeMap<u32, u64>,
    order: BTreeSet<(u64, u32)>,
}

impl Plain {
    fn new(alloc: Global) -> Plain {
        Plain {
            ticks: BTreeMap::new(alloc),
            order: BTreeSet::new(alloc),
        }
    }

    fn cancel(&mut self, task: u32) -> bool {
        match self.ticks.remove(&task) {
            Some(tick) => self.order.remove(&(tick, task)),
            None => false,
        }
    }

    fn arm(&mut self, task: u32, tick: u64) -> Result<(), Fail> {
        self.ticks.insert(task, tick)?;
        self.order.insert((tick, task))?;
        Ok(())
    }

    fn first(&self) -> Option<(u64, u32)> {
        self.order.first().copied()
    }

    fn next_due(&mut self, now: u64) -> Option<u32> {
        let (tick, task) = self.first()?;
        if tick > now {
            return None;
        }
        self.cancel(task);
        Some(task)
    }
}

fn play_timer(
    rt: &impl Abort,
    queue: &mut ReleaseQueue,
    plain: &mut Plain,
    seed: u64,
) -> Result<(), Fail>
    requires { length queue.old ≡ 64 }
    ensures { length queue.new ≡ 64 }
{
    let task = (seed >> 33) as u32 % 64;
    let tick = (seed >> 40) % 1000;
    match (seed >> 60) % 3 {
        0 => {
            assert_eq!(rt; queue.cancel(TaskNo(task)), plain.cancel(task));
            queue.arm(TaskNo(task), tick);
            plain.arm(task, tick)?;
        }
        1 => assert_eq!(rt; queue.cancel(TaskNo(task)), plain.cancel(task)),
        _ => {
            let due = queue.next_due(Tick(tick)).map(|t| t.0);
            assert_eq!(rt; due, plain.next_due(tick));
        }
    }
    Ok(())
}

#[test]
fn timers_beside_ordered_maps(rt: HostRuntime) -> Result<(), Fail> {
    let Ok(mut queue) = ReleaseQueue::new(rt.alloc(), 64) else {
        return Err(Fail::new("no memory"));
    };
    let mut plain = Plain::new(rt.alloc());
    let mut seed = 1;
    for _ in 0..100_000 {
        seed = next(seed);
        play_timer(&rt, &mut queue, &mut plain, seed)?;
    }
    Ok(())
}
