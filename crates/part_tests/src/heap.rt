ghost use Rattle.std.specs.Prelude.{◌≡◌, length};

use crate::seeds::next;
use ready_heap::ReadyHeap;
use rt_base::TaskNo;
use rt_rules::{ByKey, Key, Steps};
use std::alloc::Global;
use std::collections::{BTreeMap, BTreeSet};
use std::marker::Brand;
use std::process::Abort;
use std::sync::ledger::{Blank, Ledger};
use std::test::Fail;

fn key(band: u32, major: u64, minor: u32) -> Key {
    Key { band, major, minor }
}

type Rank = (u32, u64, u32);

// The ready tasks that std's ordered collections keep.
#[derive(Drop)]
struct Plain {
    keys: BTreeMap<u32, Rank>,
    order: BTreeSet<(Rank, u32)>,
}

impl Plain {
    fn new(alloc: Global) -> Plain {
        Plain {
            keys: BTreeMap::new(alloc),
            order: BTreeSet::new(alloc),
        }
    }

    fn remove(&mut self, task: u32) -> bool {
        match self.keys.remove(&task) {
            Some(rank) => self.order.remove(&(rank, task)),
            None => false,
        }
    }

    fn insert(&mut self, task: u32, rank: Rank) -> Result<(), Fail> {
        self.keys.insert(task, rank)?;
        self.order.insert((rank, task))?;
        Ok(())
    }

    fn first(&self) -> Option<u32> {
        self.order.first().map(|e| e.1)
    }

    fn take_first(&mut self) -> Option<u32> {
        let task = self.first()?;
        self.remove(task);
        Some(task)
    }
}

fn play_call<L: Ledger>(
    rt: &impl Abort,
    heap: &mut ReadyHeap<ByKey>,
    plain: &mut Plain,
    seed: u64,
    steps: &mut Steps<L>,
) -> Result<(), Fail>
    requires { length heap.old.keys ≡ 64 }
    ensures { length heap.new.keys ≡ 64 }
{
    let task = (seed >> 33) as u32 % 64;
    let rank = (
        (seed >> 40) as u32 % 4,
        (seed >> 44) % 8,
        (seed >> 50) as u32 % 4,
    );
    match (seed >> 60) % 4 {
        0 => {
            assert_eq!(rt; heap.remove(TaskNo(task), steps), plain.remove(task));
            heap.insert(TaskNo(task), key(rank.0, rank.1, rank.2), steps);
            plain.insert(task, rank)?;
        }
        1 => assert_eq!(rt; heap.remove(TaskNo(task), steps), plain.remove(task)),
        2 => {
            assert_eq!(rt; heap.remove(TaskNo(task), steps), plain.remove(task));
            heap.insert(TaskNo(task), key(0, 0, 0), steps);
            heap.rekey(TaskNo(task), key(rank.0, rank.1, rank.2), steps);
            plain.insert(task, rank)?;
        }
        _ => {
            assert_eq!(rt; heap.first().map(|t| t.0), plain.first());
            let taken = heap.take_first(steps).map(|t| t.0);
            assert_eq!(rt; taken, plain.take_first());
        }
    }
    Ok(())
}

fn play<L: Ledger>(rt: &impl Abort, alloc: Global, blank: Blank) -> Result<(), Fail>
    requires name { blank.name ≡ L.name }
    requires parts { blank.parts ≡ L.parts }
    requires one_part { blank.parts ≡ 1 }
{
    let mut steps = Steps::<L>::new(blank);
    let Ok(mut heap) = ReadyHeap::new(alloc, ByKey, 64) else {
        return Err(Fail::new("no memory"));
    };
    let mut plain = Plain::new(alloc);
    let mut seed = 1;
    for _ in 0..100_000 {
        seed = next(seed);
        play_call(rt, &mut heap, &mut plain, seed, &mut steps)?;
    }
    Ok(())
}

#[test]
fn heap_beside_ordered_maps(rt: HostRuntime) -> Result<(), Fail> {
    play::<Brand>(&rt, rt.alloc(), Blank::new(1))
}
