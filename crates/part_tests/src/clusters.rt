ghost use Rattle.std.specs.Prelude.{◌≡◌, ◌≢◌, ℕ, ◌<◌, length, slice_index};
ghost use Rattle.cluster_table.specs.Table.{HasProcessor, HasTask};

use cluster_table::{ClusterTable, PlacedMarks};
use rt_base::{CpuNo, GroupNo, TaskNo};
use rt_rules::{Key, Reply};
use rt_task::Cluster;
use std::alloc::Global;
use std::process::Abort;

// Two clusters of group 0 around one of group 1: processors 0 and 1 are of the first, and 3 and 4 of the last.
const ROWS: [Cluster; 3] = [
    Cluster {
        cpus: 2,
        group: GroupNo(0),
    },
    Cluster {
        cpus: 1,
        group: GroupNo(1),
    },
    Cluster {
        cpus: 2,
        group: GroupNo(0),
    },
];

// A call at a processor or at its cluster, with what it is to answer.
#[derive(Clone, Copy)]
enum Call {
    // A task is eligible from now on, with a key of this middle part; a smaller one is higher.
    Ready(u32, u64),
    Gone(u32),
    Place,
    // Whether the last `Place` placed the links of the processor's cluster anew.
    Placed(bool),
    Irq(bool, Reply),
    Leave,
    Linked(Option<TaskNo>),
    Runs(Option<TaskNo>),
    First(Option<TaskNo>),
}

fn key(major: u64) -> Key {
    Key {
        band: 2,
        major,
        minor: 0,
    }
}

fn play(rt: &impl Abort, table: &mut ClusterTable, placed: &mut PlacedMarks, q: CpuNo, call: Call)
    requires count { length table.old.homes ≡ 5 }
    requires fit { (q t : ℕ) → q < 5 → q ≢ 2 → t < 8
        → HasProcessor table.old (slice_index table.old.homes q) q
        × HasTask table.old (slice_index table.old.homes q) t }
    ensures count { length table.new.homes ≡ 5 }
    ensures fit { (q t : ℕ) → q < 5 → q ≢ 2 → t < 8
        → HasProcessor table.new (slice_index table.new.homes q) q
        × HasTask table.new (slice_index table.new.homes q) t }
{
    assert!(rt; q.0 < 5);
    assert!(rt; q.0 != 2);
    let c = table.home(q);
    match call {
        Call::Ready(task, major) => {
            assert!(rt; task < 8);
            table.set(c, TaskNo(task), Some(key(major)));
        }
        Call::Gone(task) => {
            assert!(rt; task < 8);
            table.set(c, TaskNo(task), None);
        }
        Call::Place => {
            placed.clear();
            table.place_changed(placed);
        }
        Call::Placed(yes) => assert_eq!(rt; placed.has(c), yes),
        Call::Irq(np, reply) => assert_eq!(rt; table.take_irq(c, q, np), reply),
        Call::Leave => table.leave(c, q),
        Call::Linked(task) => assert_eq!(rt; table.linked(c, q), task),
        Call::Runs(task) => assert_eq!(rt; table.runs(c, q), task),
        Call::First(task) => assert_eq!(rt; table.heap(c).and_then(|h| h.first()), task),
    }
}

fn play_all(rt: &impl Abort, alloc: Global, calls: &[(u32, Call)]) {
    let table = ClusterTable::open(alloc, &ROWS, GroupNo(0), 8);
    let mut table = table.expect(rt, "memory");
    let mut placed = PlacedMarks::new(alloc, ROWS.len()).expect(rt, "memory");
    for (q, call) in calls {
        play(rt, &mut table, &mut placed, CpuNo(*q), *call);
    }
}

// The highest key goes first, to the lowest free processor, and a task that runs keeps its own.
#[test]
fn places_in_each_cluster(rt: HostRuntime) {
    play_all(
        &rt,
        rt.alloc(),
        &[
            (0, Call::Ready(1, 30)),
            (1, Call::Ready(2, 20)),
            (4, Call::Ready(5, 10)),
            (0, Call::Linked(None)),
            (0, Call::Place),
            (0, Call::Placed(true)),
            (4, Call::Placed(true)),
            (0, Call::Linked(Some(TaskNo(2)))),
            (1, Call::Linked(Some(TaskNo(1)))),
            (3, Call::Linked(Some(TaskNo(5)))),
            (4, Call::Linked(None)),
            (0, Call::First(Some(TaskNo(2)))),
            (3, Call::First(Some(TaskNo(5)))),
            (0, Call::Irq(false, Reply::Runs(TaskNo(2)))),
            (1, Call::Irq(false, Reply::Runs(TaskNo(1)))),
            (4, Call::Irq(false, Reply::Quiet)),
            (0, Call::Ready(3, 10)),
            (0, Call::Place),
            (0, Call::Placed(true)),
            (4, Call::Placed(false)),
            (0, Call::Linked(Some(TaskNo(2)))),
            (1, Call::Linked(Some(TaskNo(3)))),
            (1, Call::Irq(true, Reply::Deferred)),
            (1, Call::Runs(Some(TaskNo(1)))),
            (1, Call::Irq(false, Reply::Runs(TaskNo(3)))),
            (1, Call::Runs(Some(TaskNo(3)))),
        ],
    );
}

// A task that runs nowhere keeps its link, unless that processor goes to a task that runs there.
#[test]
fn links_stay_or_give_way(rt: HostRuntime) {
    play_all(
        &rt,
        rt.alloc(),
        &[
            (0, Call::Ready(1, 10)),
            (0, Call::Ready(2, 20)),
            (0, Call::Place),
            (0, Call::Irq(false, Reply::Runs(TaskNo(1)))),
            (1, Call::Irq(false, Reply::Runs(TaskNo(2)))),
            (0, Call::Ready(3, 5)),
            (0, Call::Place),
            (0, Call::Linked(Some(TaskNo(1)))),
            (1, Call::Linked(Some(TaskNo(3)))),
            (0, Call::Gone(1)),
            (0, Call::Place),
            (0, Call::Linked(Some(TaskNo(3)))),
            (1, Call::Linked(Some(TaskNo(2)))),
            (0, Call::Ready(4, 1)),
            (0, Call::Place),
            (0, Call::Linked(Some(TaskNo(3)))),
            (1, Call::Linked(Some(TaskNo(4)))),
            (0, Call::Leave),
            (0, Call::Runs(None)),
            (0, Call::Irq(false, Reply::Runs(TaskNo(3)))),
            (0, Call::Gone(2)),
            (0, Call::Gone(3)),
            (0, Call::Gone(4)),
            (0, Call::Place),
            (0, Call::Linked(None)),
            (0, Call::Irq(false, Reply::Idles)),
            (0, Call::Runs(None)),
        ],
    );
}
