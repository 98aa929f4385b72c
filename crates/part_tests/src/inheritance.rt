ghost use Rattle.std.specs.Prelude.{◌≡◌, ◌<◌, ℕ, IfOk, IsSome, Some, None, length, slice_index_or};

use crate::seeds::next;
use prio_inherit::Inherit;
use rt_base::TaskNo;
use rt_rules::Key;
use std::alloc::Global;
use std::test::Fail;

fn base_key(prio: u64, task: u32) -> Key {
    Key {
        band: 2,
        major: prio,
        minor: task,
    }
}

// Twelve tasks, each with its base key, the task that it waits for and its boost.
#[derive(Drop)]
struct Plain {
    bases: [Key; 12],
    nexts: [Option<u32>; 12],
    boosts: [Option<Key>; 12],
}

impl Plain {
    fn next(&self, task: u32) -> Option<u32> {
        *self.nexts.get(task as usize)?
    }

    // Whether a walk leads from a task to another.
    fn leads(&self, from: u32, to: u32) -> bool {
        let mut at = self.next(from);
        for _step in 0..12 {
            let Some(holder) = at else {
                return false;
            };
            if holder == to {
                return true;
            }
            at = self.next(holder);
        }
        false
    }

    fn key(&self, task: u32) -> Key
        requires { task < 12 }
    {
        if let Some(key) = self.boosts[task as usize] {
            return key;
        }
        let mut best = self.bases[task as usize];
        for u in 0..12 {
            if self.leads(u, task) && self.bases[u as usize].is_higher(best) {
                best = self.bases[u as usize];
            }
        }
        best
    }
}

// One call at the table and at the plain lists. A task waits for those of a higher number alone.
fn play_call(table: &mut Inherit, plain: &mut Plain, seed: u64)
    requires room { length table.old.bases ≡ 12 }
    requires told { (t : ℕ) → t < 12 → IsSome (slice_index_or table.old.bases t None) }
    requires rising { (t v : ℕ) → slice_index_or table.old.nexts t None ≡ Some v → t < v }
    ensures room { length table.new.bases ≡ 12 }
    ensures told { (t : ℕ) → t < 12 → IsSome (slice_index_or table.new.bases t None) }
    ensures rising { (t v : ℕ) → slice_index_or table.new.nexts t None ≡ Some v → t < v }
{
    let task = (seed >> 33) as u32 % 12;
    let holder = (seed >> 37) as u32 % 12;
    let key = base_key((seed >> 41) % 16, (seed >> 45) as u32 % 4);
    let place = task as usize;
    match (seed >> 59) % 8 {
        0 => {
            table.base(TaskNo(task), key);
            plain.bases[place] = key;
        }
        1 => {
            table.boost(TaskNo(task), key);
            plain.boosts[place] = Some(key);
        }
        2 | 3 => {
            table.drop_boost(TaskNo(task));
            plain.boosts[place] = None;
        }
        4 => {
            table.stops(TaskNo(task));
            plain.nexts[place] = None;
        }
        _ => {
            if task < holder {
                table.waits(TaskNo(task), TaskNo(holder));
                plain.nexts[place] = Some(holder);
            }
        }
    }
}

// The base key of each task is told.
fn begin(alloc: Global) -> Result<(Inherit, Plain), Fail>
    ensures room { IfOk result (λ p. length p.0.bases ≡ 12) }
    ensures told { IfOk result (λ p. (t : ℕ) → t < 12 → IsSome (slice_index_or p.0.bases t None)) }
    ensures rising { IfOk result (λ p. (t v : ℕ) → slice_index_or p.0.nexts t None ≡ Some v →
        t < v) }
{
    let key = base_key(8, 0);
    let mut table = Inherit::new(alloc, 12)?;
    for t in 0..12 {
        table.base(TaskNo(t), key);
    }
    let plain = Plain {
        bases: [key; 12],
        nexts: [None; 12],
        boosts: [None; 12],
    };
    Ok((table, plain))
}

#[test]
fn keys_beside_walks_over_all_tasks(rt: HostRuntime) -> Result<(), Fail> {
    let (mut table, mut plain) = begin(rt.alloc())?;
    let mut seed = 1;
    for _ in 0..20_000 {
        seed = next(seed);
        play_call(&mut table, &mut plain, seed);
        for task in 0..12 {
            assert_eq!(rt; table.key(TaskNo(task)), plain.key(task));
        }
    }
    Ok(())
}
