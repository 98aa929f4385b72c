//! The keys that are kept, and their update along a walk.
ghost use Rattle.std.specs.Prelude.{◌≡◌, ◌<◌, ◌&&◌, true, ℕ, List, Option, None, Some, IfOk, length, replicate, slice_index_or};
ghost use Rattle.rt_base.specs.TaskNos.{number_of_task, numbers_of_tasks};
ghost use Rattle.rt_rules.specs.declared.Key.{Key};
ghost use Rattle.rt_rules.specs.KeyOrder.{higher, lowest_key};
ghost use Rattle.rt_rules.specs.Numbers.{is};
ghost use Rattle.sem_laws.specs.KeptKeys.{key_at};
ghost use Rattle.prio_inherit.specs.Counts.{IsCounted};
ghost use Rattle.prio_inherit.specs.Waits.{base_of, next_of};
ghost use Rattle.prio_inherit.specs.Local.{IsTop, IsLocal, IsSettling, IsRaising};

use rt_base::{NoMemory, TaskNo};
use rt_rules::Key;
use std::alloc::Global;

/// As many positions with no key.
pub fn no_keys(alloc: Global, room: usize) -> Result<Vec<Option<Key>>, NoMemory>
    ensures { IfOk result (λ v. v.items ≡ replicate room None) }
{
    Ok(vec![in alloc; None; room]?)
}

/// As many positions with no task.
pub fn no_tasks(alloc: Global, room: usize) -> Result<Vec<Option<TaskNo>>, NoMemory>
    ensures { IfOk result (λ v. v.items ≡ replicate room None) }
{
    Ok(vec![in alloc; None; room]?)
}

/// As many counts of none.
pub fn no_counts(alloc: Global, room: usize) -> Result<Vec<u32>, NoMemory>
    ensures { IfOk result (λ v. v.items ≡ replicate room 0) }
{
    Ok(vec![in alloc; 0; room]?)
}

/// As many of the lowest key.
pub fn lowest_keys(alloc: Global, room: usize) -> Result<Vec<Key>, NoMemory>
    ensures { IfOk result (λ v. v.items ≡ replicate room lowest_key) }
{
    Ok(vec![in alloc; Key::LOWEST; room]?)
}

/// Whether this is the base key of the task.
pub fn is_known(bases: &[Option<Key>], task: TaskNo, key: Key) -> bool
    requires { task.0 < length bases.now }
    ensures { result ≡ true → slice_index_or bases.now task.0 None ≡ Some key }
{
    bases[task.0 as usize] == Some(key)
}

// The base key of a task, or the lowest key where none was told.
fn base_in(bases: &[Option<Key>], task: TaskNo) -> Key
    ensures { result ≡ base_of bases.now task.0 }
{
    match bases.get(task.0 as usize) {
        Some(Some(key)) => *key,
        _ => Key::LOWEST,
    }
}

// Whether a task that waits for `next` waits for the given task with a key that is higher than the best so far.
fn raises(next: Option<TaskNo>, task: TaskNo, key: Key, best: Key) -> bool
    ensures { result ≡ (is task.0 (number_of_task next) && higher key best) }
{
    match next {
        Some(holder) => task.0 == holder.0 && key.is_higher(best),
        None => false,
    }
}

// The highest of the base key of a task and the keys of those that wait for it, which are looked for where there are
// any.
fn top_key(
    bases: &[Option<Key>],
    nexts: &[Option<TaskNo>],
    counts: &[u32],
    keys: &[Key],
    task: TaskNo,
) -> Key
    requires length { length keys.now ≡ length nexts.now }
    requires counts { IsCounted (numbers_of_tasks nexts.now) counts.now }
    requires below { task.0 < length nexts.now }
    ensures { IsTop (length nexts.now) (next_of (numbers_of_tasks nexts.now)) (key_at keys.now)
        (base_of bases.now task.0) task.0 result }
{
    let mut best = base_in(bases, task);
    if counts[task.0 as usize] == 0 {
        return best;
    }
    for u in 0..nexts.len() {
        if raises(nexts[u], task, keys[u], best) {
            best = keys[u];
        }
    }
    best
}

/// Brings the keys up to date along the walk that begins at the given task.
pub fn update_walk(
    bases: &[Option<Key>],
    nexts: &[Option<TaskNo>],
    counts: &[u32],
    keys: &mut Vec<Key>,
    start: Option<TaskNo>,
)
    requires counts { IsCounted (numbers_of_tasks nexts.now) counts.now }
    requires settling { IsSettling bases.now (numbers_of_tasks nexts.now) keys.old.items
        (number_of_task start) }
    ensures length { length keys.new.items ≡ length (numbers_of_tasks nexts.now) }
    ensures local { (t : ℕ) → t < length (numbers_of_tasks nexts.now) →
        IsLocal bases.now (numbers_of_tasks nexts.now) keys.new.items t }
{
    let mut at = start;
    for _step in 0..nexts.len() {
        let Some(task) = at else {
            return;
        };
        keys[task.0 as usize] = top_key(bases, nexts, counts, keys.as_slice(), task);
        at = nexts[task.0 as usize];
    }
}

/// Brings the keys up to date where a task waits for the holder no longer. Where its key was lower than that of the
/// holder, they are.
pub fn update_walk_left(
    bases: &[Option<Key>],
    nexts: &[Option<TaskNo>],
    counts: &[u32],
    keys: &mut Vec<Key>,
    holder: TaskNo,
    task: TaskNo,
)
    requires counts { IsCounted (numbers_of_tasks nexts.now) counts.now }
    requires settling { IsSettling bases.now (numbers_of_tasks nexts.now) keys.old.items
        (Some holder.0) }
    requires task { task.0 < length (numbers_of_tasks nexts.now) }
    requires lower { higher (key_at keys.old.items holder.0) (key_at keys.old.items task.0) ≡ true →
        IsLocal bases.now (numbers_of_tasks nexts.now) keys.old.items holder.0 }
    ensures length { length keys.new.items ≡ length (numbers_of_tasks nexts.now) }
    ensures local { (t : ℕ) → t < length (numbers_of_tasks nexts.now) →
        IsLocal bases.now (numbers_of_tasks nexts.now) keys.new.items t }
{
    if keys[holder.0 as usize].is_higher(keys[task.0 as usize]) {
        return;
    }
    update_walk(bases, nexts, counts, keys, Some(holder));
}

/// Raises the keys that are lower than the given one to it, along the walk that begins at the given task, up to the
/// first that is not.
pub fn raise(nexts: &[Option<TaskNo>], keys: &mut Vec<Key>, start: Option<TaskNo>, key: Key)
    requires length { length keys.old.items ≡ length (numbers_of_tasks nexts.now) }
    requires start { (t : ℕ) → number_of_task start ≡ Some t →
        t < length (numbers_of_tasks nexts.now) }
    requires within { (t v : ℕ) → next_of (numbers_of_tasks nexts.now) t ≡ Some v →
        v < length (numbers_of_tasks nexts.now) }
    ensures length { length keys.new.items ≡ length (numbers_of_tasks nexts.now) }
    ensures local { (bases : List (Option Key)) →
        IsRaising bases (numbers_of_tasks nexts.now) keys.old.items (number_of_task start) key →
        (t : ℕ) → t < length (numbers_of_tasks nexts.now) →
        IsLocal bases (numbers_of_tasks nexts.now) keys.new.items t }
{
    let mut at = start;
    for _step in 0..nexts.len() {
        let Some(task) = at else {
            return;
        };
        let position = task.0 as usize;
        if !key.is_higher(keys[position]) {
            return;
        }
        keys[position] = key;
        at = nexts[position];
    }
}
