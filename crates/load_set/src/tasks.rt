//! The tasks of a load.
ghost use Rattle.std.specs.Prelude.{◌≡◌, ◌∷◌, ◌++◌, ◌≤◌, [], IfOk, OnOk, false, replicate, true};
ghost use Rattle.rt_base.specs.declared.TheConstants.{MOST_TASKS};
ghost use Rattle.load_set.specs.Load as load;

use crate::draws::{Drawn, draw};
use itoa::Buffer;
use rt_base::{ClusterNo, MOST_PRIO, SemNo, TaskNo};
use rt_task::{Kind, Name, Op, Ops, SemNos, Task};
use std::alloc::{AllocError, Global};

/// A letter and a number.
pub(crate) fn name_of(alloc: Global, letter: u8, n: u32) -> Result<Name, AllocError>
    ensures { IfOk result (λ v. v ≡ load.name_of letter n) }
{
    let mut bytes = vec![in alloc; letter]?;
    let mut buffer = Buffer::new();
    bytes.extend_from_slice(buffer.format(n).as_bytes())?;
    Ok(Name::from_vec(bytes))
}

fn put_works(ops: &mut Vec<Op>, n: u64) -> Result<(), AllocError>
    ensures { OnOk result (ops.new.items ≡ ops.old.items ++ replicate n Op.Work) }
{
    for _i in 0..n {
        ops.push(Op::Work)?;
    }
    Ok(())
}

fn put(ops: &mut Vec<Op>, op: Op) -> Result<(), AllocError>
    ensures { OnOk result (ops.new.items ≡ ops.old.items ++ op ∷ []) }
{
    ops.push(op)?;
    Ok(())
}

fn locking_body(alloc: Global, sem: SemNo, works: u64) -> Result<Vec<Op>, AllocError>
    ensures { IfOk result (λ v. v.items ≡ load.body_of true sem.0 works) }
{
    let mut ops = Vec::new(alloc);
    put(&mut ops, Op::Lock(sem))?;
    put_works(&mut ops, works)?;
    put(&mut ops, Op::Unlock(sem))?;
    put(&mut ops, Op::End)?;
    Ok(ops)
}

fn plain_body(alloc: Global, works: u64) -> Result<Vec<Op>, AllocError>
    ensures { IfOk result (λ v. v.items ≡ load.body_of false 0 works) }
{
    let mut ops = Vec::new(alloc);
    put_works(&mut ops, works)?;
    put(&mut ops, Op::End)?;
    Ok(ops)
}

fn body_of(alloc: Global, locks: bool, sem: SemNo, works: u64) -> Result<Vec<Op>, AllocError>
    ensures { IfOk result (λ v. v.items ≡ load.body_of locks sem.0 works) }
{
    if locks {
        locking_body(alloc, sem, works)
    } else {
        plain_body(alloc, works)
    }
}

fn uses_of(alloc: Global, locks: bool, sem: SemNo) -> Result<Vec<SemNo>, AllocError>
    ensures { IfOk result (λ v. v.items ≡ load.uses_of locks sem.0) }
{
    if locks {
        let uses = vec![in alloc; sem]?;
        Ok(uses)
    } else {
        Ok(Vec::new(alloc))
    }
}

#[tactic(auto, unfolding(crate::specs::Load::task_of))]
fn task_of(alloc: Global, i: u32, d: Drawn) -> Result<Task, AllocError>
    requires { i ≤ MOST_TASKS }
    ensures { IfOk result (λ t. t ≡ load.task_of i d) }
{
    let cluster = i.saturating_sub(1) % 2;
    let tens = 1 + d.period % 100;
    let cost = 1 + d.cost % tens;
    let locks = d.locks % 2 == 1;
    let sem = SemNo(3 * cluster + 1 + (d.sem % 3) as u32);
    let name = name_of(alloc, b't', i)?;
    let uses = uses_of(alloc, locks, sem)?;
    let body = body_of(alloc, locks, sem, cost)?;
    Ok(Task {
        number: TaskNo(i),
        name,
        cluster: ClusterNo(cluster),
        cost,
        period: 10 * tens,
        rel_deadline: 10 * tens,
        phase: 0,
        kind: Kind::Periodic,
        prio: MOST_PRIO,
        enforce: false,
        uses: SemNos::from_vec(uses),
        resv: None,
        body: Ops::from_vec(body),
        early: false,
    })
}

/// `count` tasks, numbered from 1, whose numbers are drawn from the generator in this state.
pub(crate) fn tasks_of(alloc: Global, count: u32, state: u64) -> Result<Vec<Task>, AllocError>
    requires { count ≤ MOST_TASKS }
    ensures { IfOk result (λ v. v.items ≡ load.tasks_from count 1 state) }
{
    let mut tasks = Vec::new(alloc);
    let mut at = state;
    for i in 0..count {
        let (drawn, after) = draw(at);
        tasks.push(task_of(alloc, i + 1, drawn)?)?;
        at = after;
    }
    Ok(tasks)
}
